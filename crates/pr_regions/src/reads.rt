//! Which arm takes the data that a command returns.

ghost use Rattle.std.specs.Prelude.{◌≤◌, ◌||◌, IsTrue, length};
ghost use Rattle.std.specs.List.{All};
ghost use Rattle.pr_script.specs.declared.limits.TheConstants.{MOST_ARMS};
ghost use Rattle.pr_script.specs.Grammar.{is_written, is_read_keys, is_read_reservation, test_fits};
ghost use Rattle.pr_roles.specs.declared.limits.TheConstants.{MOST_KEYS};
ghost use Rattle.pr_regions.specs.Readings.{AreReadingsOfAny, IsProperReading};

use crate::key_reads::key_readings;
use crate::region::{MOST_READINGS, Reading};
use crate::reservation_reads::reservation_readings;
use arrayvec::ArrayVec;
use pr_cdb::Command;
use pr_registry::Held;
use pr_script::Test;

/// Which arm takes the data of READ KEYS or READ RESERVATION, region by region of the states with this reservation in
/// which the sender has this registration.
pub fn readings(
    tests: &[Test],
    command: Command,
    keys: &[u64],
    held: Option<Held>,
    sender: u8,
    registration: u8,
) -> ArrayVec<Reading, MOST_READINGS>
    requires arms { length tests.now ≤ MOST_ARMS }
    requires few { length keys.now ≤ MOST_KEYS }
    requires reads { IsTrue (is_read_keys command || is_read_reservation command) }
    requires written { IsTrue (is_written keys.now command) }
    requires fits { All (λ test. IsTrue (test_fits keys.now command test)) tests.now }
    requires known { registration ≤ length keys.now }
    ensures right { AreReadingsOfAny keys.now tests.now command held sender registration
        result.items }
    ensures proper { All IsProperReading result.items }
{
    match command {
        Command::ReadKeys { .. } => key_readings(tests, keys, registration),
        Command::ReadReservation { .. } => {
            reservation_readings(tests, keys, held, sender, registration)
        }
        _ => unreachable!(),
    }
}
