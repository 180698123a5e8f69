//! Which arm takes the data of READ RESERVATION.

ghost use Rattle.std.specs.Prelude.{◌≡◌, ◌≤◌, Some, length, true, position};
ghost use Rattle.std.specs.List.{All};
ghost use Rattle.pr_roles.specs.declared.limits.TheConstants.{MOST_KEYS};
ghost use Rattle.pr_regions.specs.Readings.{AreReadingsOfAny, IsProperReading};
ghost use Rattle.pr_regions.specs.inside.Reads.{passes_held, read_reservation, AreReadingsByHolder, IsEverywhere, TestsFit};

use crate::region::{MOST_READINGS, Reading, Region};
use arrayvec::ArrayVec;
use pr_cdb::Command;
use pr_registry::Held;
use pr_roles::key_at;
use pr_script::Test;
use pr_sets::BitSet;
use pr_unit::is_key;

// Whether the test matches data with a reservation of this key, or with none.
fn passes(key: Option<u64>, test: Test) -> bool
    ensures { result ≡ passes_held key test }
{
    match test {
        Test::Good => true,
        Test::GoodHeld(held) => is_key(key, held),
        Test::GoodUnheld => key.is_none(),
        _ => false,
    }
}

// The first arm that takes data with a reservation of this key, or with none.
fn first_arm(tests: &[Test], key: Option<u64>) -> Option<usize>
    ensures { result ≡ position (passes_held key) tests.now }
{
    tests.iter().position(|test| passes(key, *test))
}

// The same arm in all states.
fn everywhere(arm: Option<usize>) -> ArrayVec<Reading, MOST_READINGS>
    ensures all { IsEverywhere arm result.items }
    ensures proper { All IsProperReading result.items }
{
    let mut readings = ArrayVec::new();
    readings.push(Reading {
        region: Region::whole(),
        arm,
    });
    readings
}

// By the key of another host that holds the reservation alone.
fn by_holder(tests: &[Test], keys: &[u64]) -> ArrayVec<Reading, MOST_READINGS>
    requires few { length keys.now ≤ MOST_KEYS }
    requires fits { TestsFit keys.now read_reservation tests.now }
    ensures right { AreReadingsByHolder keys.now tests.now result.items }
    ensures proper { All IsProperReading result.items }
{
    let mut readings = ArrayVec::new();
    for (place, key) in keys.iter().enumerate() {
        readings.push(Reading {
            region: Region {
                holder: BitSet::only(place as u8 + 1),
                ..Region::whole()
            },
            arm: first_arm(tests, Some(*key)),
        });
    }
    readings
}

// By the key of the reservation that stands.
fn held_readings(
    tests: &[Test],
    keys: &[u64],
    held: Held,
    sender: u8,
    registration: u8,
) -> ArrayVec<Reading, MOST_READINGS>
    requires few { length keys.now ≤ MOST_KEYS }
    requires fits { TestsFit keys.now read_reservation tests.now }
    requires known { registration ≤ length keys.now }
    ensures right { AreReadingsOfAny keys.now tests.now read_reservation (Some held) sender
        registration result.items }
    ensures proper { All IsProperReading result.items }
{
    match held {
        Held::All(_) => everywhere(first_arm(tests, Some(0))),
        Held::One(_, holder) => {
            if holder == sender {
                let key = key_at(keys, registration).unwrap_or(0);
                everywhere(first_arm(tests, Some(key)))
            } else {
                by_holder(tests, keys)
            }
        }
    }
}

/// Which arm takes the data of READ RESERVATION, region by region.
pub(crate) fn reservation_readings(
    tests: &[Test],
    keys: &[u64],
    held: Option<Held>,
    sender: u8,
    registration: u8,
) -> ArrayVec<Reading, MOST_READINGS>
    requires few { length keys.now ≤ MOST_KEYS }
    requires fits { TestsFit keys.now read_reservation tests.now }
    requires known { registration ≤ length keys.now }
    ensures right { AreReadingsOfAny keys.now tests.now read_reservation held sender registration
        result.items }
    ensures proper { All IsProperReading result.items }
{
    match held {
        None => everywhere(first_arm(tests, None)),
        Some(held) => held_readings(tests, keys, held, sender, registration),
    }
}
