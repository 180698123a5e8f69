//! Which arm takes the data of READ KEYS.

ghost use Rattle.std.specs.Prelude.{◌≡◌, ◌≤◌, ℕ, Option, length, true};
ghost use Rattle.std.specs.List.{All};
ghost use Rattle.pr_cdb.specs.declared.command.Command.{Command as CommandOf};
ghost use Rattle.pr_registry.specs.declared.held.Held.{Held};
ghost use Rattle.pr_script.specs.declared.limits.TheConstants.{MOST_ARMS};
ghost use Rattle.pr_script.specs.Grammar.{test_fits};
ghost use Rattle.pr_roles.specs.declared.limits.TheConstants.{MOST_KEYS};
ghost use Rattle.pr_regions.specs.Readings.{AreReadings, IsProperReading};
ghost use Rattle.pr_regions.specs.inside.Reads.{read_keys, IsAsked, HasFewer, TestsFit, open_to};

use crate::commands::number_in;
use crate::region::{MOST_READINGS, Reading, Region};
use crate::words::every_registration;
use arrayvec::ArrayVec;
use pr_cdb::Command;
use pr_script::Test;
use pr_sets::BitSet;

// What a test asks of the keys that are read.
#[derive(Clone, Copy)]
enum Ask {
    // Nothing more.
    Always,
    // What is never so.
    Never,
    // That another has the key of this number.
    Somebody(u8),
}

impl Default for Reading {
    fn default() -> Reading {
        Reading {
            region: Region::whole(),
            arm: None,
        }
    }
}

fn asked_by(test: Test, keys: &[u64], registration: u8) -> Ask
    requires few { length keys.now ≤ MOST_KEYS }
    requires fits { test_fits keys.now read_keys test ≡ true }
    ensures asked { (hosts : ℕ) (held : Option Held) (sender : ℕ)
        → IsAsked keys.now hosts held sender registration read_keys test result }
    ensures small { HasFewer result }
{
    match test {
        Test::Good => Ask::Always,
        Test::GoodHas(key) => {
            let number = number_in(keys, key);
            if number == registration {
                Ask::Always
            } else {
                Ask::Somebody(number)
            }
        }
        _ => Ask::Never,
    }
}

// The region in which all others have one of these registrations.
fn open_to(left: BitSet) -> Region
    ensures { result ≡ open_to left }
{
    Region {
        holder: left,
        others: left,
        somebody: None,
    }
}

/// Which arm takes the data of READ KEYS, region by region.
pub(crate) fn key_readings(
    tests: &[Test],
    keys: &[u64],
    registration: u8,
) -> ArrayVec<Reading, MOST_READINGS>
    requires few { length keys.now ≤ MOST_KEYS }
    requires arms { length tests.now ≤ MOST_ARMS }
    requires fits { TestsFit keys.now read_keys tests.now }
    ensures right { (hosts : ℕ) (held : Option Held) (sender : ℕ)
        → AreReadings keys.now hosts tests.now read_keys held sender registration result.items }
    ensures proper { All IsProperReading result.items }
{
    let mut readings = ArrayVec::new();
    let mut left = every_registration();
    for (arm, test) in tests.iter().enumerate() {
        match asked_by(*test, keys, registration) {
            Ask::Never => {}
            Ask::Always => {
                readings.push(Reading {
                    region: open_to(left),
                    arm: Some(arm),
                });
                return readings;
            }
            Ask::Somebody(key) => {
                readings.push(Reading {
                    region: Region {
                        somebody: Some(BitSet::only(key)),
                        ..open_to(left)
                    },
                    arm: Some(arm),
                });
                left = left.without(key);
            }
        }
    }
    readings.push(Reading {
        region: open_to(left),
        arm: None,
    });
    readings
}
