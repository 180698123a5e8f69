//! The most of each that a scenario may have (docs/FORMATS.md, 'Limits').

ghost use Rattle.std.specs.Prelude.{◌≡◌, ◌≤◌};
ghost use Rattle.pr_roles.specs.Fitting.{most_declared};

use pr_cdb::codes::MOST_NEXUSES;

/// Hosts and guests together, in the first version of texts.
pub const MOST_DECLARED_1: usize = 8;

/// Hosts and guests together, in the second version.
pub const MOST_DECLARED_2: usize = 16;

// Each of them has a place in a unit.
const _: () = prove!(MOST_DECLARED_1 <= MOST_NEXUSES && MOST_DECLARED_2 <= MOST_NEXUSES);

/// Keys that a scenario declares.
pub const MOST_KEYS: usize = 12;

/// Clauses of a role.
pub const MOST_CLAUSES: usize = 32;

/// Refusals of one kind that a nexus may meet.
pub const MOST_REFUSALS: u32 = 1_000;

/// Resets of the unit during a run.
pub const MOST_RESETS: u32 = 1_000;

/// Commands of a guest's plan.
pub const MOST_PLANNED: usize = 256;

/// How many hosts and guests together a text of this version may declare.
pub fn most_declared(version: u8) -> usize
    ensures exact { result ≡ most_declared version }
    ensures few { result ≤ MOST_DECLARED_2 }
{
    if version == 1 {
        MOST_DECLARED_1
    } else {
        MOST_DECLARED_2
    }
}
