//! What a command asks for.

ghost use Rattle.std.specs.Prelude.{◌≡◌};
ghost use Rattle.pr_regions.specs.inside.Parts.{is_unregistered, is_named};

use pr_cdb::Kind;
use pr_unit::Demand;

/// What a command asks for: a key is named by its place among the declared ones, from 1, and a PREEMPT has a type.
pub type Purpose = Demand<u8, Kind>;

/// How the sender of a command stands to what it asks for.
#[derive(Clone, Copy, PartialEq, Eq)]
pub enum Standing {
    /// It is not registered.
    Unregistered,
    /// It is registered with the key that the command names.
    Named,
    /// It is registered with another key, or the command names none.
    Other,
}

impl Standing {
    pub(crate) fn is_unregistered(self) -> bool
        ensures { result ≡ is_unregistered self }
    {
        matches!(self, Standing::Unregistered)
    }

    pub(crate) fn is_named(self) -> bool
        ensures { result ≡ is_named self }
    {
        matches!(self, Standing::Named)
    }
}
