//! A command that reached the unit, with its answer.

ghost use Rattle.std.specs.Prelude.{◌≡◌};

use pr_cdb::{Reply, Wire};

/// A command that reached the unit, its sender's number, and the unit's answer.
#[derive(Debug, Drop, PartialEq, Eq)]
pub struct Entry {
    pub host: u8,
    pub wire: Wire,
    pub reply: Reply,
}

impl Entry {
    /// An equal one.
    pub fn copy(&self) -> Self
        ensures { result ≡ self.now }
    {
        Entry {
            host: self.host,
            wire: self.wire.copy(),
            reply: self.reply.copy(),
        }
    }
}
