//! What a service action does to other hosts.

ghost use Rattle.std.specs.Prelude.{◌≡◌};

use crate::host_set::HostSet;

/// Whose registrations a service action removed, and whom it tells of what by a unit attention: of
/// reservations preempted (2Ah/03h), reservations released (2Ah/04h), or registrations preempted
/// (2Ah/05h).
#[derive(Drop)]
pub struct Change {
    pub removed: HostSet,
    pub told_03: HostSet,
    pub told_04: HostSet,
    pub told_05: HostSet,
}

impl Change {
    ghost use Rattle.pr_registry.specs.Changes.{no_change};

    /// Nobody is removed or told.
    pub fn none() -> Self
        ensures { result ≡ no_change }
    {
        Change {
            removed: HostSet::new(),
            told_03: HostSet::new(),
            told_04: HostSet::new(),
            told_05: HostSet::new(),
        }
    }
}
