//! The initiator of a command, as its endings ask for it.

ghost use Rattle.std.specs.Prelude.{◌≤◌, ◌<◌, IsTrue};
ghost use Rattle.pr_cdb.specs.declared.codes.TheConstants.{MOST_NEXUSES};
ghost use Rattle.pr_roles.specs.declared.limits.TheConstants.{MOST_KEYS};
ghost use Rattle.pr_roles.specs.Fitting.{is_reservation};

use crate::purpose::Standing;
use pr_cdb::Kind;
use pr_registry::Held;

/// The initiator of a command: a nexus among so many, how it stands to what the command asks for, and the reservation that it
/// meets.
#[derive(Clone, Copy)]
pub(crate) struct Initiator {
    pub(crate) hosts: u8,
    pub(crate) held: Option<Held>,
    pub(crate) number: u8,
    pub(crate) standing: Standing,
    ghost few: { hosts ≤ MOST_NEXUSES },
    ghost there: { number < hosts },
    ghost fits: { IsTrue (is_reservation hosts held) },
}

/// What a sender asks for that preempts: the key of this number, and a reservation of this type where it is the holder's.
#[derive(Clone, Copy)]
pub(crate) struct Preemption {
    pub(crate) sender: Initiator,
    pub(crate) key: u8,
    pub(crate) kind: Kind,
    ghost some: { 1 ≤ key },
    ghost most: { key ≤ MOST_KEYS },
}
