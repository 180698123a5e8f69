//! Roles: which commands a nexus is meant to send.

use pr_cdb::Kind;

/// The commands that a clause of a role names.
///
/// READ KEYS, READ RESERVATION, REPORT CAPABILITIES, TEST UNIT READY and REQUEST SENSE need no clause.
#[derive(Clone, Copy, Debug, PartialEq, Eq)]
pub enum Action {
    /// REGISTER, and REGISTER AND IGNORE EXISTING KEY, of this key.
    Register(u64),
    /// REGISTER, and REGISTER AND IGNORE EXISTING KEY, of the key zero.
    Unregister,
    /// RESERVE of this type.
    Reserve(Kind),
    /// RELEASE of any type.
    Release,
    /// CLEAR.
    Clear,
    /// PREEMPT, and PREEMPT AND ABORT, of this key, which may be zero, with this type.
    Preempt(u64, Kind),
    /// READ (10).
    Read,
    /// WRITE (10).
    Write,
}

/// What must hold of the sender, in the state just before its command.
#[derive(Clone, Copy, Debug, PartialEq, Eq)]
pub enum Condition {
    /// It is registered.
    Registered,
    /// It holds the reservation: alone, or as any registrant where all registrants hold.
    Holder,
    /// There is a reservation.
    Reserved,
}

/// Commands that a role permits: always, or under a condition.
#[derive(Clone, Copy, Debug, PartialEq, Eq)]
pub struct Clause {
    pub action: Action,
    pub condition: Option<Condition>,
}

/// What a nexus is meant to do: the commands of its clauses.
#[derive(Debug, Drop, PartialEq, Eq)]
pub struct Role {
    pub clauses: Vec<Clause>,
}
