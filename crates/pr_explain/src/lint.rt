//! What is worth a look in a scenario that is accepted.

/// What is worth a look, and changes no verdict.
#[derive(Clone, Copy, Debug, PartialEq, Eq)]
pub enum Lint {
    /// The script never comes to the send on this line.
    NeverSent {
        line: u32,
    },
    /// No reply takes this arm of the send on this line, counted from 0.
    NeverTaken {
        line: u32,
        arm: usize,
    },
    /// An arm above takes all that this one waits for.
    Covered {
        line: u32,
        arm: usize,
        above: usize,
    },
    /// No command of the host's script is one that this clause of its role names.
    NotNeeded {
        host: u8,
        clause: usize,
    },
    /// Nothing uses this declared key.
    NotUsed {
        key: u64,
    },
    /// The command of the send on this line needs a reservation key and has none, so it always conflicts.
    Keyless {
        line: u32,
    },
    /// The command of the send on this line, by this host, never ends GOOD, though there is an arm for that: because of its
    /// reservation key, with which the host is never registered there, or for another reason.
    NeverGood {
        host: u8,
        line: u32,
        key: Option<u64>,
    },
    /// The send on this line has no arm for every conflict, or none for every attention. None comes that it lacks, but on a disk
    /// that answers in another order one may.
    HalfArmed {
        line: u32,
    },
    /// In no state from which the scenario starts does this alternative of its reservation stand.
    NoSuchReservation {
        alternative: usize,
    },
    /// In each such state the nexus is registered, though its start has `free`.
    NoSuchStart {
        host: u8,
    },
}
