//! The states in which a command ends alike.

use pr_cdb::Sense;
use pr_script::limits::MOST_ARMS;
use pr_sets::BitSet;

/// States with one reservation and one standing of the sender, told apart by the registrations of the others.
#[derive(Clone, Copy, PartialEq, Eq)]
pub struct Region {
    /// The registrations that the single holder may have, where it is not the sender.
    pub holder: BitSet,
    /// The registrations that each of the others may have.
    pub others: BitSet,
    /// If it is there, some nexus other than the sender is registered with one of these, so 0, which is no key's number, is not in
    /// it.
    pub somebody: Option<BitSet>,
}

/// What a command that ends GOOD changes.
#[derive(Clone, Copy, PartialEq, Eq)]
pub struct Transition {
    /// The sender's registration after it, where it changes.
    pub sender: Option<u8>,
    /// The registrations that others lose.
    pub removed: BitSet,
    /// The reservation after it, by its number.
    pub reservation: u8,
    /// With which registrations others are told that reservations were preempted.
    pub told_03: BitSet,
    /// With which registrations others are told that reservations were released.
    pub told_04: BitSet,
    /// With which registrations others are told that registrations were preempted.
    pub told_05: BitSet,
}

/// How a command ends once no attention is pending for its sender.
#[derive(Clone, Copy, PartialEq, Eq)]
pub enum Ending {
    /// RESERVATION CONFLICT.
    Conflict,
    /// CHECK CONDITION with this sense.
    Fault(Sense),
    /// GOOD.
    Good(Transition),
}

/// A region with the command's ending there.
#[derive(Clone, Copy, PartialEq, Eq)]
pub struct Branch {
    pub region: Region,
    pub ending: Ending,
}

/// How many readings a command has at most: one for each arm, and one where no arm takes the data.
pub const MOST_READINGS: usize = MOST_ARMS + 1;

/// A region with the arm that takes the data which the command returns there, if one does.
#[derive(Clone, Copy, PartialEq, Eq)]
pub struct Reading {
    pub region: Region,
    pub arm: Option<usize>,
}
