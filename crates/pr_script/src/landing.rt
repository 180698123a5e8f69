//! Where a script goes on after a reply.

use pr_cdb::Sense;

/// How a reply ended.
#[derive(Clone, Copy, Debug, PartialEq, Eq)]
pub enum Class {
    /// GOOD.
    Good,
    /// RESERVATION CONFLICT.
    Conflict,
    /// BUSY.
    Busy,
    /// TASK SET FULL.
    Full,
    /// CHECK CONDITION with this sense.
    Sense(Sense),
}

/// Where a script goes on after a reply to its send.
#[derive(Clone, Copy, Debug, PartialEq, Eq)]
pub enum Landing {
    /// In this arm, the first of those that match, counted from 0.
    Arm(usize),
    /// Nowhere: no arm matches a reply that ended so.
    NoArm(Class),
}
