//! What is called round each turn of a run.

use pr_world::{How, Turn};

/// What a run calls round each turn, in the thread that takes the turn. The turns of a nexus are numbered from 1. A
/// gate may wait, and so have threads meet.
pub trait Gate: Sync {
    /// Before turn `n` of this nexus.
    fn before(&self, host: u8, n: u32);

    /// How the command of turn `n` of this nexus is answered. Where it says a refusal, and the scenario has one left for the
    /// nexus, that is the answer; else the unit answers. Where it says early, the unit reports before it looks at the
    /// reservation, if the scenario has that and the unit may.
    fn how(&self, _host: u8, _n: u32) -> How {
        How::Plain
    }

    /// Whether the unit is reset just before turn `n` of this nexus. Where the scenario has no reset left, nothing happens.
    fn resets(&self, _host: u8, _n: u32) -> bool {
        false
    }

    /// After turn `n` of this nexus, with what it answered.
    fn after(&self, host: u8, n: u32, turn: &Turn);
}

/// A gate that does nothing.
#[derive(Clone, Copy, Debug)]
pub struct NoGate;

impl Gate for NoGate {
    fn before(&self, _host: u8, _n: u32) {}

    fn after(&self, _host: u8, _n: u32, _turn: &Turn) {}
}
