//! A script as a table of instructions, its rows.
//!
//! A place is a number: 0 is the end, and any other names a row, the first of which is 1. Rows are added from
//! the end backwards, so that each names only places before it. A body of a repeat ends at place 0, and the
//! body of an arm goes on with what follows its send.

use crate::script::{Test, Word};
use pr_cdb::Command;

/// A statement, and the place that follows it.
#[derive(Drop)]
pub(crate) struct Instruction {
    pub step: Operation,
    pub next: usize,
}

/// What is done at a row.
#[derive(Drop)]
pub(crate) enum Operation {
    Send {
        line: u32,
        command: Command,
        arms: Vec<ArmTarget>,
    },
    Repeat {
        count: u32,
        body: usize,
    },
    Break,
    Stop(Word),
}

/// The place at which an arm's body begins.
#[derive(Clone, Copy)]
pub(crate) struct ArmTarget {
    pub test: Test,
    pub place: usize,
}
