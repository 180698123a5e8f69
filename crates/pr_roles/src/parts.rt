//! The parts of a scenario.

use crate::role::Role;
use pr_attention::Pending;
use pr_cdb::Command;
use pr_registry::Held;
use pr_script::{Script, Word};

/// What a nexus may be registered with at the start: one of these keys, or none.
#[derive(Debug, Drop, PartialEq, Eq)]
pub struct Start {
    pub alternatives: Vec<Option<u64>>,
}

/// What a nexus does: a host runs a script, and a guest sends what it likes. Its plan is what it sends
/// where a scenario is run.
#[derive(Drop)]
pub enum Task {
    Scripted {
        script: Script,
        /// The most commands that the script may send, as it says itself.
        budget: u32,
    },
    Planned(Vec<Command>),
}

/// A nexus (SAM-5, 'I_T nexus').
#[derive(Drop)]
pub struct Nexus {
    pub name: Word,
    pub role: Role,
    pub start: Start,
    /// The attentions that may be pending for it at the start.
    pub pending: Pending,
    pub task: Task,
    /// How often it may be answered BUSY, and how often TASK SET FULL.
    pub busy: u32,
    pub full: u32,
    /// Whether somebody else may send on its path, and be told of the attentions that are pending for it.
    pub shared: bool,
}

/// What a scenario declares. Nexuses are numbered from 0 in the order of their declaration.
#[derive(Drop)]
pub struct Parts {
    /// That of its text: 1, 2 or 3.
    pub version: u8,
    pub keys: Vec<u64>,
    /// The reservations that there may be at the start, or none.
    pub reservations: Vec<Option<Held>>,
    /// The generation of the first start.
    pub generation: u32,
    /// How often the unit may be reset during a run.
    pub resets: u32,
    /// Whether the unit may report an attention before it looks at the reservation.
    pub early: bool,
    pub nexuses: Vec<Nexus>,
}
