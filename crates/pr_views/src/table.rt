//! What is known at the sends of a script, as a table.

ghost use Rattle.std.specs.Prelude.{◌≡◌, length};

use crate::outline::Outline;
use pr_cdb::Command;
use pr_script::{Class, Test};

/// What is known at a send of a script.
#[derive(Debug, Drop)]
pub struct Row {
    pub command: Command,
    /// The test of each arm.
    pub tests: Vec<Test>,
    /// Whether the role permits the command in every state in which it may end GOOD.
    pub permitted: bool,
    /// The arms that some reply takes, by their numbers from 0, in order.
    pub arms: Vec<usize>,
    /// How replies may end that no arm takes: GOOD, RESERVATION CONFLICT, BUSY, TASK SET FULL, then senses by number.
    pub unarmed: Vec<Class>,
}

/// The outline of a host, and a row for each of its views, in the order of the lines.
#[derive(Drop)]
pub struct Table {
    pub outline: Outline,
    pub rows: Vec<Row>,
    pub ghost each: { length rows.items ≡ length outline.views.items },
}
