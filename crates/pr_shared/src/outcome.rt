//! What a run over threads comes to.

use pr_audit::End;
use pr_roles::{Entry, Item};
use pr_unit::Unit;
use pr_world::World;
use std::fmt;

/// What a run came to: each host's script is stopped, and each guest's plan is done.
#[derive(Debug, Drop)]
pub struct Outcome {
    /// The commands that reached the unit and its resets, in order.
    pub history: Vec<Item>,

    pub unit: Unit,

    /// How each nexus stands, by its number.
    pub ends: Vec<End>,
}

/// The world under the lock and the seats don't belong together, or some nexus has not come to its end.
#[derive(Drop)]
pub struct Differs {
    /// What stood under the lock.
    pub world: World,

    /// The entries that each seat's turns answered, by the numbers of their nexuses.
    pub mine: Vec<Vec<Entry>>,
}

impl fmt::Debug for Differs {
    fn fmt<W: fmt::Write>(&self, f: &mut fmt::Formatter<W>) -> fmt::Result {
        f.write_str("Differs")
    }
}
