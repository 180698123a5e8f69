//! Runs of a scenario, and what they break.

use pr_audit::End;
use pr_explore::Broken;
use pr_roles::Item;
use pr_unit::Unit;

/// A run of a scenario: the state from which it starts, what happened to the unit, the unit as it is then, and how each nexus
/// stands.
#[derive(Drop)]
pub struct CertifiedRun {
    pub start: Unit,
    pub history: Vec<Item>,
    pub unit: Unit,
    pub ends: Vec<End>,
    /// How many commands of each reached the unit.
    pub counts: Vec<u32>,
}

/// A run of a scenario that breaks what safety says.
#[derive(Drop)]
pub struct Breach {
    pub run: CertifiedRun,
    pub broken: Broken,
}
