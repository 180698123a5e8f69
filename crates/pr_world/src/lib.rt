//! Scenarios at work: the logical unit, and the scripts and plans that drive it, one turn after another, with resets between.
#![tactic(auto)]

mod act;
mod course;
mod laws;
mod participant;
mod plan;
mod replaying;
mod turn;
mod world;

pub use laws::{
    replays_are_legal, safe_replays_end_untrapped, safe_replays_keep_budgets,
    safe_replays_keep_roles, safe_schedules_keep_to_rooms,
};
pub use pr_audit::{AuditError, End, audit};
pub use pr_roles::{Entry, How, Item, Step};
pub use replaying::{Replayed, replay, replay_as};
pub use turn::Turn;
pub use world::{World, room_of};
