//! What a host can know of the logical unit at its start, what becomes of it by its own commands, and whether a role permits them.
#![tactic(auto)]

mod arms;
mod attentions;
mod collecting;
mod outcome;
mod permitting;
mod reporting;
mod starting;
mod tally;
mod tallying;
mod tested;
mod twins;

pub use outcome::outcomes;
pub use permitting::permitted;
pub use pr_script::{Class, Landing};
pub use pr_sets::{ListSet, ViewSet, WordSet};
pub use pr_views::{View, ViewOf};
pub use starting::of_start;
