//! Roles, starts and scenarios as values, and the tests of which parts a text may write.
//!
//! A [`Scenario`] has parts that fit and some state to start from, by its type.
//!
//! Worked examples stand in `tests/vectors`.
#![tactic(auto)]

mod copying;
mod entry;
mod first;
mod fitting;
mod how;
mod item;
mod keys;
mod laws;
pub mod limits;
mod nexus;
mod parts;
mod permitting;
mod refusal;
mod role;
mod scenario;
mod step;
mod uniqueness;
mod verified;

pub use entry::Entry;
pub use fitting::{are_alternatives, are_declared, is_action};
pub use how::{How, Refusals};
pub use item::Item;
pub use keys::key_at;
pub use laws::{
    fetches_are_unheard, fetches_reach_all, fewer_premises_are_no_safer, first_starts_are_earliest,
    first_version_has_no_reset, first_version_is_plain, limits_agree, refusals_are_counted,
    refusals_are_declared, resets_are_counted, resets_are_declared, runs_go_on,
    safe_sends_are_fine, shared_paths_are_no_safer, starts_are_found,
};
pub use nexus::{has_script, nexus_in};
pub use parts::{Nexus, Parts, Start, Task};
pub use permitting::{clause_permits, is_always_permitted, names, permits};
pub use pr_script::Word;
pub use refusal::Refusal;
pub use role::{Action, Clause, Condition, Role};
pub use scenario::{Scenario, first_start};
pub use step::Step;
pub use uniqueness::{are_distinct, are_held_apart};
pub use verified::Verified;
