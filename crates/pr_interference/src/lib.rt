//! What becomes of what a host can know of the logical unit while others send commands, and when the unit is reset.
#![tactic(auto)]

mod clauses;
mod closing;
mod holders;
mod interference;
mod marking;
mod onlooker;
mod reach;
mod reaching;
mod resetting;

pub use closing::close;
pub use interference::interfere;
pub use resetting::reset;
