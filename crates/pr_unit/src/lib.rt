//! A logical unit that executes one command at a time.
#![tactic(auto)]

mod access;
mod answers;
mod conduct;
mod conflicts;
mod data;
mod decision;
mod demand;
mod follows;
mod laws;
mod pending_table;
mod reply;
mod shared_paths;
mod unit;

pub use answers::report_of;
pub use conduct::illegal;
pub use conflicts::{is_key, is_not_admitted};
pub use demand::{Admission, Demand, admission_of, demand_of};
pub use laws::{
    capacity_agrees, effects_are_well_formed, every_request_has_a_step, free_commands_end_good,
    good_is_fixed, good_steps_take_effect, quiet_steps, resets_are_well_formed, resets_tell_each,
    steps_are_never_busy, steps_are_well_formed, steps_keep_hosts,
};
pub use unit::{CAPACITY, Unit};
