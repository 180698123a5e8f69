//! A verified scenario over threads: its world stands under a lock, and each nexus has a seat, by which some thread
//! takes its turns.
#![tactic(auto)]

mod closing;
mod gate;
mod gathering;
mod kept;
mod locked;
mod mixing;
mod outcome;
mod round;
mod run_error;
mod running;
mod seat;
mod seating;
mod shared;
mod threads;

pub use gate::{Gate, NoGate};
pub use outcome::{Differs, Outcome};
pub use pr_world::{End, Entry, How, Item, Turn, World};
pub use round::Round;
pub use run_error::RunError;
pub use running::run;
pub use seat::Seat;
pub use shared::SharedWorld;
