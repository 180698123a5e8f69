//! How each command ends, region by region of the states that a view shows; and what of a view is so in those states.
#![tactic(auto)]

mod branching;
mod changed;
mod commands;
mod comparing;
mod conditions;
mod dispatch;
mod endings;
mod initiator;
mod keeping;
mod key_reads;
mod place;
mod preempting;
mod purpose;
mod reads;
mod region;
mod reservation_reads;
mod unregistering;
mod words;

pub use changed::registrations_after;
pub use commands::{number_in, purpose_of, standing_of};
pub use comparing::gains;
pub use dispatch::branches;
pub use endings::change_to_reservation;
pub use keeping::kept;
pub use place::Place;
pub use pr_views::count_of_reservations;
pub use purpose::{Purpose, Standing};
pub use reads::readings;
pub use region::{Branch, Ending, Reading, Region, Transition};
pub use words::every_key;
