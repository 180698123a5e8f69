//! The registrations, the reservation and the generation of a logical unit, and what each service
//! action of PERSISTENT RESERVE OUT makes of them.
//!
//! Contracts see a [`Registry`] as a `State`: a set of pairs of a host and its key, a reservation, and
//! PRGENERATION.
#![tactic(auto)]

mod change;
mod held;
mod host_set;
mod preempt;
mod registry;
mod table;

pub use change::Change;
pub use held::Held;
pub use host_set::HostSet;
pub use registry::Registry;
pub use table::{is_all, is_for_registrants, is_held_by_all, is_kind, kind_of, new_reservation};
