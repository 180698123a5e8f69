//! Unit attentions of a logical unit, and the set of those that are pending for one host.
//!
//! Contracts see a [`Pending`] as the finite set of the codes that are pending.
//!
//! Nothing here takes memory.
#![tactic(auto)]

mod attention;
mod flags;
mod pending;

pub use attention::Attention;
pub use flags::{
    POWER_ON_BIT, REGISTRATIONS_PREEMPTED_BIT, RESERVATIONS_PREEMPTED_BIT,
    RESERVATIONS_RELEASED_BIT,
};
pub use pending::Pending;
