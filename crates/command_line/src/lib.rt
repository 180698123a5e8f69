//! The command line of the program: its subcommands, their help, and what the words of a call ask for.
#![tactic(auto)]

mod call;
mod subcommands;

pub use call::{Call, call_of};
pub use subcommands::matches_of;
