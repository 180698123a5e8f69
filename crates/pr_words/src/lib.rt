//! What happens to a logical unit, in words for people: commands, replies, sense, reservations, lines of a scenario's text, and
//! a history with what is told of it.
//!
//! The words stand in tables, and writing takes no memory. That they say what is so is tested, against files; proved is that
//! each call is safe and ends, and of a history that what is told of it is legal just where an audit says so.
#![tactic(auto)]

mod adopting;
mod command;
mod item;
mod reply;
pub mod saying;
mod sense;
mod source_line;
mod standing;
mod tale;
mod telling;
mod unseen;
mod wrapping;

pub use command::{put_command, put_request};
pub use item::put_item;
pub use reply::{put_class, put_reply};
pub use sense::put_sense;
pub use source_line::{line_in, lines_from, put_carets, put_source_line};
pub use standing::{name_of, put_end, put_held, put_over, put_start, put_unit};
pub use tale::write_telling;
pub use telling::{Departure, Instead, Note, Telling, telling_from, telling_of};
pub use wrapping::Wrapping;
