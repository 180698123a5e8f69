//! The faults of scenario texts and traces, in words for people: the line with a caret, the form that was wanted, the nearest
//! declared name, and what is open.
//!
//! A text is looked at again as words on lines; that what is said of it is so is tested, against files, and proved is that each
//! call is safe, ends, and takes no memory.
#![tactic(auto)]

mod confused;
mod declared;
mod indents;
mod limits;
mod standing;
mod telling;
mod traces;
mod unknown;

pub use telling::write_text_fault;
pub use traces::write_trace_fault;
