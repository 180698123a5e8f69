//! The text of a scenario: its lines together, and the scenario that it is or its one fault.
//!
//! A text has lines, and what each says alone is read by `pr_lines`. The lines before one declare keys,
//! nexuses, starts, roles, scripts and plans; the next line either declares more or is the text's fault.
//! [`read`] reads from any reader, and [`of_text`] reads bytes.
#![tactic(auto)]

mod builder;
mod diagnosis;
mod draft;
mod ending;
mod fault;
mod laws;
mod open_script;
mod source;
mod text;
mod uniqueness;

pub use diagnosis::{Above, Block, Diagnosis, Section};
pub use fault::{ReadError, Which};
pub use laws::{
    earlier_texts_share_no_path, scenarios_have_no_fault, scripts_have_no_fault,
    texts_are_written_once, the_first_fault_decides, what_is_written_fits,
};
pub use text::{of_text, read, read_with_text};
