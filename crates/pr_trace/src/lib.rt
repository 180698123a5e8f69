//! The trace of a scenario at work, as lines of text to any writer; and traces read back from any reader.
//!
//! Nothing that is written takes memory: a trace is put together on a page of fixed size, and goes out a page at a
//! time. Of a trace that is read the entries take memory, and nothing else.
#![tactic(auto)]

mod ahead;
mod entry_reading;
mod first_line;
mod laws;
mod page;
mod status;
mod trace;
mod trace_error;
mod trace_reading;
mod versions;

pub use entry_reading::number_of;
pub use laws::{traces_of_runs_are_read, written_traces_are_read};
pub use page::Page;
pub use pr_output::WriteFault;
pub use trace::{held_word, name_of, write_trace, write_trace_body};
pub use trace_error::TraceError;
pub use trace_reading::read_trace;
