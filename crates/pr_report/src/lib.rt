//! What is reported of a scenario, as lines of text to any writer: the verdict on one, and what is known at the sends of
//! its scripts. The trace of a scenario at work is handed on.
//!
//! Nothing that is written takes memory: the sends of an outline are put together on a page of fixed size, and go out a
//! page at a time.
#![tactic(auto)]

mod outline;
mod verdict;

pub use outline::{put_test, write_outlines};
pub use pr_output::WriteFault;
pub use pr_trace::{
    TraceError, held_word, number_of, read_trace, traces_of_runs_are_read, write_trace,
    write_trace_body, written_traces_are_read,
};
pub use verdict::{Verdict, write_verdict};
