//! The commands of the program as calls, from bytes to bytes: each reads its texts, plans its answer, and then writes it, or tells
//! its one fault in a line. The program over them opens what they read, and `fence explain` stands there.
#![tactic(auto)]

mod asked;
mod audits;
mod checks;
mod ending;
mod ends;
mod ends_text;
mod facts;
mod fault;
mod judging;
mod laws;
mod never;
mod never_text;
mod outlines;
mod questions;
mod replays;
mod runs;
mod saying;
mod steps;
mod tables;
mod witness_text;
mod witnesses;

pub use audits::do_audit;
pub use checks::do_check;
pub use ending::ended;
pub use ends::do_ends;
pub use fault::{ExitStatus, Fault, args_fault, file_fault, tell};
pub use judging::Method;
pub use laws::{replays_are_audited_legal, replays_are_traced, runs_are_audited_legal};
pub use never::do_never;
pub use outlines::do_outline;
pub use questions::{MOST_FACTS, SoughtMoment, question_of};
pub use replays::{MOST_STEPS, do_replay};
pub use runs::do_run;
pub use steps::steps_of;
pub use tables::do_table;
pub use witness_text::write_witness;
pub use witnesses::do_witness;
