//! What `fence explain` says of a scenario's verdict: a plan of it, which is proved, and its words, which are tested.
//!
//! [`explanation`] makes the plan: the verdict, what a host can know where it is refused, and what each script costs.
//! [`write_explanation`] says it in words, with lines of the scenario's text. What a search adds comes behind that: a run that
//! shows why it is refused ([`inquiry`], [`write_inquiry`]), or which ends come together ([`ends_of`], [`write_prospects`]). Before
//! it comes that what is refused can be left so, where the search says that ([`write_relief`]).
//! [`write_moment`] says why that is so at the end of a run for which the moment was asked.
#![tactic(auto)]

mod accepting;
mod advice;
mod asking;
mod beginnings;
mod blocks;
mod cause;
mod circumstance;
mod combination;
mod costing;
mod covering;
mod forgetting;
mod keys;
mod lint;
mod lint_words;
mod linting;
mod list;
mod losses;
mod moment;
mod moment_words;
mod out_of_role;
mod plan;
mod planning;
mod possible;
mod preempting;
mod refused_send;
mod refusing;
mod running;
mod senders;
mod sheet;
mod showing;
mod source;
mod stepping;
mod together;
mod unseen;
mod ways;
mod writing;

pub use circumstance::Circumstance;
pub use costing::{Cost, costs};
pub use covering::covers;
pub use lint::Lint;
pub use moment_words::write_moment;
pub use plan::{AcceptedPlan, Explanation, Inquiry, RefusedPlan};
pub use planning::{ends_of, explanation, inquiry};
pub use preempting::Taking;
pub use senders::{SentBy, SentItem};
pub use source::lines_of;
pub use writing::{write_explanation, write_inquiry, write_prospects, write_relief};
