//! Whether the scripts of a scenario keep its promises, whatever its nexuses do.
#![tactic(auto)]

mod answers;
mod check_gate;
mod checking;
mod each;
mod head;
mod inferring;
mod judging;
mod known;
mod lacking;
mod laws;
mod nexus;
mod others;
mod places;
mod reviewing;
mod sketch;
mod tabling;
mod verifying;

pub use check_gate::{CheckGate, NoCheckGate};
pub use checking::check_outline;
pub use each::verify_each;
pub use inferring::{infer, infer_of};
pub use judging::{Judged, judge};
pub use laws::{outlines_make_safe, reasons_are_final};
pub use pr_roles::{Refusal, Verified, runs_go_on, safe_sends_are_fine};
pub use pr_views::{Outline, OutlineBy, OutlineOf, Row, Table};
pub use verifying::{Refused, verify};
