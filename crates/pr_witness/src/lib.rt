//! Runs that show why a scenario is refused, and which ends of its scripts come together: a search, which promises nothing, and a
//! test of what it finds, which promises that it is a run of the scenario, what it breaks, and how it ends.
#![tactic(auto)]

mod allowed;
mod breach;
mod certifying;
mod ending;
mod hit;
mod laws;
mod moment;
mod retracing;
mod searching;

pub use allowed::is_allowed_start;
pub use breach::{Breach, CertifiedRun};
pub use certifying::{certify, certify_run};
pub use ending::{Ends, Sought, ends_together, run_that_ends};
pub use hit::{class_of, last_class};
pub use laws::{breaches_are_legal, breaches_refute_safety};
pub use moment::run_to_moment;
pub use pr_explore::{Bound, Bounds, Broken, Together};
pub use retracing::machines_of;
pub use searching::{Finding, USUAL_BOUNDS, safe_without_premises, search, search_by, search_on};
