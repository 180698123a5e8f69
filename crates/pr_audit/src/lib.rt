//! What may happen under a scenario: whether a history is one that may have happened, how its nexuses stand after it, and how many
//! commands of each it has.
#![tactic(auto)]

mod auditing;
mod auditor;
mod counting;
mod end;
mod refusing;
mod resetting;
mod sender;

pub use auditing::{AuditError, audit};
pub use auditor::Auditor;
pub use counting::{commands_by, counts_of};
pub use end::End;
pub use refusing::{how_now, may_come, refused};
pub use resetting::may_reset;
