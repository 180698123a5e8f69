//! What is said of a scenario: what its verdict rests on, and what a search adds to that.

ghost use Rattle.std.specs.Prelude.{◌≡◌};

use crate::circumstance::Circumstance;
use crate::costing::Cost;
use crate::lint::Lint;
use crate::preempting::Taking;
use crate::senders::SentItem;
use pr_roles::Scenario;
use pr_verify::{Refusal, Table};
use pr_witness::Finding;

/// What is said of a scenario that is accepted.
#[derive(Drop)]
pub struct AcceptedPlan {
    pub scenario: Scenario,
    /// Of each nexus that has a script, what that costs.
    pub costs: Vec<Option<Cost>>,
    pub lints: Vec<Lint>,
    /// Of which hosts to ask whether they fence.
    pub takings: Vec<Taking>,
}

/// What is said of a scenario that is refused.
#[derive(Drop)]
pub struct RefusedPlan {
    pub scenario: Scenario,
    pub refusal: Refusal,
    /// What is known at each send of each script.
    pub tables: Vec<Table>,
}

/// What a search comes to of a scenario that is refused.
#[derive(Drop)]
pub struct Inquiry {
    pub finding: Finding,
    /// Of each item of the run that was found, by what it was sent.
    pub senders: Vec<SentItem>,
    /// Of one that is safe all the same: for what it is refused, which never is so at once when the refused line is sent; nothing
    /// where that is never sent.
    pub forgotten: Option<Vec<Circumstance>>,
    /// Of one that is safe without the premises about others on the paths and about the disk's order: in how many worlds a search
    /// saw that. `fence check --search` accepts it.
    pub safe_in: Option<usize>,
}

/// What is said of a scenario.
#[derive(Drop)]
pub enum Explanation {
    Accepted(AcceptedPlan),
    Refused(RefusedPlan),
}

impl Explanation {
    ghost use Rattle.pr_explain.specs.Explanations.{is_refusal};

    /// Whether the scenario is refused.
    pub fn is_refusal(&self) -> bool
        ensures { result ≡ is_refusal self.now }
    {
        match self {
            Explanation::Accepted(_) => false,
            Explanation::Refused(_) => true,
        }
    }
}
