//! The plan of what is said of a scenario's verdict, and of what a search adds to it. The verdict is there in milliseconds, and a
//! search may take seconds, so who writes both can write the one before the other is begun.

ghost use Rattle.std.specs.Prelude.{◌≡◌, ◌↔◌, false, true, map, IfOk, IfSome};
ghost use Rattle.pr_roles.specs.Safety.{IsSafe};
ghost use Rattle.pr_roles.specs.SafeRuns.{without_premises};
ghost use Rattle.pr_roles.specs.Scenarios.{on_shared_paths, scenario_of};
ghost use Rattle.pr_verify.specs.Outlines.{HaveOutlines};
ghost use Rattle.pr_views.specs.Tables.{table_of};
ghost use Rattle.pr_verify.specs.Tables.{AreTables};
ghost use Rattle.pr_verify.specs.Verdicts.{IsFirstReason};
ghost use Rattle.pr_witness.specs.Breaches.{IsFound};
ghost use Rattle.pr_witness.specs.Ends.{AreEnds};
ghost use Rattle.pr_explain.specs.Explanations.{Holds, is_refusal, scenario_in};

use crate::circumstance::Circumstance;
use crate::costing::costs;
use crate::forgetting::forgotten;
use crate::linting::lints;
use crate::plan::{AcceptedPlan, Explanation, Inquiry, RefusedPlan};
use crate::preempting::takings;
use crate::senders::senders;
use pr_explore::Explorer;
use pr_roles::{Scenario, Task};
use pr_verify::{Refusal, Table, judge};
use pr_witness::{
    Bounds, Ends, Finding, USUAL_BOUNDS, ends_together, safe_without_premises, search_by, search_on,
};
use std::alloc::{AllocError, Global};

/// How far a search goes for ends that are told beside a verdict: who wants more of them asks `fence ends`.
const ENDS_BOUNDS: Bounds = Bounds {
    worlds: 10_000,
    depth: USUAL_BOUNDS.depth,
    memory: USUAL_BOUNDS.memory,
};

/// What is to be said of the scenario: that it is accepted, and what its scripts cost; or that it is refused, with the first
/// reason, and what its hosts can know at each send.
pub fn explanation(alloc: Global, scenario: Scenario) -> Result<Explanation, AllocError>
    ensures scenario { IfOk result (λ e. scenario_in e ≡ scenario) }
    ensures accepted { IfOk result (λ e. (is_refusal e ≡ false)
        ↔ HaveOutlines (scenario_of scenario)) }
    ensures holds { IfOk result (Holds (scenario_of scenario)) }
{
    let judged = judge(alloc, &scenario)?;
    match judged.refusal {
        None => accepted(alloc, scenario, &judged.tables),
        Some(refusal) => Ok(refused(scenario, refusal, judged.tables)),
    }
}

fn accepted(alloc: Global, scenario: Scenario, tables: &[Table]) -> Result<Explanation, AllocError>
    requires { IsSafe (on_shared_paths (scenario_of scenario)) }
    ensures scenario { IfOk result (λ e. scenario_in e ≡ scenario) }
    ensures accepted { IfOk result (λ e. is_refusal e ≡ false) }
    ensures holds { IfOk result (Holds (scenario_of scenario)) }
{
    let costs = costs(alloc, &scenario.parts().nexuses)?;
    let lints = lints(alloc, &scenario, tables)?;
    let takings = takings(alloc, &scenario, tables)?;
    Ok(Explanation::Accepted(AcceptedPlan {
        scenario,
        costs,
        lints,
        takings,
    }))
}

/// Which ends of a scenario come together, where it has two scripts or more.
pub fn ends_of(alloc: Global, scenario: &Scenario) -> Result<Option<Ends>, AllocError>
    ensures { IfOk result (λ found. IfSome found (AreEnds (scenario_of scenario.now))) }
{
    let scripts = scenario
        .parts()
        .nexuses
        .iter()
        .filter(|nexus| matches!(nexus.task, Task::Scripted { .. }))
        .count();
    if scripts < 2 {
        return Ok(None);
    }
    Ok(Some(ends_together(alloc, scenario, ENDS_BOUNDS)?))
}

fn refused(scenario: Scenario, refusal: Refusal, tables: Vec<Table>) -> Explanation
    requires reason { IsFirstReason (scenario_of scenario) refusal }
    requires tables { AreTables (scenario_of scenario) (map table_of tables.items) }
    ensures scenario { scenario_in result ≡ scenario }
    ensures refused { is_refusal result ≡ true }
    ensures holds { Holds (scenario_of scenario) result }
{
    Explanation::Refused(RefusedPlan {
        scenario,
        refusal,
        tables,
    })
}

/// Searches a scenario that is refused for a run that shows why, as `fence witness` does, and where it is safe for whether
/// `fence check --search` accepts it.
pub fn inquiry(alloc: Global, refused: &RefusedPlan) -> Result<Inquiry, AllocError>
    ensures found { IfOk result (λ found. IsFound (scenario_of refused.now.scenario)
        refused.now.refusal found.finding) }
    ensures safe { IfOk result (λ found. IfSome found.safe_in
        (λ worlds. IsSafe (without_premises (scenario_of refused.now.scenario)))) }
{
    let scenario = &refused.scenario;
    let (finding, forgotten) = first_search(alloc, refused)?;
    let finding = search_on(alloc, scenario, &refused.refusal, USUAL_BOUNDS, finding)?;
    let senders = senders(alloc, scenario, &finding)?;
    let safe_in = safe_in(alloc, scenario, &finding)?;
    Ok(Inquiry {
        finding,
        senders,
        forgotten,
        safe_in,
    })
}

// Of one that is safe: in how many worlds a search sees that it is so without premises too.
fn safe_in(
    alloc: Global,
    scenario: &Scenario,
    finding: &Finding,
) -> Result<Option<usize>, AllocError>
    ensures { IfOk result (λ found. IfSome found
        (λ worlds. IsSafe (without_premises (scenario_of scenario.now)))) }
{
    match finding {
        Finding::Safe { .. } => safe_without_premises(alloc, scenario, USUAL_BOUNDS),
        Finding::Found { .. } | Finding::Nothing { .. } => Ok(None),
    }
}

// What a search through all worlds comes to, and for what the scenario is refused where that says that it is safe.
fn first_search(
    alloc: Global,
    refused: &RefusedPlan,
) -> Result<(Finding, Option<Vec<Circumstance>>), AllocError>
    ensures { IfOk result (λ found. IsFound (scenario_of refused.now.scenario) refused.now.refusal
        found.0) }
{
    let mut explorer = Explorer::new(alloc, &refused.scenario, USUAL_BOUNDS)?;
    first_by(alloc, refused, &mut explorer)
}

// The same by an explorer, which its caller drops.
fn first_by(
    alloc: Global,
    refused: &RefusedPlan,
    explorer: &mut Explorer<'_>,
) -> Result<(Finding, Option<Vec<Circumstance>>), AllocError>
    ensures { IfOk result (λ found. IsFound (scenario_of refused.now.scenario) refused.now.refusal
        found.0) }
{
    let finding = search_by(alloc, &refused.scenario, &refused.refusal, explorer)?;
    let forgotten = forgotten(alloc, refused, &finding, explorer)?;
    Ok((finding, forgotten))
}
