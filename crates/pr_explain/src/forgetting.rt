//! What `fence check` takes into account at a send, though it never is so all at once.

use crate::circumstance::Circumstance;
use crate::combination::Combination;
use crate::plan::RefusedPlan;
use crate::refused_send::{RefusedSend, is_uncounted};
use crate::showing::first_refused;
use pr_explore::{Explorer, Goal};
use pr_roles::Scenario;
use pr_unit::Unit;
use pr_witness::Finding;
use std::alloc::{AllocError, Global};

/// For what a scenario is refused that is safe, of which the explorer has seen all worlds: facts of the view at the refused send
/// that are never so all at once when it is sent, as few as can be. There are none where it is never sent. It promises nothing of
/// what it finds.
pub(crate) fn forgotten(
    alloc: Global,
    plan: &RefusedPlan,
    finding: &Finding,
    explorer: &Explorer<'_>,
) -> Result<Option<Vec<Circumstance>>, AllocError> {
    let Finding::Safe { .. } = finding else {
        return Ok(None);
    };
    let Some(refused) = RefusedSend::of(&plan.scenario, plan.refusal, &plan.tables) else {
        return Ok(None);
    };
    // (whether the unit is busy hangs on nothing that may be so)
    if refused.unarmed.is_some_and(is_uncounted) {
        return Ok(None);
    }
    let send = Goal {
        host: refused.host,
        line: refused.line,
    };
    let Some(shown) = first_refused(alloc, &refused)? else {
        return Ok(None);
    };
    let seen = seen_together(alloc, &plan.scenario, explorer, send, &shown.facts)?;
    match Combination::least_beyond(&seen, shown.facts.len(), shown.chance) {
        Some(never) => Ok(Some(never.chosen(alloc, &shown.facts)?)),
        None => Ok(None),
    }
}

// Which of the facts are so all at once in a world in which this is about to be sent.
fn seen_together(
    alloc: Global,
    scenario: &Scenario,
    explorer: &Explorer<'_>,
    send: Goal,
    facts: &[Circumstance],
) -> Result<Vec<Combination>, AllocError> {
    let mut seen = Vec::new(alloc);
    for world in 0..explorer.worlds() {
        if let Some(unit) = explorer.unit_at_send(scenario, world, send) {
            let together = together(facts, &unit, send.host);
            if !together.is_within_one(&seen) {
                seen.push(together)?;
            }
        }
    }
    Ok(seen)
}

// Which of them are so of the unit when this host sends.
fn together(facts: &[Circumstance], unit: &Unit, host: u8) -> Combination {
    let mut together = Combination::NONE;
    for (place, fact) in facts.iter().enumerate() {
        if fact.is_so(unit, host) {
            together.add(place);
        }
    }
    together
}
