//! Whether an outline carries the script of its host.
//!
//! No command of the program calls `check_outline`: it is for outlines that were not inferred here. `verify` infers its own, of
//! which it is proved that they are sound.

ghost use Rattle.std.specs.Prelude.{◌≡◌, ◌<◌, ◌≤◌, min, map, OnOk, IfErr};
ghost use Rattle.pr_script.specs.declared.limits.TheConstants.{MOST_BUDGET};
ghost use Rattle.pr_script.specs.Costs.{cost_of_all};
ghost use Rattle.pr_script.specs.Trees.{script_of};
ghost use Rattle.pr_roles.specs.Scenarios.{scenario_of, task};
ghost use Rattle.pr_roles.specs.Starts.{CanStart};
ghost use Rattle.pr_verify.specs.Outlines.{HostSendsFit, SendsFit};
ghost use Rattle.pr_verify.specs.Refusals.{first_difference};
ghost use Rattle.pr_roles.specs.Tasks.{IsScripted};
ghost use Rattle.pr_verify.specs.Rooms.{IsFittingFor, IsMadeFor, IsRefusalFor, IsSoundFor};
ghost use Rattle.pr_verify.specs.inside.Reviewing.{CanCheck, FitsAnyBudget, IsOver, IsRefusedBy, IsSoundBy};

use crate::answers::Questions;
use crate::places::{Spot, spots};
use crate::reviewing::{first_misfit, first_unsound};
use pr_roles::{Refusal, Scenario, Task, nexus_in};
use pr_script::{Script, cost};
use pr_sets::ViewSet;
use pr_views::{Outline, OutlineOf, View};
use std::alloc::Global;

/// Whether the outline is sound and fits, so that the host's script keeps what safety asks of it; else the first reason
/// against it.
pub fn check_outline<S: ViewSet>(
    alloc: Global,
    scenario: &Scenario,
    outline: &OutlineOf<S>,
) -> Result<(), Refusal>
    requires scripted { IsScripted (task (scenario_of scenario.now) outline.now.host) }
    requires made { IsMadeFor (scenario_of scenario.now) outline.now }
    ensures sound { OnOk result (IsSoundFor (scenario_of scenario.now) outline.now) }
    ensures fields { OnOk result (HostSendsFit (scenario_of scenario.now) outline.now.host) }
    ensures fitting { OnOk result (IsFittingFor (scenario_of scenario.now) outline.now) }
    ensures refusal { IfErr result (IsRefusalFor (scenario_of scenario.now) outline.now) }
{
    let outline = outline.in_sets(alloc)?;
    match &nexus_in(scenario, outline.host).task {
        Task::Scripted { script, budget } => {
            check_cost(script, *budget, outline.host)?;
            check_sound(alloc, scenario, script, &outline)?;
            check_fit(alloc, scenario, script, &outline)
        }
        Task::Planned(_) => unreachable!(),
    }
}

/// Whether the script is within the budget.
pub(crate) fn check_cost(script: &Script, budget: u32, host: u8) -> Result<(), Refusal>
    requires { budget ≤ MOST_BUDGET }
    ensures within { OnOk result (cost_of_all (script_of script.now) ≤ budget) }
    ensures over { IfErr result (IsOver script.now budget host) }
{
    let cost = cost(script);
    if cost > u64::from(budget) {
        return Err(Refusal::OverBudget { host, cost });
    }
    Ok(())
}

// Whether the outline has a view for each send, and each view shows what it has to.
fn check_sound(
    alloc: Global,
    scenario: &Scenario,
    script: &Script,
    outline: &Outline,
) -> Result<(), Refusal>
    requires starts { CanStart (scenario_of scenario.now) }
    requires able { CanCheck (scenario_of scenario.now) (script_of script.now) outline.now }
    ensures sound { OnOk result (IsSoundBy scenario.now script.now outline.now) }
    ensures refusal { IfErr result (IsRefusedBy scenario.now script.now outline.now) }
{
    let host = outline.host;
    let spots = spots(alloc, script)?;
    if let Some(line) = first_difference(&outline.views, &spots) {
        return Err(Refusal::NotSound { host, line });
    }
    let questions = Questions {
        scenario,
        outline,
        spots: &spots,
    };
    match first_unsound(alloc, script, &questions)? {
        None => Ok(()),
        Some(line) => Err(Refusal::NotSound { host, line }),
    }
}

/// Whether the sound outline fits, by the script of its host, which is within its budget.
pub(crate) fn check_fit(
    alloc: Global,
    scenario: &Scenario,
    script: &Script,
    outline: &Outline,
) -> Result<(), Refusal>
    requires able { CanCheck (scenario_of scenario.now) (script_of script.now) outline.now }
    requires sound { IsSoundBy scenario.now script.now outline.now }
    ensures fields { OnOk result (SendsFit (script_of script.now)) }
    ensures fitting { OnOk result (FitsAnyBudget scenario.now script.now outline.now) }
    ensures refusal { IfErr result (IsRefusedBy scenario.now script.now outline.now) }
{
    let spots = spots(alloc, script)?;
    let questions = Questions {
        scenario,
        outline,
        spots: &spots,
    };
    match first_misfit(alloc, &questions)? {
        None => Ok(()),
        Some(refusal) => Err(refusal),
    }
}

// The smaller of two lines, where first a view's line is not that of its send; where one of them ends, the other's.
fn first_difference(views: &[(u32, View)], spots: &[Spot]) -> Option<u32>
    ensures { result ≡ first_difference (map (λ e. e.0) views.now) (map (λ p. p.line) spots.now) }
{
    for (i, entry) in views.iter().enumerate() {
        if i >= spots.len() {
            return Some(entry.0);
        }
        if entry.0 != spots[i].line {
            return Some(entry.0.min(spots[i].line));
        }
    }
    if views.len() < spots.len() {
        return Some(spots[views.len()].line);
    }
    None
}
