//! The verdict on a scenario.

ghost use Rattle.std.specs.Prelude.{◌≡◌, ◌<◌, length, IfOk, IfErr, OnOk};
ghost use Rattle.pr_roles.specs.Scenarios.{on_shared_paths, scenario_of};
ghost use Rattle.pr_roles.specs.Safety.{IsSafe};
ghost use Rattle.pr_verify.specs.Outlines.{AllSendsFit, HaveOutlines, HostSendsFit, IsCarried};
ghost use Rattle.pr_verify.specs.Verdicts.{IsFinal, IsVerdict};
ghost use Rattle.pr_verify.specs.inside.Checks.{IsReasonOf};

use crate::checking::{check_cost, check_fit};
use crate::inferring::infer;
use crate::laws::outlines_make_safe;
use pr_roles::{Refusal, Scenario, Task, Verified, nexus_in};
use std::alloc::Global;

/// A scenario that was refused, and why.
#[derive(Drop)]
pub struct Refused {
    pub scenario: Scenario,
    pub refusal: Refusal,
}

/// Verifies the scenario. The headline: when it is accepted, then from every start that it declares and under every
/// interleaving of the scripted hosts' commands with any permitted commands of the guests, no script meets a reply for
/// which it has no arm, none sends more commands than its budget, and each of its commands that ends GOOD is one that its
/// role permits at that moment (`IsSafe`): each of them has an outline that is sound and fits.
///
/// When it is refused, it is handed back with the first reason that its hosts' least sound outlines show, or since memory
/// was refused; but for memory, no sound outlines of its hosts fit.
pub fn verify(alloc: Global, scenario: Scenario) -> Result<Verified, Refused>
    ensures same { IfOk result (λ verified. verified ≡ scenario) }
    ensures safe { IfOk result (λ verified. IsSafe (on_shared_paths (scenario_of verified))) }
    ensures outlines { IfOk result (λ verified. HaveOutlines (scenario_of verified)) }
    ensures back { IfErr result (λ refused. refused.scenario ≡ scenario) }
    ensures verdict { IfErr result (λ refused. IsVerdict (scenario_of scenario) refused.refusal) }
    ensures none { IfErr result (λ refused. IsFinal (scenario_of scenario) refused.refusal) }
{
    let checked = check_hosts(alloc, &scenario);
    verdict_on(scenario, checked)
}

/// The verdict on a scenario whose hosts were checked.
pub(crate) fn verdict_on(
    scenario: Scenario,
    checked: Result<(), Refusal>,
) -> Result<Verified, Refused>
    requires outlines { OnOk checked (HaveOutlines (scenario_of scenario)) }
    requires fields { OnOk checked (AllSendsFit (scenario_of scenario)) }
    requires verdict { IfErr checked (IsVerdict (scenario_of scenario)) }
    ensures same { IfOk result (λ verified. verified ≡ scenario) }
    ensures safe { IfOk result (λ verified. IsSafe (on_shared_paths (scenario_of verified))) }
    ensures outlines { IfOk result (λ verified. HaveOutlines (scenario_of verified)) }
    ensures back { IfErr result (λ refused. refused.scenario ≡ scenario) }
    ensures verdict { IfErr result (λ refused. IsVerdict (scenario_of scenario) refused.refusal) }
    ensures none { IfErr result (λ refused. IsFinal (scenario_of scenario) refused.refusal) }
{
    match checked {
        Ok(()) => {
            outlines_make_safe();
            Ok(Verified::of(scenario))
        }
        Err(refusal) => Err(Refused { scenario, refusal }),
    }
}

// Whether each scripted host has an outline that is sound and fits; else the first reason against one.
fn check_hosts(alloc: Global, scenario: &Scenario) -> Result<(), Refusal>
    ensures outlines { OnOk result (HaveOutlines (scenario_of scenario.now)) }
    ensures fields { OnOk result (AllSendsFit (scenario_of scenario.now)) }
    ensures verdict { IfErr result (IsVerdict (scenario_of scenario.now)) }
{
    let hosts = scenario.parts().nexuses.len() as u8;
    for host in 0..hosts {
        check_host(alloc, scenario, host)?;
    }
    Ok(())
}

/// Whether the host has one, if it is scripted. A script that costs more than its budget is refused before anything is
/// inferred of it. What is inferred is sound as it comes, so only whether it fits is asked.
pub(crate) fn check_host(alloc: Global, scenario: &Scenario, host: u8) -> Result<(), Refusal>
    requires { host < length (scenario_of scenario.now).nexuses }
    ensures outline { OnOk result (IsCarried (scenario_of scenario.now) host) }
    ensures fields { OnOk result (HostSendsFit (scenario_of scenario.now) host) }
    ensures reason { IfErr result (IsReasonOf (scenario_of scenario.now) host) }
{
    match &nexus_in(scenario, host).task {
        Task::Scripted { script, budget } => {
            check_cost(script, *budget, host)?;
            let outline = infer(alloc, scenario, host)?;
            check_fit(alloc, scenario, script, &outline)
        }
        Task::Planned(_) => Ok(()),
    }
}
