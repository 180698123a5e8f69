//! Whether a history is a breach.

ghost use Rattle.std.specs.Prelude.{◌≡◌, ◌<◌, ◌^◌, [], true, Some, length, map, IfOk, IfSome};
ghost use Rattle.pr_unit.specs.UnitStates.{UnitState};
ghost use Rattle.pr_roles.specs.Breaches.{Breaks};
ghost use Rattle.pr_roles.specs.Scenarios.{scenario_of, task_of};
ghost use Rattle.pr_roles.specs.Schedules.{plan_of};
ghost use Rattle.pr_roles.specs.Worlds.{Trapped, commands_by, control};
ghost use Rattle.pr_audit.specs.Auditors.{ActFor, world_at};
ghost use Rattle.pr_audit.specs.Ends.{ending_of, endings};
ghost use Rattle.pr_witness.specs.Breaches.{IsBreachOf, broken_of};
ghost use Rattle.pr_witness.specs.CertifiedRuns.{IsRunOf};
ghost use Rattle.pr_witness.specs.inside.Following.{IsBroken, IsRunFrom, IsFollowed, IsForbidden, IsOverBudget};

use crate::allowed::is_allowed_start;
use crate::breach::{Breach, CertifiedRun};
use pr_audit::{Auditor, End, commands_by, counts_of};
use pr_cdb::Status;
use pr_explore::Broken;
use pr_roles::{Item, Scenario, Task, nexus_in, permits};
use pr_unit::Unit;
use std::alloc::{AllocError, Global};

/// The most items of a history that is certified: as many as a trace may have.
const MOST_ITEMS: usize = 66_536;

/// The breach that this history from this start is, if it breaks just this. Where it answers none, nothing is said.
pub fn certify(
    alloc: Global,
    scenario: &Scenario,
    start: Unit,
    history: Vec<Item>,
    broken: Broken,
) -> Result<Option<Breach>, AllocError>
    ensures { IfOk result (λ found. IfSome found (IsBreachOf (scenario_of scenario.now))) }
{
    if history.len() > MOST_ITEMS || !is_allowed_start(scenario, &start) {
        return Ok(None);
    }
    let mut auditor = Auditor::from_start(alloc, scenario, start.copy())?;
    if !breaks(&mut auditor, scenario, &history, broken) {
        return Ok(None);
    }
    let run = run_of(alloc, scenario, &auditor, start, history)?;
    Ok(Some(Breach { run, broken }))
}

/// The run that this history from this start is, if it is one. Where it answers none, nothing is said.
pub fn certify_run(
    alloc: Global,
    scenario: &Scenario,
    start: Unit,
    history: Vec<Item>,
) -> Result<Option<CertifiedRun>, AllocError>
    ensures { IfOk result (λ found. IfSome found (IsRunOf (scenario_of scenario.now))) }
{
    if history.len() > MOST_ITEMS || !is_allowed_start(scenario, &start) {
        return Ok(None);
    }
    let mut auditor = Auditor::from_start(alloc, scenario, start.copy())?;
    if !admits_all(&mut auditor, scenario, &history) {
        return Ok(None);
    }
    let run = run_of(alloc, scenario, &auditor, start, history)?;
    Ok(Some(run))
}

// The run that the auditor has followed, which has this history from this start.
fn run_of(
    alloc: Global,
    scenario: &Scenario,
    auditor: &Auditor,
    start: Unit,
    history: Vec<Item>,
) -> Result<CertifiedRun, AllocError>
    requires acts { ActFor (scenario_of scenario.now) (world_at auditor.now []) }
    requires short { length history.items < 2 ^ 32 }
    ensures { IfOk result (IsRunFrom (scenario_of scenario.now) auditor.now start
        history.items) }
{
    let ends = ends_of(alloc, auditor, scenario)?;
    let counts = counts_of(alloc, &history, scenario.parts().nexuses.len())?;
    let unit = auditor.unit().copy();
    Ok(CertifiedRun {
        start,
        history,
        unit,
        ends,
        counts,
    })
}

// Whether the history may go on from here, and has then broken this with its last item.
fn breaks(auditor: &mut Auditor, scenario: &Scenario, history: &[Item], broken: Broken) -> bool
    requires acts { ActFor (scenario_of scenario.now) (world_at auditor.old []) }
    requires short { length history.now < 2 ^ 32 }
    ensures acts { ActFor (scenario_of scenario.now) (world_at auditor.new []) }
    ensures broken { result ≡ true → (u : UnitState)
        → IsFollowed (scenario_of scenario.now) u [] (world_at auditor.old [])
        → IsBroken (scenario_of scenario.now) u history.now (world_at auditor.new history.now)
        (broken_of broken) }
{
    let Some((last, before)) = history.split_last() else {
        return false;
    };
    if !admits_all(auditor, scenario, before) {
        return false;
    }
    let is_forbidden = is_forbidden(auditor, scenario, last, broken);
    auditor.admits(scenario, before, last)
        && (is_forbidden || is_broken(auditor, scenario, history, broken))
}

// Whether all of them may come next, one after another.
fn admits_all(auditor: &mut Auditor, scenario: &Scenario, items: &[Item]) -> bool
    requires { ActFor (scenario_of scenario.now) (world_at auditor.old []) }
    ensures acts { ActFor (scenario_of scenario.now) (world_at auditor.new []) }
    ensures followed { result ≡ true → (u : UnitState)
        → IsFollowed (scenario_of scenario.now) u [] (world_at auditor.old [])
        → IsFollowed (scenario_of scenario.now) u items.now (world_at auditor.new items.now) }
{
    for (index, item) in items.iter().enumerate() {
        if !auditor.admits(scenario, &items[..index], item) {
            return false;
        }
    }
    true
}

// Whether the item is the host's command of this line, which ends GOOD, and the host's role does not permit that now.
fn is_forbidden(auditor: &Auditor, scenario: &Scenario, item: &Item, broken: Broken) -> bool
    requires { ActFor (scenario_of scenario.now) (world_at auditor.now []) }
    ensures { result ≡ true → IsForbidden (scenario_of scenario.now) (world_at auditor.now [])
        item.now (broken_of broken) }
{
    let (Item::Sent(entry), Broken::OutOfRole { host, line }) = (item, broken) else {
        return false;
    };
    if entry.host != host || usize::from(host) >= scenario.parts().nexuses.len() {
        return false;
    }
    let Some((at, command)) = auditor.next_command(host) else {
        return false;
    };
    let role = &nexus_in(scenario, host).role;
    at == line
        && entry.reply.status == Status::Good
        && !permits(role, auditor.unit(), host, &command)
}

// Whether the host has broken this by now, if it is not of its role: it met no arm, or has sent too many commands.
fn is_broken(auditor: &Auditor, scenario: &Scenario, history: &[Item], broken: Broken) -> bool
    requires acts { ActFor (scenario_of scenario.now) (world_at auditor.now []) }
    requires short { length history.now < 2 ^ 32 }
    ensures { result ≡ true → (u : UnitState)
        → Breaks (scenario_of scenario.now) u (world_at auditor.now history.now)
        (broken_of broken) }
{
    match broken {
        Broken::NoArm { host, line } => is_trapped(auditor, scenario, host, line),
        Broken::OutOfRole { .. } => false,
        Broken::OverBudget { host } => is_over_budget(scenario, history, host),
    }
}

fn is_trapped(auditor: &Auditor, scenario: &Scenario, host: u8, line: u32) -> bool
    requires { ActFor (scenario_of scenario.now) (world_at auditor.now []) }
    ensures { result ≡ true → control (world_at auditor.now []) host ≡ Trapped line }
{
    if usize::from(host) >= scenario.parts().nexuses.len() {
        return false;
    }
    match auditor.end(host, 0) {
        End::Trapped(at) => at == line,
        End::Stopped(_) | End::Ready(_) | End::Left(_) => false,
    }
}

fn is_over_budget(scenario: &Scenario, history: &[Item], host: u8) -> bool
    requires { length history.now < 2 ^ 32 }
    ensures { result ≡ true → IsOverBudget (scenario_of scenario.now) history.now host }
{
    if usize::from(host) >= scenario.parts().nexuses.len() {
        return false;
    }
    match &nexus_in(scenario, host).task {
        Task::Scripted { budget, .. } => commands_by(history, usize::from(host)) > *budget,
        Task::Planned(_) => false,
    }
}

// How each nexus stands. Of no guest's plan anything counts as sent.
fn ends_of(alloc: Global, auditor: &Auditor, scenario: &Scenario) -> Result<Vec<End>, AllocError>
    requires { ActFor (scenario_of scenario.now) (world_at auditor.now []) }
    ensures { IfOk result (λ ends. map (λ e. Some (ending_of e)) ends.items
        ≡ endings (world_at auditor.now []).controls
        (map (λ n. plan_of n.task) (scenario_of scenario.now).nexuses)) }
{
    let mut ends = Vec::new(alloc);
    for host in 0..auditor.unit().registry().hosts() {
        let task = &nexus_in(scenario, host).task;
        ends.push(auditor.end(host, planned(task)))?;
    }
    Ok(ends)
}

// How many commands its plan has.
fn planned(task: &Task) -> u32
    requires { length (plan_of (task_of task.now)) < 2 ^ 32 }
    ensures { result ≡ length (plan_of (task_of task.now)) }
{
    match task {
        Task::Scripted { .. } => 0,
        Task::Planned(commands) => commands.len() as u32,
    }
}
