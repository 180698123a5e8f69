//! The verdict on a scenario whose hosts are checked side by side.

ghost use Rattle.std.specs.Prelude.{◌≡◌, ◌<◌, ◌≤◌, length, IfOk, IfErr, OnOk, vec_len, vec_capacity};
ghost use Rattle.pr_roles.specs.Scenarios.{on_shared_paths, scenario_of};
ghost use Rattle.pr_roles.specs.Safety.{IsSafe};
ghost use Rattle.pr_verify.specs.Outlines.{AllSendsFit, HaveOutlines};
ghost use Rattle.pr_verify.specs.Verdicts.{IsFinal, IsVerdict};
ghost use Rattle.pr_verify.specs.inside.Checks.{ComeTo, EachFrom, IsAnswerFor, IsAnswerForAll, IsBegunFor, IsCheckFor};

use crate::check_gate::CheckGate;
use crate::verifying::{Refused, check_host, verdict_on};
use pr_roles::{Refusal, Scenario, Verified, has_script};
use std::alloc::{AllocError, Global};
use std::snapshot::Snapshot;
use std::sync::Wait;
use std::thread;
use std::thread::{Promise, PromisedHandle, Scope, Threads};

/// Verifies the scenario as `verify` does, with a thread for each scripted host. All threads are joined, in the order
/// of the scenario. A host whose thread cannot be started is checked by the caller's thread, once all others are
/// started. The gate is called round the check of each scripted host, in the thread that makes it.
///
/// It waits for the threads, and so may never return; no promise rests on a thread that runs. A refusal is that of the
/// first host, in order, that has one, be it that memory was refused there. Where there is no memory for the lists of
/// threads and answers, none is started, and the refusal is Memory.
pub fn verify_each<G: CheckGate, R: Threads + Wait + Sync>(
    rt: &R,
    alloc: Global,
    scenario: Scenario,
    gate: &G,
) -> Result<Verified, Refused>
    ensures same { IfOk result (λ verified. verified ≡ scenario) }
    ensures safe { IfOk result (λ verified. IsSafe (on_shared_paths (scenario_of verified))) }
    ensures outlines { IfOk result (λ verified. HaveOutlines (scenario_of verified)) }
    ensures back { IfErr result (λ refused. refused.scenario ≡ scenario) }
    ensures verdict { IfErr result (λ refused. IsVerdict (scenario_of scenario) refused.refusal) }
    ensures none { IfErr result (λ refused. IsFinal (scenario_of scenario) refused.refusal) }
{
    let checked = check_each(rt, alloc, &scenario, gate);
    verdict_on(scenario, checked)
}

/// The promise that a thread answers what the check of this host says.
#[derive(Drop)]
struct CheckOf {
    scenario: Snapshot<Scenario>,
    host: u8,
}

impl Promise<Result<(), Refusal>> for CheckOf {
    ghost use Rattle.pr_roles.specs.Scenarios.{scenario_of};
    ghost use Rattle.pr_verify.specs.inside.Checks.{IsAnswerFor};

    ghost kept_by = { λ promise answer. IsAnswerFor (scenario_of promise.scenario.value) promise.host answer };
}

/// A thread that is still to be joined.
type CheckHandle = PromisedHandle<Result<(), Refusal>, CheckOf>;

/// A check that was begun.
#[derive(Drop)]
enum Begun {
    InThread(CheckHandle),
    /// That of this host, for which no thread was started.
    ToMake(u8),
}

/// A check, once there is nothing left for the caller to make.
#[derive(Drop)]
enum Check {
    InThread(CheckHandle),
    Made(Result<(), Refusal>),
}

/// The lists of the checks of so many hosts, before the first is begun. Each has room for all.
#[derive(Drop)]
struct Lists {
    hosts: u8,
    begun: Vec<Begun>,
    checks: Vec<Check>,
    ghost none_begun: { vec_len begun ≡ 0 },
    ghost none_checked: { vec_len checks ≡ 0 },
    ghost room_to_begin: { hosts ≤ vec_capacity begun },
    ghost room_to_check: { hosts ≤ vec_capacity checks },
}

impl Lists {
    fn with_room(alloc: Global, hosts: u8) -> Result<Self, AllocError>
        ensures { IfOk result (λ lists. lists.hosts ≡ hosts) }
    {
        Ok(Lists {
            hosts,
            begun: Vec::with_capacity(alloc, usize::from(hosts))?,
            checks: Vec::with_capacity(alloc, usize::from(hosts))?,
        })
    }
}

// Whether each scripted host has an outline that is sound and fits; else the first reason against one. The lists take
// their memory before any thread is started.
fn check_each<G: CheckGate, R: Threads + Wait + Sync>(
    rt: &R,
    alloc: Global,
    scenario: &Scenario,
    gate: &G,
) -> Result<(), Refusal>
    ensures outlines { OnOk result (HaveOutlines (scenario_of scenario.now)) }
    ensures fields { OnOk result (AllSendsFit (scenario_of scenario.now)) }
    ensures verdict { IfErr result (IsVerdict (scenario_of scenario.now)) }
{
    let hosts = scenario.parts().nexuses.len() as u8;
    let lists = Lists::with_room(alloc, hosts)?;
    in_threads(rt, alloc, scenario, gate, lists)
}

// The same, with these lists.
fn in_threads<'a, G: CheckGate, R: Threads + Wait + Sync>(
    rt: &'a R,
    alloc: Global,
    scenario: &'a Scenario,
    gate: &'a G,
    lists: Lists,
) -> Result<(), Refusal>
    requires { lists.hosts ≡ length (scenario_of scenario.now).nexuses }
    ensures { IsAnswerForAll (scenario_of scenario.now) result }
{
    thread::scope(
        thread::scope_env(),
        rt,
        |scope| -> Result<(), Refusal>
            requires { lists.hosts ≡ length (scenario_of scenario.now).nexuses }
            ensures { IsAnswerForAll (scenario_of scenario.entry.now) result }
        {
            let (begun, checks) = begin_all(scope, alloc, scenario, gate, lists);
            let checks = make_rest(alloc, scenario, gate, begun, checks);
            join_all(rt, checks)
        },
    )
}

// Begins the check of each host, in order. The other list is handed back as it is.
fn begin_all<'s, 'a: 's, G: CheckGate>(
    scope: &'s Scope<'s, &'a ()>,
    alloc: Global,
    scenario: &'a Scenario,
    gate: &'a G,
    lists: Lists,
) -> (Vec<Begun>, Vec<Check>)
    requires { lists.hosts ≡ length (scenario_of scenario.now).nexuses }
    ensures all { vec_len result.0 ≡ length (scenario_of scenario.now).nexuses }
    ensures each { EachFrom (IsBegunFor (scenario_of scenario.now)) 0 result.0.items }
    ensures none { vec_len result.1 ≡ 0 }
    ensures room { vec_len result.0 ≤ vec_capacity result.1 }
{
    let mut begun = lists.begun;
    for host in 0..lists.hosts {
        begun.push_reserved(begin(scope, alloc, scenario, gate, host));
    }
    (begun, lists.checks)
}

// Begins the check of a scripted host in a thread of its own, if that can be started.
fn begin<'s, 'a: 's, G: CheckGate>(
    scope: &'s Scope<'s, &'a ()>,
    alloc: Global,
    scenario: &'a Scenario,
    gate: &'a G,
    host: u8,
) -> Begun
    requires { host < length (scenario_of scenario.now).nexuses }
    ensures { IsBegunFor (scenario_of scenario.now) host result }
{
    if !has_script(scenario, host) {
        return Begun::ToMake(host);
    }
    let promise = CheckOf {
        scenario: Snapshot::of(scenario),
        host,
    };
    let spawned = scope.spawn_with(
        promise,
        move || -> Result<(), Refusal>
            requires { host < length (scenario_of scenario.now).nexuses }
            ensures { IsAnswerFor (scenario_of scenario.entry.now) host result }
        { check_gated(alloc, scenario, gate, host) },
    );
    match spawned {
        Ok(handle) => Begun::InThread(handle),
        Err(_) => Begun::ToMake(host),
    }
}

// Makes the checks that no thread makes.
fn make_rest<G: CheckGate>(
    alloc: Global,
    scenario: &Scenario,
    gate: &G,
    begun: Vec<Begun>,
    mut checks: Vec<Check>,
) -> Vec<Check>
    requires none { vec_len checks ≡ 0 }
    requires room { vec_len begun ≤ vec_capacity checks }
    requires begun { EachFrom (IsBegunFor (scenario_of scenario.now)) 0 begun.items }
    ensures all { vec_len result ≡ vec_len begun }
    ensures each { EachFrom (IsCheckFor (scenario_of scenario.now)) 0 result.items }
{
    for check in begun {
        checks.push_reserved(match check {
            Begun::InThread(handle) => Check::InThread(handle),
            Begun::ToMake(host) => Check::Made(check_gated(alloc, scenario, gate, host)),
        });
    }
    checks
}

// Joins the threads, in order. The first check that answers a refusal decides.
fn join_all<R: Threads>(rt: &R, checks: Vec<Check>) -> Result<(), Refusal>
    ensures { ComeTo checks.items result }
{
    let mut first = Ok(());
    for check in checks {
        let answer = match check {
            Check::InThread(handle) => handle.join(rt),
            Check::Made(answer) => answer,
        };
        first = first.and(answer);
    }
    first
}

// Checks the host between the two calls of the gate. Of a guest there is nothing to check, and the gate is not called.
fn check_gated<G: CheckGate>(
    alloc: Global,
    scenario: &Scenario,
    gate: &G,
    host: u8,
) -> Result<(), Refusal>
    requires { host < length (scenario_of scenario.now).nexuses }
    ensures { IsAnswerFor (scenario_of scenario.now) host result }
{
    if !has_script(scenario, host) {
        return check_host(alloc, scenario, host);
    }
    gate.before(host);
    let answer = check_host(alloc, scenario, host);
    gate.after(host);
    answer
}
