//! Runs: the turns of a verified scenario, taken by a thread for each nexus.

ghost use Rattle.std.specs.Prelude.{◌≡◌, ◌<◌, IfOk, IfErr, length};
ghost use Rattle.std.specs.List.{range_with_len};
ghost use Rattle.pr_roles.specs.Scenarios.{scenario_of};
ghost use Rattle.pr_shared.specs.Guests.{guests_of};
ghost use Rattle.pr_shared.specs.Outcomes.{IsCause, IsHalted, IsOutcome};
ghost use Rattle.pr_shared.specs.RunAnswers.{IfDiffers, IfSpawn, IsNexusOf};
ghost use Rattle.pr_shared.specs.Seats.{HaveKept};
ghost use Rattle.pr_shared.specs.inside.Seating.{hosts_of};
ghost use Rattle.pr_shared.specs.inside.Starting.{StartedBut};

use crate::gate::Gate;
use crate::mixing::Mixing;
use crate::outcome::Outcome;
use crate::round::Round;
use crate::run_error::RunError;
use crate::seat::Seat;
use crate::shared::SharedWorld;
use crate::threads::in_threads;
use pr_roles::Verified;
use std::alloc::Global;
use std::marker::Brand;
use std::sync::Wait;
use std::sync::ledger::Blank;
use std::thread::Threads;

/// Runs a verified scenario from its first start, with a thread for each nexus, which takes its turns until its
/// script is stopped or its plan is done. The threads share nothing but the world and the gate, which is called round each
/// turn. All threads are joined.
///
/// It waits for the threads, and so may never return; no promise rests on a thread that runs.
pub fn run<G: Gate, R: Threads + Wait + Sync>(
    rt: &R,
    alloc: Global,
    verified: Verified,
    gate: &G,
) -> Result<Outcome, RunError>
    ensures outcome { IfOk result (IsOutcome (scenario_of verified)) }
    ensures known { IfErr result (IfSpawn (IsNexusOf (scenario_of verified))) }
    ensures halted { IfErr result (IfSpawn (IsHalted (scenario_of verified))) }
    ensures differs { IfErr result (IfDiffers (IsCause (scenario_of verified))) }
{
    let nexuses = verified.scenario().parts().nexuses.len();
    run_as::<Brand, G, R>(rt, alloc, verified, Blank::new(nexuses as u64), gate)
}

// The run over a round, which the caller names.
fn run_as<C: Round + Send + Sync, G: Gate, R: Threads + Wait + Sync>(
    rt: &R,
    alloc: Global,
    verified: Verified,
    blank: Blank,
    gate: &G,
) -> Result<Outcome, RunError>
    requires name { blank.name ≡ C.name }
    requires parts { blank.parts ≡ C.parts }
    requires guests { guests_of (scenario_of verified) ≡ C.guests }
    requires one_each { blank.parts ≡ length C.guests }
    ensures outcome { IfOk result (IsOutcome (scenario_of verified)) }
    ensures known { IfErr result (IfSpawn (IsNexusOf (scenario_of verified))) }
    ensures halted { IfErr result (IfSpawn (IsHalted (scenario_of verified))) }
    ensures differs { IfErr result (IfDiffers (IsCause (scenario_of verified))) }
{
    let nexuses = verified.scenario().parts().nexuses.len();
    let started = Vec::with_capacity(alloc, nexuses)?;
    let back = Vec::with_capacity(alloc, nexuses)?;
    let Ok((shared, seats)) = SharedWorld::<C>::begin(alloc, verified, blank) else {
        return Err(RunError::Memory);
    };
    let mixing = Mixing::new(gate, nexuses);
    let (seats, failed) = in_threads(rt, &shared, &mixing, seats, started, back);
    settled(shared, seats, failed)
}

// What a run came to, from the seats that came back, and the first nexus whose thread could not be started.
fn settled<C: Round>(
    shared: SharedWorld<C>,
    seats: Vec<Seat<C>>,
    failed: Option<u8>,
) -> Result<Outcome, RunError>
    requires parts { C.parts ≡ length C.guests }
    requires started { StartedBut failed (hosts_of seats.items)
        (range_with_len 0 (length C.guests)) }
    ensures outcome { IfOk result (IsOutcome (scenario_of shared.kept.scenario)) }
    ensures own { IfOk result (λ outcome. HaveKept (length C.guests) seats.items
        outcome.history.items) }
    ensures known { IfErr result (IfSpawn (λ host history. host < length C.guests)) }
    ensures halted { IfErr result (IfSpawn (IsHalted (scenario_of shared.kept.scenario))) }
    ensures sent { IfErr result (IfSpawn (λ host history. HaveKept host seats.items history)) }
    ensures differs { IfErr result (IfDiffers (IsCause (scenario_of shared.kept.scenario))) }
{
    let Some(host) = failed else {
        return match shared.settle(seats) {
            Ok(outcome) => Ok(outcome),
            Err(differs) => Err(RunError::Differs(differs)),
        };
    };
    match shared.halt(seats) {
        Ok(history) => Err(RunError::Spawn { host, history }),
        Err(differs) => Err(RunError::Differs(differs)),
    }
}
