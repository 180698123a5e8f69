//! `fence run`, over any reader, writer and error writer, in threads.

ghost use Rattle.std.specs.Prelude.{◌≡◌, ◌+◌, ◌^◌, ◌<◌, ◌≤◌, ℕ, length, map, IfErr, IfOk};
ghost use Rattle.std.specs.List.{range_with_len};
ghost use Rattle.pr_roles.specs.Scenarios.{scenario_of};
ghost use Rattle.pr_roles.specs.Safety.{IsSafe};
ghost use Rattle.pr_roles.specs.Worlds.{commands_by};
ghost use Rattle.pr_text.specs.declared.text.TheConstants.{MOST_BYTES};
ghost use Rattle.pr_text.specs.BytesRead.{LosesUpTo};
ghost use Rattle.pr_shared.specs.Outcomes.{IsOutcome};
ghost use Rattle.pr_shared.specs.RunAnswers.{IfSpawn};
ghost use Rattle.pr_trace.specs.TraceText.{name_of, names_of};
ghost use Rattle.pr_output.specs.Written.{Writes};
ghost use Rattle.pr_commands.specs.Endings.{IsCommandOver, EndsOver};
ghost use Rattle.pr_commands.specs.Runs.{EndsRun, outcome_text};
ghost use Rattle.pr_commands.specs.inside.Judgements.{IsJudged};
ghost use Rattle.pr_commands.specs.inside.Performances.{IsFaultFor, IsPerformed, IsRunFault, Stands, performed_text};

use crate::ending::ended;
use crate::fault::{ExitStatus, Fault};
use crate::judging::{Acceptance, Method, judged};
use arrayvec::ArrayVec;
use pr_audit::commands_by;
use pr_cdb::codes::MOST_NEXUSES;
use pr_output::WriteFault;
use pr_report::{Verdict, write_verdict};
use pr_roles::{Nexus, Scenario, Word};
use pr_shared::{Item, NoGate, Outcome, RunError, run};
use pr_text::read;
use pr_trace::write_trace;
use pr_verify::{NoCheckGate, Refused, Verified, verify_each};
use std::alloc::Global;
use std::io::{Read, Write};
use std::sync::Wait;
use std::thread::Threads;

/// `fence run`: reads a scenario, verifies it by this method, with a thread for each host that has a script, and runs it in
/// threads, one for each nexus, until every script is stopped and every plan is done. Then it writes the trace. Of a scenario that
/// is refused nothing is run, and the line of the verdict is written.
///
/// Of a text whose bytes the contract knows at most 65,537 are taken. A fault is told in one line on `errors`, whose own
/// faults change nothing. It waits for the threads, and so may never return.
pub fn do_run<T: Threads + Wait + Sync, R: Read, W: Write, E: Write>(
    rt: &T,
    alloc: Global,
    method: Method,
    reader: &mut R,
    writer: &mut W,
    errors: &mut E,
) -> ExitStatus
    ensures command { IsCommandOver R.Read reader W.Write writer E.Write errors EndsRun result }
    ensures limited { LosesUpTo (MOST_BYTES + 1) (R.remaining reader.old) (R.remaining reader.new) }
{
    let end = run_text(rt, alloc, method, reader, writer);
    ended(errors, end)
}

// Runs, and then writes: whether the scenario is refused.
fn run_text<T: Threads + Wait + Sync, R: Read, W: Write>(
    rt: &T,
    alloc: Global,
    method: Method,
    reader: &mut R,
    writer: &mut W,
) -> Result<bool, Fault>
    ensures ends { EndsOver R.Read reader W.Write writer EndsRun result }
    ensures limited { LosesUpTo (MOST_BYTES + 1) (R.remaining reader.old) (R.remaining reader.new) }
{
    let performed = perform(rt, alloc, method, reader)?;
    put_performed(writer, &performed)?;
    Ok(performed.is_err())
}

/// A scenario and what its run came to.
#[derive(Drop)]
struct Ran {
    scenario: Scenario,
    outcome: Outcome,
}

// Reads the text, and runs its scenario where that is accepted.
#[tactic(auto, using(crate::proofs::lemmas::Runs::Outcomes::fault_performed, crate::proofs::lemmas::Runs::Outcomes::refusal_performed))]
fn perform<T: Threads + Wait + Sync, R: Read>(
    rt: &T,
    alloc: Global,
    method: Method,
    reader: &mut R,
) -> Result<Result<Ran, Refused>, Fault>
    ensures performed { IsPerformed (R.remaining reader.old) result }
    ensures limited { LosesUpTo (MOST_BYTES + 1) (R.remaining reader.old) (R.remaining reader.new) }
{
    match judge_each(rt, alloc, method, reader)? {
        Ok(accepted) => {
            let ran = run_verified(rt, alloc, accepted.verified)?;
            Ok(Ok(ran))
        }
        Err(refused) => Ok(Err(refused)),
    }
}

// Reads the text and verifies its scenario, with a thread for each host.
fn judge_each<T: Threads + Wait + Sync, R: Read>(
    rt: &T,
    alloc: Global,
    method: Method,
    reader: &mut R,
) -> Result<Result<Acceptance, Refused>, Fault>
    ensures judged { IsJudged method (R.remaining reader.old) result }
    ensures limited { LosesUpTo (MOST_BYTES + 1) (R.remaining reader.old) (R.remaining reader.new) }
{
    let scenario = read(alloc, reader)?;
    judged(
        alloc,
        method,
        verify_each(rt, alloc, scenario, &NoCheckGate),
    )
}

// The copy of the scenario has the names for the trace.
fn run_verified<T: Threads + Wait + Sync>(
    rt: &T,
    alloc: Global,
    verified: Verified,
) -> Result<Ran, Fault>
    ensures same { IfOk result (λ ran. scenario_of ran.scenario ≡ scenario_of verified) }
    ensures comes { IfOk result (λ ran. IsOutcome (scenario_of verified) ran.outcome) }
    ensures fault { IfErr result (IsRunFault (scenario_of verified)) }
{
    let scenario = verified.scenario().copy(alloc)?;
    match run(rt, alloc, verified, &NoGate) {
        Ok(outcome) => Ok(Ran { scenario, outcome }),
        Err(error) => Err(fault_for(&scenario, &error)),
    }
}

fn fault_for(scenario: &Scenario, error: &RunError) -> Fault
    requires { IfSpawn (λ host history. host < length (scenario_of scenario.now).nexuses)
        error.now }
    ensures exact { IsFaultFor (scenario_of scenario.now) error.now result }
    ensures known { IsRunFault (scenario_of scenario.now) result }
{
    match error {
        RunError::Memory => Fault::Memory,
        RunError::Spawn { host, .. } => { Fault::Thread(name_at(&scenario.parts().nexuses, *host)) }
        RunError::Differs(_) => Fault::History,
    }
}

#[tactic(auto, using(crate::proofs::lemmas::Runs::Outcomes::named_there))]
fn name_at(nexuses: &[Nexus], host: u8) -> Word
    requires { host < length nexuses.now }
    ensures { result.bytes ≡ name_of (names_of nexuses.now) host }
{
    nexuses[usize::from(host)].name
}

#[tactic(auto, using(crate::proofs::lemmas::Checks::Reasons::is_reason))]
fn put_performed<W: Write>(
    writer: &mut W,
    performed: &Result<Ran, Refused>,
) -> Result<(), WriteFault>
    requires { Stands performed.now }
    ensures { Writes W.Write writer (performed_text performed.now) result }
{
    match performed {
        Ok(ran) => put_outcome(writer, &ran.scenario, &ran.outcome),
        Err(refused) => {
            let verdict = Verdict::Refused(refused.refusal);
            write_verdict(writer, &refused.scenario, &verdict)
        }
    }
}

#[tactic(auto, using(crate::proofs::lemmas::Replays::Plans::nexuses_in, crate::proofs::lemmas::Steps::Words::few_nexuses))]
fn put_outcome<W: Write>(
    writer: &mut W,
    scenario: &Scenario,
    outcome: &Outcome,
) -> Result<(), WriteFault>
    requires safe { IsSafe (scenario_of scenario.now) }
    requires comes { IsOutcome (scenario_of scenario.now) outcome.now }
    ensures { Writes W.Write writer (outcome_text (scenario_of scenario.now) outcome.now) result }
{
    let counts = counts_of(&outcome.history, scenario.parts().nexuses.len());
    write_trace(
        writer,
        scenario,
        &outcome.history,
        &outcome.unit,
        &outcome.ends,
        &counts,
    )
}

// How many commands of each reached the unit.
fn counts_of(history: &[Item], nexuses: usize) -> ArrayVec<u32, MOST_NEXUSES>
    requires few { nexuses ≤ MOST_NEXUSES }
    requires fit { (h : ℕ) → commands_by history.now h < 2 ^ 32 }
    ensures { result.items ≡ map (λ h. commands_by history.now h) (range_with_len 0 nexuses) }
{
    let mut counts = ArrayVec::new();
    for host in 0..nexuses {
        counts.push(commands_by(history, host));
    }
    counts
}
