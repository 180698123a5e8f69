//! `fence replay`, over any reader, writer and error writer.

ghost use Rattle.std.specs.Prelude.{◌≡◌, ◌+◌, IsTrue};
ghost use Rattle.pr_text.specs.declared.text.TheConstants.{MOST_BYTES};
ghost use Rattle.pr_text.specs.BytesRead.{LosesUpTo};
ghost use Rattle.pr_commands.specs.Endings.{IsCommandOver, EndsOver, IsUnread};
ghost use Rattle.pr_commands.specs.Steps.{has_wrong_count, texts_of};
ghost use Rattle.pr_commands.specs.Replays.{EndsReplay};
ghost use Rattle.pr_commands.specs.inside.PlannedReplays.{IsPlanned};

use crate::ending::ended;
use crate::fault::{ExitStatus, Fault};
use crate::steps::steps_of;
use pr_roles::Scenario;
use pr_text::read;
use pr_trace::write_trace;
use pr_world::{Replayed, replay_as};
use std::alloc::Global;
use std::io::{Read, Write};

/// The steps of a replay.
pub const MOST_STEPS: usize = 4_096;

/// `fence replay`: reads a scenario, lets the named hosts take their turns in the order of the steps, and
/// writes the trace.
///
/// No step, or more than 4,096, is a usage fault before the text is read; a step that names no nexus is
/// one after it. From version 2 on `a:busy` and `a:full` are steps of `a`, whose command is refused where the text has a
/// refusal left, and `:reset` is a reset of the unit, passed over where the text has none left. From version 3 on `a:early` is a
/// step of `a` to which the unit reports an attention before it looks at the reservation, where it may. Of a text whose bytes the
/// contract knows at most 65,537 are taken. A fault is told in one line on `errors`, whose own faults change nothing.
pub fn do_replay<R: Read, W: Write, E: Write>(
    alloc: Global,
    steps: &[&str],
    reader: &mut R,
    writer: &mut W,
    errors: &mut E,
) -> ExitStatus
    ensures command { IsCommandOver R.Read reader W.Write writer E.Write errors
        (EndsReplay (texts_of steps.now)) result }
    ensures limited { LosesUpTo (MOST_BYTES + 1) (R.remaining reader.old) (R.remaining reader.new) }
    ensures unread { IsTrue (has_wrong_count (texts_of steps.now)) → IsUnread R.Read reader }
{
    let end = replay_text(alloc, steps, reader, writer);
    ended(errors, end)
}

// Plans, and then writes: whether a host is trapped.
fn replay_text<R: Read, W: Write>(
    alloc: Global,
    steps: &[&str],
    reader: &mut R,
    writer: &mut W,
) -> Result<bool, Fault>
    ensures ends { EndsOver R.Read reader W.Write writer (EndsReplay (texts_of steps.now)) result }
    ensures limited { LosesUpTo (MOST_BYTES + 1) (R.remaining reader.old) (R.remaining reader.new) }
    ensures unread { IsTrue (has_wrong_count (texts_of steps.now)) → IsUnread R.Read reader }
{
    let plan = plan(alloc, steps, reader)?;
    write_trace(
        writer,
        &plan.scenario,
        &plan.replayed.history,
        &plan.replayed.unit,
        &plan.replayed.ends,
        &plan.replayed.counts,
    )?;
    Ok(plan.replayed.is_trapped())
}

/// A replay that is done and not written.
#[derive(Drop)]
struct Planned {
    scenario: Scenario,
    replayed: Replayed,
}

// Reads the text and replays the steps, or answers their first fault.
fn plan<R: Read>(alloc: Global, steps: &[&str], reader: &mut R) -> Result<Planned, Fault>
    ensures planned { IsPlanned (texts_of steps.now) (R.remaining reader.old) result }
    ensures limited { LosesUpTo (MOST_BYTES + 1) (R.remaining reader.old) (R.remaining reader.new) }
    ensures unread { IsTrue (has_wrong_count (texts_of steps.now)) → IsUnread R.Read reader }
{
    if has_wrong_count(steps) {
        return Err(Fault::Usage);
    }
    let scenario = read(alloc, reader)?;
    let parts = scenario.parts();
    let Some(turns) = steps_of(alloc, steps, parts.version, &parts.nexuses)? else {
        return Err(Fault::Usage);
    };
    let replayed = replay_as(alloc, &scenario, &turns)?;
    Ok(Planned { scenario, replayed })
}

// No step, or more than 4,096.
#[tactic(auto, using(crate::proofs::lemmas::Replays::Plans::wrong_count))]
fn has_wrong_count(steps: &[&str]) -> bool
    ensures { result ≡ has_wrong_count (texts_of steps.now) }
{
    steps.is_empty() || steps.len() > MOST_STEPS
}
