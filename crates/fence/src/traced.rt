//! `fence explain FILE TRACE`, over any two readers, writer and error writer.

ghost use Rattle.std.specs.Prelude.{◌+◌};
ghost use Rattle.pr_text.specs.declared.text.TheConstants.{MOST_BYTES};
ghost use Rattle.pr_text.specs.BytesRead.{LosesUpTo};
ghost use Rattle.pr_commands.specs.Audits.{TakesTraceUnder};
ghost use Rattle.pr_commands.specs.Endings.{IsCommandOn};
ghost use Rattle.fence.specs.Explanations.{EndsTraceTold};
ghost use Rattle.fence.specs.inside.Traced.{IsTraced};

use crate::told::{read_and_tell, read_trace_and_tell};
use pr_commands::{ExitStatus, Fault, ended};
use pr_roles::{Item, Scenario};
use pr_words::{Telling, telling_of, write_telling};
use std::alloc::Global;
use std::io::{Read, Write};

/// `fence explain FILE TRACE`: reads a scenario and then a trace, and writes in words what happens in the trace, and whether that
/// is a legal history of the scenario from its first start.
///
/// The status is that of `fence audit`, and so is the line on `errors` that tells a fault. What a fault means is written too.
/// What is taken of the text and the trace is bounded as for an audit.
pub fn do_explain_trace<R: Read, T: Read, W: Write, E: Write>(
    alloc: Global,
    reader: &mut R,
    trace: &mut T,
    writer: &mut W,
    errors: &mut E,
) -> ExitStatus
    ensures command { IsCommandOn E.Write errors
        (EndsTraceTold (R.remaining reader.old) (T.remaining trace.old)) result }
    ensures limited { LosesUpTo (MOST_BYTES + 1) (R.remaining reader.old) (R.remaining reader.new) }
    ensures limited_trace { TakesTraceUnder T.Read trace R.Read reader }
{
    let end = explain_texts(alloc, reader, trace, writer);
    ended(errors, end)
}

// Plans what is told, and then writes it: whether the history is illegal.
fn explain_texts<R: Read, T: Read, W: Write>(
    alloc: Global,
    reader: &mut R,
    trace: &mut T,
    writer: &mut W,
) -> Result<bool, Fault>
    ensures ends { EndsTraceTold (R.remaining reader.old) (T.remaining trace.old) result }
    ensures limited { LosesUpTo (MOST_BYTES + 1) (R.remaining reader.old) (R.remaining reader.new) }
    ensures limited_trace { TakesTraceUnder T.Read trace R.Read reader }
{
    let traced = plan(alloc, reader, trace, writer)?;
    write_telling(writer, &traced.scenario, &traced.history, &traced.telling)?;
    Ok(traced.telling.illegal.is_some())
}

/// A history of a scenario, and what is told of it, not written.
#[derive(Drop)]
struct Traced {
    scenario: Scenario,
    history: Vec<Item>,
    telling: Telling,
}

// Reads the scenario and the trace, and plans what is told of its history. Of a fault the words go out.
#[tactic(auto, using(pr_commands::proofs::lemmas::Audits::BytesTaken::untaken, pr_commands::proofs::lemmas::Audits::BytesTaken::taken_by))]
fn plan<R: Read, T: Read, W: Write>(
    alloc: Global,
    reader: &mut R,
    trace: &mut T,
    writer: &mut W,
) -> Result<Traced, Fault>
    ensures traced { IsTraced (R.remaining reader.old) (T.remaining trace.old) result }
    ensures limited { LosesUpTo (MOST_BYTES + 1) (R.remaining reader.old) (R.remaining reader.new) }
    ensures limited_trace { TakesTraceUnder T.Read trace R.Read reader }
{
    let (_, scenario) = read_and_tell(alloc, reader, writer);
    let scenario = scenario?;
    let history = read_trace_and_tell(alloc, &scenario, trace, writer)?;
    let telling = telling_of(alloc, &scenario, &history)?;
    Ok(Traced {
        scenario,
        history,
        telling,
    })
}
