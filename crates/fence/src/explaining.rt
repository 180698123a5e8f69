//! `fence explain FILE`, over any reader, writer and error writer.

ghost use Rattle.std.specs.Prelude.{◌+◌, ℕ, IfErr, Err, List, Option};
ghost use Rattle.pr_text.specs.declared.text.TheConstants.{MOST_BYTES};
ghost use Rattle.pr_text.specs.BytesRead.{LosesUpTo};
ghost use Rattle.pr_commands.specs.Endings.{IsCommandOn};
ghost use Rattle.fence.specs.Explanations.{EndsTold};

use crate::told::read_and_tell;
use pr_commands::{ExitStatus, Fault, ended};
use pr_explain::{
    Explanation, ends_of, explanation, inquiry, lines_of, write_explanation, write_inquiry,
    write_prospects, write_relief,
};
use pr_output::WriteFault;
use std::alloc::Global;
use std::io::{Read, Write};

/// `fence explain FILE`: reads a scenario, and writes in words what its verdict means, or its fault.
///
/// The status is that of `fence check`, and so is the line on `errors` that tells a fault. Of a text whose bytes the contract
/// knows at most 65,537 are taken.
pub fn do_explain<R: Read, W: Write, E: Write>(
    alloc: Global,
    reader: &mut R,
    writer: &mut W,
    errors: &mut E,
) -> ExitStatus
    ensures command { IsCommandOn E.Write errors (EndsTold (R.remaining reader.old)) result }
    ensures limited { LosesUpTo (MOST_BYTES + 1) (R.remaining reader.old) (R.remaining reader.new) }
{
    let end = explain_text(alloc, reader, writer);
    ended(errors, end)
}

// Reads the text, plans what is said of its verdict, and writes that: whether the scenario is refused. Of a fault of the text the
// words go out before its line.
fn explain_text<R: Read, W: Write>(
    alloc: Global,
    reader: &mut R,
    writer: &mut W,
) -> Result<bool, Fault>
    ensures ends { EndsTold (R.remaining reader.old) result }
    ensures limited { LosesUpTo (MOST_BYTES + 1) (R.remaining reader.old) (R.remaining reader.new) }
{
    let (text, scenario) = read_and_tell(alloc, reader, writer);
    let scenario = scenario?;
    let lines = lines_of(alloc, &text)?;
    let explanation = explanation(alloc, scenario)?;
    write_told(alloc, writer, &lines, &explanation)?;
    Ok(explanation.is_refusal())
}

// Has the writer send on what it holds back: a search may take seconds.
fn sent_on<W: Write>(writer: &mut W) -> Result<(), WriteFault> {
    match writer.flush() {
        Ok(()) => Ok(()),
        Err(_) => Err(WriteFault),
    }
}

// Searches, and writes what is said of the verdict, and what comes of the search. A scenario that is refused is searched before
// anything is written, since the first that is said of it is that it can be left so, where it can.
fn write_told<W: Write>(
    alloc: Global,
    writer: &mut W,
    lines: &[&[u8]],
    explanation: &Explanation,
) -> Result<(), Fault>
    ensures { IfErr result (λ fault. (known : Option (List ℕ)) → EndsTold known (Err fault)) }
{
    match explanation {
        Explanation::Accepted(accepted) => {
            write_explanation(writer, lines, explanation)?;
            sent_on(writer)?;
            let ends = ends_of(alloc, &accepted.scenario)?;
            write_prospects(writer, lines, accepted, ends.as_ref())?;
        }
        Explanation::Refused(refused) => {
            let inquiry = inquiry(alloc, refused)?;
            write_relief(writer, lines, refused, &inquiry)?;
            write_explanation(writer, lines, explanation)?;
            write_inquiry(writer, lines, refused, &inquiry)?;
        }
    }
    Ok(())
}
