//! `fence outline`, over any reader, writer and error writer.

ghost use Rattle.std.specs.Prelude.{◌+◌};
ghost use Rattle.pr_text.specs.declared.text.TheConstants.{MOST_BYTES};
ghost use Rattle.pr_text.specs.BytesRead.{LosesUpTo};
ghost use Rattle.pr_commands.specs.Endings.{IsCommandOver, EndsOver};
ghost use Rattle.pr_commands.specs.Outlines.{EndsOutline};

use crate::ending::ended;
use crate::fault::{ExitStatus, Fault};
use pr_report::write_outlines;
use pr_text::read;
use pr_verify::judge;
use std::alloc::Global;
use std::io::{Read, Write};

/// `fence outline`: reads a scenario, and writes what can be known at each send of its scripts, accepted or not.
///
/// Of a text whose bytes the contract knows at most 65,537 are taken. A fault is told in one line on `errors`, whose own
/// faults change nothing.
pub fn do_outline<R: Read, W: Write, E: Write>(
    alloc: Global,
    reader: &mut R,
    writer: &mut W,
    errors: &mut E,
) -> ExitStatus
    ensures command { IsCommandOver R.Read reader W.Write writer E.Write errors EndsOutline result }
    ensures limited { LosesUpTo (MOST_BYTES + 1) (R.remaining reader.old) (R.remaining reader.new) }
{
    let end = outline_text(alloc, reader, writer);
    ended(errors, end)
}

// Infers all outlines, and then writes.
fn outline_text<R: Read, W: Write>(
    alloc: Global,
    reader: &mut R,
    writer: &mut W,
) -> Result<bool, Fault>
    ensures ends { EndsOver R.Read reader W.Write writer EndsOutline result }
    ensures limited { LosesUpTo (MOST_BYTES + 1) (R.remaining reader.old) (R.remaining reader.new) }
{
    let scenario = read(alloc, reader)?;
    let judged = judge(alloc, &scenario)?;
    write_outlines(writer, &scenario, &judged.tables)?;
    Ok(false)
}
