//! `fence ends`, over any reader, writer and error writer.

ghost use Rattle.std.specs.Prelude.{◌≡◌, ◌+◌};
ghost use Rattle.pr_text.specs.declared.text.TheConstants.{MOST_BYTES};
ghost use Rattle.pr_text.specs.BytesRead.{LosesUpTo};
ghost use Rattle.pr_output.specs.Written.{Writes};
ghost use Rattle.pr_commands.specs.Endings.{IsCommandOver, EndsOver};
ghost use Rattle.pr_commands.specs.Ends.{EndsEnds, is_no};
ghost use Rattle.pr_commands.specs.Steps.{texts_of};
ghost use Rattle.pr_commands.specs.inside.Gathering.{IsAnswered, answer_in, answered_text};

use crate::asked::asks_of;
use crate::ending::ended;
use crate::ends_text::{write_ends, write_sought};
use crate::fault::{ExitStatus, Fault};
use pr_audit::End;
use pr_output::WriteFault;
use pr_roles::Scenario;
use pr_text::read;
use pr_witness::{Ends, Sought, USUAL_BOUNDS, ends_together, run_that_ends};
use std::alloc::Global;
use std::io::{Read, Write};

/// A scenario that was searched for ends.
#[derive(Drop)]
enum Answered {
    /// For all that come together.
    Listed {
        scenario: Scenario,
        ends: Ends,
    },
    /// For a run that comes to those that are asked for.
    Sought {
        scenario: Scenario,
        asked: Vec<Option<End>>,
        sought: Sought,
    },
}

/// `fence ends`: reads a scenario, and writes which ends of its scripts come together. Words behind the text ask for one end each,
/// as `a=won`, or `a=trapped:14` where a script is trapped at the send of a line: then it writes a run in which all scripts are
/// over with those, if there is one, which is a refusal, or that there is none. Each end that it writes is that of a run, and where
/// it says that they are all, or that no run ends so, that is so.
///
/// A word that is no such, that names no script of the text, or one a second time, is a usage fault once the text is read. Of a
/// text whose bytes the contract knows at most 65,537 are taken. A fault is told in one line on `errors`, whose own faults change
/// nothing.
pub fn do_ends<R: Read, W: Write, E: Write>(
    alloc: Global,
    words: &[&str],
    reader: &mut R,
    writer: &mut W,
    errors: &mut E,
) -> ExitStatus
    ensures command { IsCommandOver R.Read reader W.Write writer E.Write errors
        (EndsEnds (texts_of words.now)) result }
    ensures limited { LosesUpTo (MOST_BYTES + 1) (R.remaining reader.old) (R.remaining reader.new) }
{
    let end = ends_text(alloc, words, reader, writer);
    ended(errors, end)
}

// Searches, and then writes: whether the answer is no.
fn ends_text<R: Read, W: Write>(
    alloc: Global,
    words: &[&str],
    reader: &mut R,
    writer: &mut W,
) -> Result<bool, Fault>
    ensures ends { EndsOver R.Read reader W.Write writer (EndsEnds (texts_of words.now)) result }
    ensures limited { LosesUpTo (MOST_BYTES + 1) (R.remaining reader.old) (R.remaining reader.new) }
{
    let answered = answer(alloc, words, reader)?;
    put_answered(writer, &answered)?;
    Ok(is_no(&answered))
}

// Reads the text, and searches its scenario.
fn answer<R: Read>(alloc: Global, words: &[&str], reader: &mut R) -> Result<Answered, Fault>
    ensures answered { IsAnswered (texts_of words.now) (R.remaining reader.old) result }
    ensures limited { LosesUpTo (MOST_BYTES + 1) (R.remaining reader.old) (R.remaining reader.new) }
{
    let scenario = read(alloc, reader)?;
    if words.is_empty() {
        let ends = ends_together(alloc, &scenario, USUAL_BOUNDS)?;
        return Ok(Answered::Listed { scenario, ends });
    }
    let Some(asked) = asks_of(alloc, &scenario, words)? else {
        return Err(Fault::Usage);
    };
    let sought = run_that_ends(alloc, &scenario, &asked, USUAL_BOUNDS)?;
    Ok(Answered::Sought {
        scenario,
        asked,
        sought,
    })
}

// Whether a run ends so, or nothing is proved.
fn is_no(answered: &Answered) -> bool
    ensures { result ≡ is_no (answer_in answered.now) }
{
    match answered {
        Answered::Listed { ends, .. } => !ends.are_all,
        Answered::Sought { sought, .. } => match sought {
            Sought::Found { .. } | Sought::Nothing { .. } => true,
            Sought::Never { .. } => false,
        },
    }
}

fn put_answered<W: Write>(writer: &mut W, answered: &Answered) -> Result<(), WriteFault>
    ensures { Writes W.Write writer (answered_text answered.now) result }
{
    match answered {
        Answered::Listed { scenario, ends } => write_ends(writer, scenario, ends),
        Answered::Sought {
            scenario,
            sought,
            ..
        } => write_sought(writer, scenario, sought),
    }
}
