//! `fence check`, over any reader, writer and error writer.

ghost use Rattle.std.specs.Prelude.{◌≡◌, ◌+◌};
ghost use Rattle.pr_text.specs.declared.text.TheConstants.{MOST_BYTES};
ghost use Rattle.pr_text.specs.BytesRead.{LosesUpTo};
ghost use Rattle.pr_output.specs.Written.{Writes};
ghost use Rattle.pr_commands.specs.Endings.{IsCommandOver, EndsOver};
ghost use Rattle.pr_commands.specs.Checks.{EndsCheck};
ghost use Rattle.pr_commands.specs.inside.Judgements.{IsJudged, judgement_text, verdict_in};
ghost use Rattle.pr_report.specs.Verdicts.{IsVerdict};

use crate::ending::ended;
use crate::fault::{ExitStatus, Fault};
use crate::judging::{Acceptance, Method, judged};
use pr_output::WriteFault;
use pr_report::{Verdict, write_verdict};
use pr_text::read;
use pr_verify::{Refused, verify};
use std::alloc::Global;
use std::io::{Read, Write};

/// `fence check`: reads a scenario, and writes the verdict on its scripts. It is accepted only where it is safe, which it is found
/// to be by this method.
///
/// Of a text whose bytes the contract knows at most 65,537 are taken. A fault is told in one line on `errors`, whose own
/// faults change nothing.
pub fn do_check<R: Read, W: Write, E: Write>(
    alloc: Global,
    method: Method,
    reader: &mut R,
    writer: &mut W,
    errors: &mut E,
) -> ExitStatus
    ensures command { IsCommandOver R.Read reader W.Write writer E.Write errors
        (EndsCheck method) result }
    ensures limited { LosesUpTo (MOST_BYTES + 1) (R.remaining reader.old) (R.remaining reader.new) }
{
    let end = check_text(alloc, method, reader, writer);
    ended(errors, end)
}

// Judges, and then writes: whether the scenario is refused.
fn check_text<R: Read, W: Write>(
    alloc: Global,
    method: Method,
    reader: &mut R,
    writer: &mut W,
) -> Result<bool, Fault>
    ensures ends { EndsOver R.Read reader W.Write writer (EndsCheck method) result }
    ensures limited { LosesUpTo (MOST_BYTES + 1) (R.remaining reader.old) (R.remaining reader.new) }
{
    let judgement = judge(alloc, method, reader)?;
    put_judgement(writer, &judgement)?;
    Ok(judgement.is_err())
}

// Reads the text and verifies its scenario.
fn judge<R: Read>(
    alloc: Global,
    method: Method,
    reader: &mut R,
) -> Result<Result<Acceptance, Refused>, Fault>
    ensures judged { IsJudged method (R.remaining reader.old) result }
    ensures limited { LosesUpTo (MOST_BYTES + 1) (R.remaining reader.old) (R.remaining reader.new) }
{
    let scenario = read(alloc, reader)?;
    judged(alloc, method, verify(alloc, scenario))
}

fn put_judgement<W: Write>(
    writer: &mut W,
    judgement: &Result<Acceptance, Refused>,
) -> Result<(), WriteFault>
    requires { IsVerdict (verdict_in judgement.now) }
    ensures { Writes W.Write writer (judgement_text judgement.now) result }
{
    let verdict = verdict_in(judgement);
    match judgement {
        Ok(accepted) => write_verdict(writer, accepted.verified.scenario(), &verdict),
        Err(refused) => write_verdict(writer, &refused.scenario, &verdict),
    }
}

fn verdict_in(judgement: &Result<Acceptance, Refused>) -> Verdict
    ensures { result ≡ verdict_in judgement.now }
{
    match judgement {
        Ok(accepted) => match accepted.worlds {
            Some(worlds) => Verdict::AcceptedBySearch { worlds },
            None => Verdict::Accepted,
        },
        Err(refused) => Verdict::Refused(refused.refusal),
    }
}
