//! `fence table`, over any reader, writer and error writer.

ghost use Rattle.std.specs.Prelude.{◌≡◌, ◌+◌, IfSome};
ghost use Rattle.pr_roles.specs.Scenarios.{scenario_of, task};
ghost use Rattle.pr_roles.specs.Tasks.{IsScripted};
ghost use Rattle.pr_text.specs.declared.text.TheConstants.{MOST_BYTES};
ghost use Rattle.pr_text.specs.BytesRead.{LosesUpTo};
ghost use Rattle.pr_output.specs.Written.{Writes};
ghost use Rattle.pr_commands.specs.Endings.{IsCommandOver, EndsOver};
ghost use Rattle.pr_commands.specs.Tables.{EndsTable, scripted_host};
ghost use Rattle.pr_commands.specs.inside.JudgedHosts.{IsJudgedFor, answered_text, scenario_in};
ghost use Rattle.pr_commands.specs.inside.Judgements.{verdict_in};
ghost use Rattle.pr_report.specs.Verdicts.{IsVerdict};

use crate::ending::ended;
use crate::fault::{ExitStatus, Fault};
use crate::judging::{Acceptance, Method, judged};
use pr_output::WriteFault;
use pr_report::{Verdict, write_verdict};
use pr_roles::{Scenario, has_script};
use pr_table::write_table;
use pr_text::read;
use pr_trace::number_of;
use pr_verify::{Refused, verify};
use std::alloc::Global;
use std::io::{Read, Write};

/// A scenario that was judged, and the host whose table is asked for.
#[derive(Drop)]
struct JudgedHost {
    host: u8,
    judgement: Result<Acceptance, Refused>,
}

/// `fence table`: reads a scenario, verifies it by this method, and writes the table of the script of the host with this name. Of a
/// scenario that is refused it writes the line of the verdict, and no table.
///
/// A name that is none of the text, or a guest's, is a usage fault once the text is read. Of a text whose bytes the contract knows
/// at most 65,537 are taken. A fault is told in one line on `errors`, whose own faults change nothing.
pub fn do_table<R: Read, W: Write, E: Write>(
    alloc: Global,
    method: Method,
    name: &str,
    reader: &mut R,
    writer: &mut W,
    errors: &mut E,
) -> ExitStatus
    ensures command { IsCommandOver R.Read reader W.Write writer E.Write errors
        (EndsTable method name.now) result }
    ensures limited { LosesUpTo (MOST_BYTES + 1) (R.remaining reader.old) (R.remaining reader.new) }
{
    let end = table_text(alloc, method, name, reader, writer);
    ended(errors, end)
}

// Judges, and then writes: whether the scenario is refused.
fn table_text<R: Read, W: Write>(
    alloc: Global,
    method: Method,
    name: &str,
    reader: &mut R,
    writer: &mut W,
) -> Result<bool, Fault>
    ensures ends { EndsOver R.Read reader W.Write writer (EndsTable method name.now) result }
    ensures limited { LosesUpTo (MOST_BYTES + 1) (R.remaining reader.old) (R.remaining reader.new) }
{
    let judged = judge_for(alloc, method, name, reader)?;
    put_answer(writer, &judged)?;
    Ok(judged.judgement.is_err())
}

// Reads the text, finds the host, and verifies the scenario.
fn judge_for<R: Read>(
    alloc: Global,
    method: Method,
    name: &str,
    reader: &mut R,
) -> Result<JudgedHost, Fault>
    ensures judged { IsJudgedFor method name.now (R.remaining reader.old) result }
    ensures limited { LosesUpTo (MOST_BYTES + 1) (R.remaining reader.old) (R.remaining reader.new) }
{
    let scenario = read(alloc, reader)?;
    let Some(host) = scripted_host(&scenario, name.as_bytes()) else {
        return Err(Fault::Usage);
    };
    let judgement = judged(alloc, method, verify(alloc, scenario))?;
    Ok(JudgedHost { host, judgement })
}

// The number of the host with this name.
fn scripted_host(scenario: &Scenario, name: &[u8]) -> Option<u8>
    ensures host { result ≡ scripted_host (scenario_of scenario.now) name.now }
    ensures scripted { IfSome result (λ h. IsScripted (task (scenario_of scenario.now) h)) }
{
    let host = number_of(&scenario.parts().nexuses, name)?;
    if has_script(scenario, host) {
        Some(host)
    } else {
        None
    }
}

fn put_answer<W: Write>(writer: &mut W, judged: &JudgedHost) -> Result<(), WriteFault>
    requires scripted { IsScripted (task (scenario_in judged.now) judged.now.host) }
    requires verdict { IsVerdict (verdict_in judged.now.judgement) }
    ensures { Writes W.Write writer (answered_text judged.now) result }
{
    match &judged.judgement {
        Ok(accepted) => write_table(writer, accepted.verified.scenario(), judged.host),
        Err(refused) => {
            let verdict = Verdict::Refused(refused.refusal);
            write_verdict(writer, &refused.scenario, &verdict)
        }
    }
}
