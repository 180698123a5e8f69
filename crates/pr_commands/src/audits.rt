//! `fence audit`, over any two readers, writer and error writer.

ghost use Rattle.std.specs.Prelude.{◌≡◌, ◌+◌, Err, IfErr, IfOk};
ghost use Rattle.pr_roles.specs.Scenarios.{scenario_of};
ghost use Rattle.pr_text.specs.declared.fault.ReadError.{ReadError};
ghost use Rattle.pr_text.specs.declared.text.TheConstants.{MOST_BYTES};
ghost use Rattle.pr_text.specs.BytesRead.{LosesUpTo};
ghost use Rattle.pr_commands.specs.declared.fault.Fault.TheVariants.{Input, Memory};
ghost use Rattle.pr_commands.specs.Audits.{Holds, EndsAuditOf, TakesTraceUnder};
ghost use Rattle.pr_commands.specs.Endings.{IsCommandOver, EndsOver, IsUnread};
ghost use Rattle.pr_commands.specs.inside.Audited.{IsAudited};

use crate::ending::ended;
use crate::fault::{ExitStatus, Fault};
use pr_audit::{AuditError, audit};
use pr_report::{Verdict, write_verdict};
use pr_roles::{Item, Scenario};
use pr_text::read;
use pr_trace::read_trace;
use std::alloc::Global;
use std::io::{Read, Write};

/// `fence audit`: reads a scenario and then a trace, and writes whether the history of the trace is a legal one of
/// the scenario from its first start, or the place of the first item that is not.
///
/// Of a text and a trace whose bytes the contract knows at most 65,537 and 33,662,017 are taken, from version 2 on 68,274,217; none
/// of the trace where the text is at fault. A fault is told in one line on `errors`, whose own faults change nothing.
pub fn do_audit<R: Read, T: Read, W: Write, E: Write>(
    alloc: Global,
    reader: &mut R,
    trace: &mut T,
    writer: &mut W,
    errors: &mut E,
) -> ExitStatus
    ensures command { IsCommandOver R.Read reader W.Write writer E.Write errors
        (EndsAuditOf T.Read trace) result }
    ensures limited { LosesUpTo (MOST_BYTES + 1) (R.remaining reader.old) (R.remaining reader.new) }
    ensures limited_trace { TakesTraceUnder T.Read trace R.Read reader }
{
    let end = audit_texts(alloc, reader, trace, writer);
    ended(errors, end)
}

// Audits, and then writes: whether the history is illegal.
fn audit_texts<R: Read, T: Read, W: Write>(
    alloc: Global,
    reader: &mut R,
    trace: &mut T,
    writer: &mut W,
) -> Result<bool, Fault>
    ensures ends { EndsOver R.Read reader W.Write writer (EndsAuditOf T.Read trace) result }
    ensures limited { LosesUpTo (MOST_BYTES + 1) (R.remaining reader.old) (R.remaining reader.new) }
    ensures limited_trace { TakesTraceUnder T.Read trace R.Read reader }
{
    let audited = examine(alloc, reader, trace)?;
    write_verdict(writer, &audited.scenario, &audited.verdict)?;
    Ok(audited.verdict.is_refusal())
}

/// A history that was audited, and its verdict not written.
#[derive(Drop)]
struct Audited {
    scenario: Scenario,
    verdict: Verdict,
}

// Reads the scenario and the trace, and audits its history.
#[tactic(auto, using(crate::proofs::lemmas::Audits::BytesTaken::untaken, crate::proofs::lemmas::Audits::BytesTaken::taken_by))]
fn examine<R: Read, T: Read>(alloc: Global, reader: &mut R, trace: &mut T) -> Result<Audited, Fault>
    ensures audited { IsAudited (R.remaining reader.old) (T.remaining trace.old) result }
    ensures unread { (e : ReadError) → result ≡ Err (Input e) → IsUnread T.Read trace }
    ensures limited { LosesUpTo (MOST_BYTES + 1) (R.remaining reader.old) (R.remaining reader.new) }
    ensures limited_trace { TakesTraceUnder T.Read trace R.Read reader }
{
    let scenario = read(alloc, reader)?;
    let history = read_trace(alloc, &scenario, trace)?;
    let verdict = verdict_on(alloc, &scenario, &history)?;
    Ok(Audited { scenario, verdict })
}

// That memory was refused is a fault, and no verdict.
fn verdict_on(alloc: Global, scenario: &Scenario, history: &[Item]) -> Result<Verdict, Fault>
    ensures holds { IfOk result (λ verdict. Holds verdict (scenario_of scenario.now) history.now) }
    ensures fault { IfErr result (λ fault. fault ≡ Memory) }
{
    match audit(alloc, scenario, history) {
        Ok(()) => Ok(Verdict::Legal {
            items: history.len(),
        }),
        Err(AuditError::Illegal { place }) => Ok(Verdict::Illegal { place }),
        Err(AuditError::Memory) => Err(Fault::Memory),
    }
}
