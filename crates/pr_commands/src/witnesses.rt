//! `fence witness`, over any reader, writer and error writer.

ghost use Rattle.std.specs.Prelude.{◌≡◌, ◌+◌, ◌∷◌, [], codes};
ghost use Rattle.std.specs.Fmt.{decimal};
ghost use Rattle.pr_text.specs.declared.text.TheConstants.{MOST_BYTES};
ghost use Rattle.pr_text.specs.BytesRead.{LosesUpTo};
ghost use Rattle.pr_output.specs.PrintedLines.{line};
ghost use Rattle.pr_trace.specs.TraceText.{names_under};
ghost use Rattle.pr_output.specs.Written.{Writes};
ghost use Rattle.pr_commands.specs.Endings.{IsCommandOver, EndsOver};
ghost use Rattle.pr_commands.specs.Witnesses.{EndsWitness, bound_words, is_no, search_text};
ghost use Rattle.pr_commands.specs.inside.Witnessed.{IsWitnessed, answer_in, witnessed_text};

use crate::ending::ended;
use crate::fault::{ExitStatus, Fault};
use crate::judging::settled;
use crate::witness_text::write_witness;
use pr_output::{Token, WriteFault, put_line};
use pr_report::{Verdict, write_verdict};
use pr_roles::Scenario;
use pr_text::read;
use pr_verify::{Refusal, Verified, verify};
use pr_witness::{Bound, Finding, USUAL_BOUNDS, search};
use std::alloc::Global;
use std::io::{Read, Write};

/// A scenario that was verified, or searched for a run that shows why it is refused.
#[derive(Drop)]
enum Witnessed {
    Accepted(Verified),
    Searched {
        scenario: Scenario,
        refusal: Refusal,
        search: Finding,
    },
}

/// `fence witness`: reads a scenario, and where it is refused writes a run that breaks what its verdict tells, or else any run
/// that breaks something, if the search finds one. What it writes as such a run is one.
///
/// Of a text whose bytes the contract knows at most 65,537 are taken. A fault is told in one line on `errors`, whose own
/// faults change nothing.
pub fn do_witness<R: Read, W: Write, E: Write>(
    alloc: Global,
    reader: &mut R,
    writer: &mut W,
    errors: &mut E,
) -> ExitStatus
    ensures command { IsCommandOver R.Read reader W.Write writer E.Write errors EndsWitness result }
    ensures limited { LosesUpTo (MOST_BYTES + 1) (R.remaining reader.old) (R.remaining reader.new) }
{
    let end = witness_text(alloc, reader, writer);
    ended(errors, end)
}

// Searches, and then writes: whether a breach was found, or nothing is proved.
fn witness_text<R: Read, W: Write>(
    alloc: Global,
    reader: &mut R,
    writer: &mut W,
) -> Result<bool, Fault>
    ensures ends { EndsOver R.Read reader W.Write writer EndsWitness result }
    ensures limited { LosesUpTo (MOST_BYTES + 1) (R.remaining reader.old) (R.remaining reader.new) }
{
    let witnessed = witness(alloc, reader)?;
    put_witnessed(writer, &witnessed)?;
    Ok(is_no(&witnessed))
}

// Reads the text, verifies its scenario, and searches it where it is refused.
fn witness<R: Read>(alloc: Global, reader: &mut R) -> Result<Witnessed, Fault>
    ensures witnessed { IsWitnessed (R.remaining reader.old) result }
    ensures limited { LosesUpTo (MOST_BYTES + 1) (R.remaining reader.old) (R.remaining reader.new) }
{
    let scenario = read(alloc, reader)?;
    match settled(verify(alloc, scenario))? {
        Ok(verified) => Ok(Witnessed::Accepted(verified)),
        Err(refused) => {
            let search = search(alloc, &refused.scenario, &refused.refusal, USUAL_BOUNDS)?;
            Ok(Witnessed::Searched {
                scenario: refused.scenario,
                refusal: refused.refusal,
                search,
            })
        }
    }
}

fn is_no(witnessed: &Witnessed) -> bool
    ensures { result ≡ is_no (answer_in witnessed.now) }
{
    match witnessed {
        Witnessed::Accepted(_) => false,
        Witnessed::Searched { search, .. } => match search {
            Finding::Found { .. } | Finding::Nothing { .. } => true,
            Finding::Safe { .. } => false,
        },
    }
}

fn put_witnessed<W: Write>(writer: &mut W, witnessed: &Witnessed) -> Result<(), WriteFault>
    ensures { Writes W.Write writer (witnessed_text witnessed.now) result }
{
    match witnessed {
        Witnessed::Accepted(verified) => {
            write_verdict(writer, verified.scenario(), &Verdict::Accepted)
        }
        Witnessed::Searched {
            scenario,
            search,
            ..
        } => put_search(writer, scenario, search),
    }
}

fn put_search<W: Write>(
    writer: &mut W,
    scenario: &Scenario,
    search: &Finding,
) -> Result<(), WriteFault>
    ensures { Writes W.Write writer (search_text (names_under scenario.now) search.now) result }
{
    match search {
        Finding::Found { breach, is_told } => write_witness(writer, scenario, breach, *is_told),
        Finding::Safe { worlds } => put_safe(writer, *worlds),
        Finding::Nothing { worlds, bound } => put_none(writer, *worlds, *bound),
    }
}

// That the scenario is safe all the same: in none of so many worlds, which are all, anything breaks.
#[tactic(auto, unfolding(pr_output::specs::Printed::printed_word))]
fn put_safe<W: Write>(writer: &mut W, worlds: usize) -> Result<(), WriteFault>
    ensures { Writes W.Write writer (line (codes "safe") (decimal worlds ∷ [])) result }
{
    put_line(
        writer,
        Token::Text(b"safe"),
        &[Token::Number(worlds as u64)],
    )
}

// That nothing was found among so many worlds, and the bound that was met.
#[tactic(auto, unfolding(pr_output::specs::Printed::printed_word))]
fn put_none<W: Write>(writer: &mut W, worlds: usize, bound: Option<Bound>) -> Result<(), WriteFault>
    ensures { Writes W.Write writer (line (codes "none") (decimal worlds ∷ bound_words bound))
        result }
{
    let first = Token::Text(b"none");
    let worlds = Token::Number(worlds as u64);
    match bound {
        None => put_line(writer, first, &[worlds]),
        Some(Bound::Worlds) => put_line(writer, first, &[worlds, Token::Text(b"worlds")]),
        Some(Bound::Depth) => put_line(writer, first, &[worlds, Token::Text(b"depth")]),
        Some(Bound::Memory) => put_line(writer, first, &[worlds, Token::Text(b"memory")]),
    }
}
