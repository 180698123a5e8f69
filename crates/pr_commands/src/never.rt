//! `fence never`, over any reader, writer and error writer.

ghost use Rattle.std.specs.Prelude.{◌≡◌, ◌+◌, ◌∷◌, [], IfOk, IsTrue};
ghost use Rattle.pr_text.specs.declared.text.TheConstants.{MOST_BYTES};
ghost use Rattle.pr_text.specs.BytesRead.{LosesUpTo};
ghost use Rattle.pr_roles.specs.Scenarios.{scenario_of};
ghost use Rattle.pr_output.specs.Written.{Writes};
ghost use Rattle.pr_trace.specs.TraceText.{names_under};
ghost use Rattle.pr_commands.specs.Endings.{IsCommandOver, EndsOver};
ghost use Rattle.pr_commands.specs.Never.{AreUnmet, EndsNever, IsNeverAsked, is_no};
ghost use Rattle.pr_commands.specs.NeverText.{never_text};
ghost use Rattle.pr_commands.specs.Steps.{texts_of};
ghost use Rattle.pr_commands.specs.inside.Questioned.{IsQuestioned, IsSearched};

use crate::ending::ended;
use crate::fault::{ExitStatus, Fault};
use crate::never_text::write_never;
use crate::questions::{SoughtMoment, question_of};
use pr_explore::AllSeen;
use pr_roles::Scenario;
use pr_text::read;
use pr_witness::{Sought, USUAL_BOUNDS, run_to_moment};
use std::alloc::{AllocError, Global};
use std::io::{Read, Write};

/// A scenario that was searched for a moment.
#[derive(Drop)]
struct Questioned<'a> {
    scenario: Scenario,
    sought: Sought,
    /// The words whose ends and facts are never so, where the whole question is answered so.
    unmet: Vec<&'a str>,
}

/// `fence never`: reads a scenario, and writes that there is no moment at which all is so that the words ask for, whatever happens
/// from any allowed start; or a run to such a moment, which is a refusal. A word asks for the end of a script, as `a=won` or
/// `a=trapped:14`, or for a fact: `b:write` and `b:read`, that the reservation would not refuse it such a command, `b:registered`
/// and `b:holder`, and behind `no-` that it isn't so, as `b:no-holder`. Where there is no such moment, it writes behind that each
/// word of which by itself there is none.
///
/// No word, or more than 16, one that is no such, or one that speaks of what another speaks of is a usage fault once the text is
/// read. Of a text whose bytes the contract knows at most 65,537 are taken. A fault is told in one line on `errors`, whose own
/// faults change nothing.
pub fn do_never<R: Read, W: Write, E: Write>(
    alloc: Global,
    words: &[&str],
    reader: &mut R,
    writer: &mut W,
    errors: &mut E,
) -> ExitStatus
    ensures command { IsCommandOver R.Read reader W.Write writer E.Write errors
        (EndsNever (texts_of words.now)) result }
    ensures limited { LosesUpTo (MOST_BYTES + 1) (R.remaining reader.old) (R.remaining reader.new) }
{
    let end = never_text(alloc, words, reader, writer);
    ended(errors, end)
}

// Searches, and then writes: whether the answer is no.
fn never_text<R: Read, W: Write>(
    alloc: Global,
    words: &[&str],
    reader: &mut R,
    writer: &mut W,
) -> Result<bool, Fault>
    ensures ends { EndsOver R.Read reader W.Write writer (EndsNever (texts_of words.now)) result }
    ensures limited { LosesUpTo (MOST_BYTES + 1) (R.remaining reader.old) (R.remaining reader.new) }
{
    let questioned = answer(alloc, words, reader)?;
    write_never(
        writer,
        &questioned.scenario,
        words,
        &questioned.sought,
        &questioned.unmet,
    )?;
    Ok(is_no(&questioned.sought))
}

// Reads the text, and searches its scenario.
fn answer<'a, R: Read>(
    alloc: Global,
    words: &[&'a str],
    reader: &mut R,
) -> Result<Questioned<'a>, Fault>
    ensures answered { IsQuestioned (texts_of words.now) (R.remaining reader.old) result }
    ensures limited { LosesUpTo (MOST_BYTES + 1) (R.remaining reader.old) (R.remaining reader.new) }
{
    let scenario = read(alloc, reader)?;
    let Some(question) = question_of(alloc, &scenario, words)? else {
        return Err(Fault::Usage);
    };
    let (sought, unmet) = search(alloc, &scenario, words, &question)?;
    Ok(Questioned {
        scenario,
        sought,
        unmet,
    })
}

// What the search for the moment comes to, and which words by themselves are never so.
fn search<'a>(
    alloc: Global,
    scenario: &Scenario,
    words: &[&'a str],
    question: &SoughtMoment,
) -> Result<(Sought, Vec<&'a str>), AllocError>
    ensures { IfOk result (IsSearched (scenario_of scenario.now) (texts_of words.now)
        question.now.asked.items question.now.facts.items) }
{
    let (asked, facts) = (&question.asked, &question.facts);
    let (sought, seen) = run_to_moment(alloc, scenario, asked, facts, USUAL_BOUNDS)?;
    let unmet = match &seen {
        Some(all) => unmet_of(alloc, scenario, words, all)?,
        None => Vec::new(alloc),
    };
    Ok((sought, unmet))
}

// The words that by themselves are never so.
fn unmet_of<'a>(
    alloc: Global,
    scenario: &Scenario,
    words: &[&'a str],
    all: &AllSeen<'_>,
) -> Result<Vec<&'a str>, AllocError>
    requires { scenario_of all.now ≡ scenario_of scenario.now }
    ensures { IfOk result (λ unmet. AreUnmet (scenario_of scenario.now) (texts_of words.now)
        (texts_of unmet.items)) }
{
    let mut unmet = Vec::new(alloc);
    for word in words {
        if is_never(alloc, scenario, word, all)? {
            unmet.push(*word)?;
        }
    }
    Ok(unmet)
}

// Whether there is no moment at which that is so for which this word asks.
fn is_never(
    alloc: Global,
    scenario: &Scenario,
    word: &&str,
    all: &AllSeen<'_>,
) -> Result<bool, AllocError>
    requires { scenario_of all.now ≡ scenario_of scenario.now }
    ensures { IfOk result (λ never. IsTrue never
        → IsNeverAsked (scenario_of scenario.now) (word.now.now ∷ [])) }
{
    let Some(question) = question_of(alloc, scenario, &[*word])? else {
        return Ok(false);
    };
    let mut fitting = Vec::new(alloc);
    all.fit(&question.facts, &mut fitting)?;
    Ok(all.never_is(&question.asked, &question.facts, &fitting))
}

// Whether a run comes to such a moment, or nothing is proved.
fn is_no(sought: &Sought) -> bool
    ensures { result ≡ is_no sought.now }
{
    match sought {
        Sought::Found { .. } | Sought::Nothing { .. } => true,
        Sought::Never { .. } => false,
    }
}
