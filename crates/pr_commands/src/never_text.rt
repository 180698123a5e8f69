//! The text of `fence never`: a run to a moment, that there is none, or the bound that was met.

ghost use Rattle.std.specs.Prelude.{◌≡◌, ◌++◌, ◌∷◌, [], codes};
ghost use Rattle.std.specs.Fmt.{decimal};
ghost use Rattle.std.specs.List.{flat_map};
ghost use Rattle.pr_output.specs.PrintedLines.{line};
ghost use Rattle.pr_output.specs.Written.{Writes};
ghost use Rattle.pr_trace.specs.TraceText.{names_under};
ghost use Rattle.pr_commands.specs.EndsText.{bound_line};
ghost use Rattle.pr_commands.specs.NeverText.{moment_text, never_text, nowhere_text, unmet_line};
ghost use Rattle.pr_commands.specs.Steps.{texts_of};

use crate::ends_text::{put_after, put_bound, put_never};
use crate::witness_text::put_certified;
use pr_output::{Token, WriteFault, put, put_line};
use pr_roles::Scenario;
use pr_witness::{CertifiedRun, Sought};
use std::io::Write;

/// Writes the run to the moment for which the words ask; that there is none, and which of them by themselves are never so; or the
/// bound that was met. On a fault, what went out is a front of it, and not all.
pub(crate) fn write_never<W: Write>(
    writer: &mut W,
    scenario: &Scenario,
    words: &[&str],
    sought: &Sought,
    unmet: &[&str],
) -> Result<(), WriteFault>
    ensures { Writes W.Write writer (never_text (names_under scenario.now) (texts_of words.now)
        sought.now (texts_of unmet.now)) result }
{
    match sought {
        Sought::Found { run, steps } => put_moment(writer, scenario, words, run, *steps),
        Sought::Never { worlds } => put_nowhere(writer, *worlds, unmet),
        Sought::Nothing { worlds, bound } => put_bound(writer, *worlds, *bound),
    }
}

// The run, in the manner of a witness.
fn put_moment<W: Write>(
    writer: &mut W,
    scenario: &Scenario,
    words: &[&str],
    run: &CertifiedRun,
    steps: u32,
) -> Result<(), WriteFault>
    ensures { Writes W.Write writer (moment_text (names_under scenario.now) (texts_of words.now)
        run.now steps) result }
{
    put(writer, b"fence-witness 1\nat ")?;
    put_words(writer, words)?;
    put_after(writer, steps)?;
    put_certified(writer, scenario, run)
}

// Each with a space behind it.
fn put_words<W: Write>(writer: &mut W, words: &[&str]) -> Result<(), WriteFault>
    ensures { Writes W.Write writer (flat_map (λ word. word ++ codes " ") (texts_of words.now))
        result }
{
    for word in words {
        put_word(writer, word.as_bytes())?;
    }
    Ok(())
}

fn put_word<W: Write>(writer: &mut W, word: &[u8]) -> Result<(), WriteFault>
    ensures { Writes W.Write writer (word.now ++ codes " ") result }
{
    put(writer, word)?;
    put(writer, b" ")
}

// That there is no such moment among so many worlds, and a line for each word that is never so.
fn put_nowhere<W: Write>(writer: &mut W, worlds: usize, unmet: &[&str]) -> Result<(), WriteFault>
    ensures { Writes W.Write writer (nowhere_text worlds (texts_of unmet.now)) result }
{
    put_never(writer, worlds)?;
    put_unmet(writer, unmet)
}

fn put_unmet<W: Write>(writer: &mut W, unmet: &[&str]) -> Result<(), WriteFault>
    ensures { Writes W.Write writer (flat_map unmet_line (texts_of unmet.now)) result }
{
    for word in unmet {
        put_unmet_line(writer, word.as_bytes())?;
    }
    Ok(())
}

#[tactic(auto, unfolding(pr_output::specs::Printed::printed_word))]
fn put_unmet_line<W: Write>(writer: &mut W, word: &[u8]) -> Result<(), WriteFault>
    ensures { Writes W.Write writer (unmet_line word.now) result }
{
    put_line(writer, Token::Text(b"unmet"), &[Token::Text(word)])
}
