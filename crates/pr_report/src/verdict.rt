//! The text of a verdict.

ghost use Rattle.std.specs.Prelude.{◌≡◌, ◌∷◌, [], codes};
ghost use Rattle.std.specs.Fmt.{decimal};
ghost use Rattle.pr_report.specs.inside.WordsWritten.{WritesRefusal};
ghost use Rattle.pr_output.specs.Written.{Writes};
ghost use Rattle.pr_output.specs.Printed.{printed_words};
ghost use Rattle.pr_output.specs.PrintedLines.{class_word, line};
ghost use Rattle.pr_trace.specs.TraceText.{names_of, names_under};
ghost use Rattle.pr_report.specs.Verdicts.{IsReason, IsVerdict, is_refusal, no_arm_words, over_budget_words, place_words, reason_words, searched_words, verdict_text};

use pr_output::{Token, WriteFault, put_line};
use pr_roles::{Nexus, Refusal, Scenario};
use pr_script::Class;
use pr_trace::name_of;
use std::io::Write;

/// What a check of a scenario comes to, or an audit of a history of it.
#[derive(Clone, Copy, Debug, PartialEq, Eq)]
pub enum Verdict {
    /// The scenario is safe.
    Accepted,

    /// It is safe by a search through so many worlds, which are all that can come up.
    AcceptedBySearch { worlds: usize },

    /// A script is refused, for this reason.
    Refused(Refusal),

    /// The history is legal, and has so many items.
    Legal { items: usize },

    /// The item at this place, counted from 1, is the first that isn't legal.
    Illegal { place: usize },
}

impl Verdict {
    /// Whether it answers no: a script is refused, or a history is illegal.
    pub fn is_refusal(&self) -> bool
        ensures { result ≡ is_refusal self.now }
    {
        match self {
            Verdict::Accepted | Verdict::AcceptedBySearch { .. } | Verdict::Legal { .. } => false,
            Verdict::Refused(_) | Verdict::Illegal { .. } => true,
        }
    }
}

/// Writes the line of a verdict; that memory was refused is none. On a fault, what went out is a front of the line, and
/// not all.
pub fn write_verdict<W: Write>(
    writer: &mut W,
    scenario: &Scenario,
    verdict: &Verdict,
) -> Result<(), WriteFault>
    requires { IsVerdict verdict.now }
    ensures { Writes W.Write writer (verdict_text (names_under scenario.now) verdict.now) result }
{
    match verdict {
        Verdict::Accepted => put_line(writer, Token::Text(b"accepted"), &[]),
        Verdict::AcceptedBySearch { worlds } => put_searched(writer, *worlds),
        Verdict::Refused(refusal) => put_reason(writer, &scenario.parts().nexuses, *refusal),
        Verdict::Legal { items } => put_counted(writer, b"legal", *items),
        Verdict::Illegal { place } => put_counted(writer, b"illegal", *place),
    }
}

// That a search through so many worlds accepts.
#[tactic(auto, unfolding(pr_output::specs::Printed::printed_word))]
fn put_searched<W: Write>(writer: &mut W, worlds: usize) -> Result<(), WriteFault>
    ensures { Writes W.Write writer (line (codes "accepted") (searched_words worlds)) result }
{
    put_line(
        writer,
        Token::Text(b"accepted"),
        &[
            Token::Text(b"by"),
            Token::Text(b"search"),
            Token::Number(worlds as u64),
        ],
    )
}

// The line of a word and a number.
#[tactic(auto, unfolding(pr_output::specs::Printed::printed_word))]
fn put_counted<W: Write>(writer: &mut W, word: &[u8], number: usize) -> Result<(), WriteFault>
    ensures { Writes W.Write writer (line word.now (decimal number ∷ [])) result }
{
    put_line(writer, Token::Text(word), &[Token::Number(number as u64)])
}

fn put_reason<W: Write>(
    writer: &mut W,
    nexuses: &[Nexus],
    refusal: Refusal,
) -> Result<(), WriteFault>
    requires { IsReason refusal }
    ensures { WritesRefusal W.Write writer (reason_words (names_of nexuses.now) refusal) result }
{
    match refusal {
        Refusal::NoArm { host, line, class } => {
            put_no_arm(writer, name_of(nexuses, usize::from(host)), line, class)
        }
        Refusal::OutOfRole { host, line } => {
            put_place(
                writer,
                b"OutOfRole",
                name_of(nexuses, usize::from(host)),
                line,
            )
        }
        Refusal::OverBudget { host, cost } => {
            put_over_budget(writer, name_of(nexuses, usize::from(host)), cost)
        }
        Refusal::NotSound { host, line } => {
            put_place(
                writer,
                b"NotSound",
                name_of(nexuses, usize::from(host)),
                line,
            )
        }
        Refusal::Memory => unreachable!(),
    }
}

#[tactic(auto, unfolding(pr_output::specs::Printed::printed_word))]
fn put_no_arm<W: Write>(
    writer: &mut W,
    name: &[u8],
    line: u32,
    class: Class,
) -> Result<(), WriteFault>
    ensures { WritesRefusal W.Write writer (no_arm_words name.now line (class_word class)) result }
{
    put_refused(
        writer,
        &[
            Token::Text(b"NoArm"),
            Token::Text(b"host"),
            Token::Text(name),
            Token::Text(b"line"),
            Token::Number(u64::from(line)),
            Token::Text(b"reply"),
            Token::Class(class),
        ],
    )
}

#[tactic(auto, unfolding(pr_output::specs::Printed::printed_word))]
fn put_place<'a, W: Write>(
    writer: &mut W,
    reason: &'a [u8],
    name: &'a [u8],
    line: u32,
) -> Result<(), WriteFault>
    ensures { WritesRefusal W.Write writer (place_words reason.now name.now line) result }
{
    put_refused(
        writer,
        &[
            Token::Text(reason),
            Token::Text(b"host"),
            Token::Text(name),
            Token::Text(b"line"),
            Token::Number(u64::from(line)),
        ],
    )
}

#[tactic(auto, unfolding(pr_output::specs::Printed::printed_word))]
fn put_over_budget<W: Write>(writer: &mut W, name: &[u8], cost: u64) -> Result<(), WriteFault>
    ensures { WritesRefusal W.Write writer (over_budget_words name.now cost) result }
{
    put_refused(
        writer,
        &[
            Token::Text(b"OverBudget"),
            Token::Text(b"host"),
            Token::Text(name),
            Token::Text(b"cost"),
            Token::Number(cost),
        ],
    )
}

// The line with these words after the first.
#[tactic(auto, unfolding(pr_output::specs::Printed::printed_word))]
fn put_refused<W: Write>(writer: &mut W, words: &[Token<'_>]) -> Result<(), WriteFault>
    ensures { WritesRefusal W.Write writer (printed_words words.now) result }
{
    put_line(writer, Token::Text(b"refused"), words)
}
