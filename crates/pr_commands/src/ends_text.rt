//! The lines of ends that come together, and the text of a run that ends in one way.

ghost use Rattle.std.specs.Prelude.{◌≡◌, ◌++◌, ◌∷◌, [], codes, Some};
ghost use Rattle.std.specs.Fmt.{decimal};
ghost use Rattle.std.specs.List.{flat_map};
ghost use Rattle.pr_explore.specs.declared.endings.Together.{Together};
ghost use Rattle.pr_output.specs.PrintedLines.{line};
ghost use Rattle.pr_output.specs.Written.{Writes};
ghost use Rattle.pr_trace.specs.TraceText.{names_of, names_under};
ghost use Rattle.pr_commands.specs.EndsText.{bound_line, end_part, end_parts, ends_line, ends_text, found_text, last_line, sought_text};

use crate::witness_text::{name_at, put_certified};
use pr_audit::End;
use pr_output::{Token, WriteFault, put, put_line, put_number};
use pr_roles::{Nexus, Scenario};
use pr_witness::{Bound, CertifiedRun, Ends, Sought, Together};
use std::io::Write;

/// Writes which ends come together. On a fault, what went out is a front of it, and not all.
pub(crate) fn write_ends<W: Write>(
    writer: &mut W,
    scenario: &Scenario,
    ends: &Ends,
) -> Result<(), WriteFault>
    ensures { Writes W.Write writer (ends_text (names_under scenario.now) ends.now) result }
{
    put(writer, b"fence-ends 1\n")?;
    put_lines(writer, &scenario.parts().nexuses, &ends.together)?;
    put_last(writer, ends.are_all, ends.worlds, ends.bound)
}

// A line for all that come together.
fn put_lines<W: Write>(
    writer: &mut W,
    nexuses: &[Nexus],
    all: &[Together],
) -> Result<(), WriteFault>
    ensures { Writes W.Write writer (flat_map (λ (t : Together).
        ends_line (names_of nexuses.now) t.ends.items t.steps) all.now) result }
{
    for together in all {
        put_ends(writer, nexuses, &together.ends, together.steps)?;
    }
    Ok(())
}

// Each host with its end, and the steps.
fn put_ends<W: Write>(
    writer: &mut W,
    nexuses: &[Nexus],
    ends: &[End],
    steps: u32,
) -> Result<(), WriteFault>
    ensures { Writes W.Write writer (ends_line (names_of nexuses.now) ends.now steps) result }
{
    put_parts(writer, nexuses, ends)?;
    put_after(writer, steps)
}

fn put_parts<W: Write>(writer: &mut W, nexuses: &[Nexus], ends: &[End]) -> Result<(), WriteFault>
    ensures { Writes W.Write writer (end_parts (names_of nexuses.now) ends.now) result }
{
    for (host, end) in ends.iter().enumerate() {
        put_part(writer, name_at(nexuses, host), end)?;
    }
    Ok(())
}

// A host and its end; nothing of a guest.
fn put_part<W: Write>(writer: &mut W, name: &[u8], end: &End) -> Result<(), WriteFault>
    ensures { Writes W.Write writer (end_part name.now (Some end.now)) result }
{
    match end {
        End::Stopped(word) => put_stopped(writer, name, word.as_str().as_bytes()),
        End::Trapped(line) => put_trapped(writer, name, *line),
        End::Ready(_) | End::Left(_) => Ok(()),
    }
}

fn put_stopped<W: Write>(writer: &mut W, name: &[u8], word: &[u8]) -> Result<(), WriteFault>
    ensures { Writes W.Write writer (name.now ++ (codes " " ++ (word.now ++ codes " "))) result }
{
    put(writer, name)?;
    put(writer, b" ")?;
    put(writer, word)?;
    put(writer, b" ")
}

fn put_trapped<W: Write>(writer: &mut W, name: &[u8], line: u32) -> Result<(), WriteFault>
    ensures { Writes W.Write writer (name.now ++ (codes " trapped "
        ++ (decimal line ++ codes " "))) result }
{
    put(writer, name)?;
    put(writer, b" trapped ")?;
    put_number(writer, u64::from(line))?;
    put(writer, b" ")
}

#[tactic(auto, unfolding(pr_output::specs::Printed::printed_word))]
pub(crate) fn put_after<W: Write>(writer: &mut W, steps: u32) -> Result<(), WriteFault>
    ensures { Writes W.Write writer (line (codes "after") (decimal steps ∷ [])) result }
{
    put_line(
        writer,
        Token::Text(b"after"),
        &[Token::Number(u64::from(steps))],
    )
}

fn put_last<W: Write>(
    writer: &mut W,
    are_all: bool,
    worlds: usize,
    bound: Option<Bound>,
) -> Result<(), WriteFault>
    ensures { Writes W.Write writer (last_line are_all worlds bound) result }
{
    if are_all {
        put_all(writer, worlds)
    } else {
        put_bound(writer, worlds, bound)
    }
}

// That there are no others among so many worlds.
#[tactic(auto, unfolding(pr_output::specs::Printed::printed_word))]
fn put_all<W: Write>(writer: &mut W, worlds: usize) -> Result<(), WriteFault>
    ensures { Writes W.Write writer (line (codes "all") (decimal worlds ∷ codes "worlds" ∷ []))
        result }
{
    put_line(
        writer,
        Token::Text(b"all"),
        &[Token::Number(worlds as u64), Token::Text(b"worlds")],
    )
}

/// Writes the run that was asked for, that there is none, or the bound that was met. On a fault, what went out is a front of it,
/// and not all.
pub(crate) fn write_sought<W: Write>(
    writer: &mut W,
    scenario: &Scenario,
    sought: &Sought,
) -> Result<(), WriteFault>
    ensures { Writes W.Write writer (sought_text (names_under scenario.now) sought.now) result }
{
    match sought {
        Sought::Found { run, steps } => put_found(writer, scenario, run, *steps),
        Sought::Never { worlds } => put_never(writer, *worlds),
        Sought::Nothing { worlds, bound } => put_bound(writer, *worlds, *bound),
    }
}

// The run, in the manner of a witness.
fn put_found<W: Write>(
    writer: &mut W,
    scenario: &Scenario,
    run: &CertifiedRun,
    steps: u32,
) -> Result<(), WriteFault>
    ensures { Writes W.Write writer (found_text (names_under scenario.now) run.now steps)
        result }
{
    put(writer, b"fence-witness 1\nends ")?;
    put_ends(writer, &scenario.parts().nexuses, &run.ends, steps)?;
    put_certified(writer, scenario, run)
}

// That no run ends so, among so many worlds.
#[tactic(auto, unfolding(pr_output::specs::Printed::printed_word))]
pub(crate) fn put_never<W: Write>(writer: &mut W, worlds: usize) -> Result<(), WriteFault>
    ensures { Writes W.Write writer (line (codes "never") (decimal worlds ∷ [])) result }
{
    put_line(
        writer,
        Token::Text(b"never"),
        &[Token::Number(worlds as u64)],
    )
}

// The bound that was met, if one was, and how many worlds were looked at.
#[tactic(auto, unfolding(pr_output::specs::Printed::printed_word))]
pub(crate) fn put_bound<W: Write>(
    writer: &mut W,
    worlds: usize,
    bound: Option<Bound>,
) -> Result<(), WriteFault>
    ensures { Writes W.Write writer (bound_line worlds bound) result }
{
    let first = Token::Text(b"bound");
    let worlds = Token::Number(worlds as u64);
    match bound {
        None => put_line(writer, first, &[worlds]),
        Some(Bound::Worlds) => put_line(writer, first, &[Token::Text(b"worlds"), worlds]),
        Some(Bound::Depth) => put_line(writer, first, &[Token::Text(b"depth"), worlds]),
        Some(Bound::Memory) => put_line(writer, first, &[Token::Text(b"memory"), worlds]),
    }
}
