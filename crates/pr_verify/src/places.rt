//! The sends of a script, and where its arms lead.

ghost use Rattle.std.specs.Prelude.{◌≡◌, IfOk, OnOk};
ghost use Rattle.pr_script.specs.Trees.{script_of, statement_of, statements_in};
ghost use Rattle.pr_script.specs.inside.ArmLists.{arms_in};
ghost use Rattle.pr_verify.specs.Places.{places, places_in, places_of_arms, first_lines, lines_of, round, tests_of, next_of};
ghost use Rattle.pr_verify.specs.Outlines.{SendsFit};
ghost use Rattle.pr_verify.specs.inside.Lacking.{lines_after};
ghost use Rattle.pr_verify.specs.inside.Listing.{lines_in, AreInRange, AreSendsOf, HasMore};

use crate::head::{Head, head_in};
use pr_cdb::{Command, in_range};
use pr_script::{Arm, Landing, Script, Statement, Test};
use std::alloc::{AllocError, Global};

/// A send of a script.
#[derive(Drop)]
pub(crate) struct Spot {
    pub(crate) line: u32,
    pub(crate) command: Command,
    /// The test of each arm.
    pub(crate) tests: Vec<Test>,
    /// The lines at which the script may be ready once it took that arm.
    pub(crate) next: Vec<Vec<u32>>,
}

/// The sends of a script, in the order of their lines.
pub(crate) fn spots(alloc: Global, script: &Script) -> Result<Vec<Spot>, AllocError>
    ensures places { IfOk result (λ spots. AreSendsOf (script_of script.now) spots.items) }
    ensures fields { OnOk result (SendsFit (script_of script.now)) }
{
    let mut spots = Vec::new(alloc);
    list(alloc, &mut spots, &script.statements, &[], &[])?;
    Ok(spots)
}

/// The lines at which the script may be ready first.
pub(crate) fn first_lines(alloc: Global, script: &Script) -> Result<Vec<u32>, AllocError>
    ensures { IfOk result (λ lines. lines.items ≡ first_lines (script_of script.now)) }
{
    lines(alloc, head_in(&script.statements), &[], &[])
}

// The lines to which this leads, by those after it and those after a break.
fn lines(alloc: Global, head: Head, after: &[u32], broken: &[u32]) -> Result<Vec<u32>, AllocError>
    ensures { IfOk result (λ lines. lines.items ≡ lines_of head after.now broken.now) }
{
    match head {
        Head::Line(line) => Vec::from_slice(alloc, &[line]),
        Head::Falls => Vec::from_slice(alloc, after),
        Head::Breaks => Vec::from_slice(alloc, broken),
        Head::Stops => Ok(Vec::new(alloc)),
    }
}

// The lines that may come after the body of a repeat: the body's first ones, if it is run twice or more, and those past the repeat.
fn lines_round(
    alloc: Global,
    count: u32,
    body: &[Statement],
    past: &[u32],
) -> Result<Vec<u32>, AllocError>
    ensures { IfOk result (λ lines. lines.items ≡ round count (statements_in body.now) past.now) }
{
    if count < 2 {
        return Vec::from_slice(alloc, past);
    }
    let mut again = lines(alloc, head_in(body), past, past)?;
    again.extend_from_slice(past)?;
    Ok(again)
}

// The tests of the arms.
fn tests_in(alloc: Global, arms: &[Arm]) -> Result<Vec<Test>, AllocError>
    ensures { IfOk result (λ tests. tests.items ≡ tests_of (arms_in arms.now)) }
{
    let mut tests = Vec::with_capacity(alloc, arms.len())?;
    for arm in arms {
        tests.push(arm.test)?;
    }
    Ok(tests)
}

// The lines that may follow each arm.
fn next_in(
    alloc: Global,
    arms: &[Arm],
    after: &[u32],
    broken: &[u32],
) -> Result<Vec<Vec<u32>>, AllocError>
    ensures { IfOk result (λ next. lines_in next.items
        ≡ next_of (arms_in arms.now) after.now broken.now) }
{
    let mut next = Vec::with_capacity(alloc, arms.len())?;
    for arm in arms {
        next.push(lines(alloc, head_in(&arm.body.statements), after, broken)?)?;
    }
    Ok(next)
}

/// The lines at which the script may be ready after this landing, by those that may follow each arm.
pub(crate) fn lines_after(landing: Landing, next: &[Vec<u32>]) -> &[u32]
    ensures { result.now ≡ lines_after (lines_in next.now) landing }
{
    match landing {
        Landing::Arm(arm) if arm < next.len() => &next[arm],
        _ => &[],
    }
}

// Adds the sends among the statements, by the lines after them and those after a break.
#[cycle(list)]
fn list(
    alloc: Global,
    spots: &mut Vec<Spot>,
    statements: &[Statement],
    after: &[u32],
    broken: &[u32],
) -> Result<(), AllocError>
    ensures listed { OnOk result (HasMore spots.old.items spots.new.items
        (places (statements_in statements.now) after.now broken.now)) }
    ensures fields { OnOk result (AreInRange spots.old.items → AreInRange spots.new.items) }
{
    for (i, statement) in statements.iter().enumerate() {
        let next = lines(alloc, head_in(&statements[i + 1..]), after, broken)?;
        list_at(alloc, spots, statement, &next, broken)?;
    }
    Ok(())
}

#[cycle(list)]
fn list_at(
    alloc: Global,
    spots: &mut Vec<Spot>,
    statement: &Statement,
    after: &[u32],
    broken: &[u32],
) -> Result<(), AllocError>
    ensures listed { OnOk result (HasMore spots.old.items spots.new.items
        (places_in (statement_of statement.now) after.now broken.now)) }
    ensures fields { OnOk result (AreInRange spots.old.items → AreInRange spots.new.items) }
{
    match statement {
        Statement::Send {
            line,
            command,
            arms,
        } => {
            in_range(*command);
            spots.push(Spot {
                line: *line,
                command: *command,
                tests: tests_in(alloc, arms)?,
                next: next_in(alloc, arms, after, broken)?,
            })?;
            list_arms(alloc, spots, arms, after, broken)
        }
        Statement::Repeat { count, body } => {
            let around = lines_round(alloc, *count, &body.statements, after)?;
            list(alloc, spots, &body.statements, &around, after)
        }
        Statement::Break => Ok(()),
        Statement::Stop(_) => Ok(()),
    }
}

#[cycle(list)]
fn list_arms(
    alloc: Global,
    spots: &mut Vec<Spot>,
    arms: &[Arm],
    after: &[u32],
    broken: &[u32],
) -> Result<(), AllocError>
    ensures listed { OnOk result (HasMore spots.old.items spots.new.items
        (places_of_arms (arms_in arms.now) after.now broken.now)) }
    ensures fields { OnOk result (AreInRange spots.old.items → AreInRange spots.new.items) }
{
    for arm in arms {
        list(alloc, spots, &arm.body.statements, after, broken)?;
    }
    Ok(())
}
