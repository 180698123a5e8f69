//! How many statements a script has, and the order of its sends' lines.
//!
//! What is asked of the order of lines, `Script::fits` alone asks, which no command of the program calls.

ghost use Rattle.std.specs.Prelude.{◌≡◌, ◌+◌, min, nat_le};
ghost use Rattle.pr_script.specs.declared.limits.TheConstants.{MOST_STATEMENTS};
ghost use Rattle.pr_script.specs.Trees.{script_of, statement_of};
ghost use Rattle.pr_script.specs.inside.ArmLists.{arms_in};
ghost use Rattle.pr_script.specs.Grammar.{count_of, count_of_all, count_in_arms, lines_of, lines_of_all, lines_of_arms, rise_above};
ghost use Rattle.pr_script.specs.inside.Climbs.{last_of_climb};

use crate::limits::MOST_STATEMENTS;
use crate::script::{Arm, Script, Statement};

/// Whether the script has at most 512 statements, those in arms and bodies among them.
pub(crate) fn is_short(script: &Script) -> bool
    ensures { result ≡ nat_le (count_of_all (script_of script.now)) MOST_STATEMENTS }
{
    count(script) <= MOST_STATEMENTS
}

// How many statements there are, or one more than the most where there are more.
#[cycle(count)]
fn count(script: &Script) -> u32
    ensures { result ≡ min (MOST_STATEMENTS + 1) (count_of_all (script_of script.now)) }
{
    let mut total = 0;
    for statement in &script.statements {
        total = (total + statement_count(statement)).min(MOST_STATEMENTS + 1);
    }
    total
}

#[cycle(count)]
fn statement_count(statement: &Statement) -> u32
    ensures { result ≡ min (MOST_STATEMENTS + 1) (count_of (statement_of statement.now)) }
{
    match statement {
        Statement::Send { arms, .. } => (1 + arms_count(arms)).min(MOST_STATEMENTS + 1),
        Statement::Repeat { body, .. } => (1 + count(body)).min(MOST_STATEMENTS + 1),
        Statement::Break => 1,
        Statement::Stop(_) => 1,
    }
}

#[cycle(count)]
fn arms_count(arms: &[Arm]) -> u32
    ensures { result ≡ min (MOST_STATEMENTS + 1) (count_in_arms (arms_in arms.now)) }
{
    let mut total = 0;
    for arm in arms {
        total = (total + count(&arm.body)).min(MOST_STATEMENTS + 1);
    }
    total
}

/// Whether the lines of the sends rise from 1 on, in the order in which they are written.
pub(crate) fn lines_rise(script: &Script) -> bool
    ensures { result ≡ rise_above 0 (lines_of_all (script_of script.now)) }
{
    last_line(0, script).is_some()
}

// The line of the last send where each is above the one before it, and the first above this.
#[cycle(lines)]
fn last_line(line: u32, script: &Script) -> Option<u32>
    ensures { result ≡ last_of_climb line (lines_of_all (script_of script.now)) }
{
    let mut last = line;
    for statement in &script.statements {
        last = last_statement_line(last, statement)?;
    }
    Some(last)
}

#[cycle(lines)]
fn last_statement_line(last: u32, statement: &Statement) -> Option<u32>
    ensures { result ≡ last_of_climb last (lines_of (statement_of statement.now)) }
{
    match statement {
        Statement::Send { line, arms, .. } => {
            if *line <= last {
                return None;
            }
            last_arm_line(*line, arms)
        }
        Statement::Repeat { body, .. } => last_line(last, body),
        Statement::Break => Some(last),
        Statement::Stop(_) => Some(last),
    }
}

#[cycle(lines)]
fn last_arm_line(line: u32, arms: &[Arm]) -> Option<u32>
    ensures { result ≡ last_of_climb line (lines_of_arms (arms_in arms.now)) }
{
    let mut last = line;
    for arm in arms {
        last = last_line(last, &arm.body)?;
    }
    Some(last)
}
