//! How many rows a script has.

ghost use Rattle.std.specs.Prelude.{◌≡◌, ◌+◌, min};
ghost use Rattle.pr_script.specs.Trees.{script_of, statement_of};
ghost use Rattle.pr_script.specs.inside.ArmLists.{arms_in};
ghost use Rattle.pr_table.specs.Rows.{row_count, row_count_of_all, row_count_of_arms};
ghost use Rattle.pr_table.specs.declared.counts.TheConstants.{MOST_ROWS};

use pr_script::limits::MOST_STATEMENTS;
use pr_script::{Arm, Script, Statement};

/// The most rows of a script that a text may have, but for the last one, its end: two for each statement.
pub(crate) const MOST_ROWS: u32 = 2 * MOST_STATEMENTS;

/// How many rows the script has, but for its end, or one more than the most where there are more.
#[cycle(count)]
pub(crate) fn row_count_of_all(script: &Script) -> u32
    ensures { result ≡ min (MOST_ROWS + 1) (row_count_of_all (script_of script.now)) }
{
    let mut total = 0;
    for statement in &script.statements {
        total = (total + row_count(statement)).min(MOST_ROWS + 1);
    }
    total
}

/// The same of a statement.
#[cycle(count)]
pub(crate) fn row_count(statement: &Statement) -> u32
    ensures { result ≡ min (MOST_ROWS + 1) (row_count (statement_of statement.now)) }
{
    match statement {
        Statement::Send { arms, .. } => (1 + row_count_of_arms(arms)).min(MOST_ROWS + 1),
        Statement::Repeat { body, .. } => (2 + row_count_of_all(body)).min(MOST_ROWS + 1),
        Statement::Break => 1,
        Statement::Stop(_) => 1,
    }
}

#[cycle(count)]
fn row_count_of_arms(arms: &[Arm]) -> u32
    ensures { result ≡ min (MOST_ROWS + 1) (row_count_of_arms (arms_in arms.now)) }
{
    let mut total = 0;
    for arm in arms {
        total = (total + row_count_of_all(&arm.body)).min(MOST_ROWS + 1);
    }
    total
}
