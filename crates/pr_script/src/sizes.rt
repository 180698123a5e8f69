//! A bound on the commands that a script sends.

ghost use Rattle.std.specs.Prelude.{◌≡◌, ◌+◌, min};
ghost use Rattle.pr_script.specs.declared.limits.TheConstants.{MOST_BUDGET};
ghost use Rattle.pr_script.specs.Trees.{script_of, statement_of};
ghost use Rattle.pr_script.specs.inside.ArmLists.{arms_in};
ghost use Rattle.pr_script.specs.Costs.{cost_of, cost_of_all, greatest};

use crate::limits::MOST_BUDGET;
use crate::script::{Arm, Script, Statement};

// One more than the greatest budget.
const OVER: u64 = MOST_BUDGET as u64 + 1;

/// A bound on the commands that the script sends, whatever the replies are. Past 4,096 it is not counted
/// on, and the answer is 4,097.
#[cycle(cost)]
pub fn cost(script: &Script) -> u64
    ensures { result ≡ min (MOST_BUDGET + 1) (cost_of_all (script_of script.now)) }
{
    let mut total = 0;
    for statement in &script.statements {
        total = (total + statement_cost(statement)).min(OVER);
    }
    total
}

#[cycle(cost)]
fn statement_cost(statement: &Statement) -> u64
    ensures { result ≡ min (MOST_BUDGET + 1) (cost_of (statement_of statement.now)) }
{
    match statement {
        Statement::Send { arms, .. } => (1 + greatest_cost(arms)).min(OVER),
        Statement::Repeat { count, body } => (u64::from(*count) * cost(body)).min(OVER),
        Statement::Break => 0,
        Statement::Stop(_) => 0,
    }
}

#[cycle(cost)]
fn greatest_cost(arms: &[Arm]) -> u64
    ensures { result ≡ min (MOST_BUDGET + 1) (greatest (arms_in arms.now)) }
{
    let mut most = 0;
    for arm in arms {
        most = cost(&arm.body).max(most);
    }
    most
}
