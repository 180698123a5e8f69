//! How deep a script nests.
//!
//! No command of the program asks for it: it is for who makes a script otherwise than by reading a text.

ghost use Rattle.std.specs.Prelude.{◌≡◌, ◌+◌, min};
ghost use Rattle.pr_script.specs.declared.limits.TheConstants.{MOST_OPEN};
ghost use Rattle.pr_script.specs.Trees.{script_of, statement_of};
ghost use Rattle.pr_script.specs.inside.ArmLists.{arms_in};
ghost use Rattle.pr_script.specs.Depths.{depth_of, depth_of_all, depth_of_arms};

use crate::limits::MOST_OPEN;
use crate::script::{Arm, Script, Statement};

// One more than the most repeats that may be open at once.
const OVER: u8 = MOST_OPEN as u8 + 1;

/// The most repeats of the script that are open at once, or 9 where that is above 8. A machine asks for at
/// most 8.
#[cycle(depth)]
pub fn repeat_depth(script: &Script) -> u8
    ensures { result ≡ min (MOST_OPEN + 1) (depth_of_all (script_of script.now)) }
{
    let mut most = 0;
    for statement in &script.statements {
        most = statement_depth(statement).max(most);
    }
    most
}

#[cycle(depth)]
fn statement_depth(statement: &Statement) -> u8
    ensures { result ≡ min (MOST_OPEN + 1) (depth_of (statement_of statement.now)) }
{
    match statement {
        Statement::Send { arms, .. } => arms_depth(arms),
        Statement::Repeat { body, .. } => (1 + repeat_depth(body)).min(OVER),
        Statement::Break => 0,
        Statement::Stop(_) => 0,
    }
}

#[cycle(depth)]
fn arms_depth(arms: &[Arm]) -> u8
    ensures { result ≡ min (MOST_OPEN + 1) (depth_of_arms (arms_in arms.now)) }
{
    let mut most = 0;
    for arm in arms {
        most = repeat_depth(&arm.body).max(most);
    }
    most
}
