//! Which version of texts a script needs.

ghost use Rattle.std.specs.Prelude.{◌≡◌, ◌&&◌, nat_le};
ghost use Rattle.pr_script.specs.Trees.{script_of, statement_of};
ghost use Rattle.pr_script.specs.inside.ArmLists.{arms_in};
ghost use Rattle.pr_script.specs.Versions.{since, is_statement_of, is_script_of, are_arms_of};

use crate::script::{Arm, Script, Statement, Test};

impl Test {
    /// The version of texts from which on there is an arm with this test: 1 or 2.
    pub fn since(self) -> u8
        ensures { result ≡ since self }
    {
        match self {
            Test::Busy | Test::Full => 2,
            _ => 1,
        }
    }
}

impl Script {
    /// Whether each arm is one that this version of texts has.
    pub fn is_of(&self, version: u8) -> bool
        ensures { result ≡ is_script_of version (script_of self.now) }
    {
        is_script_of(version, self)
    }
}

#[cycle(dating)]
fn is_script_of(version: u8, script: &Script) -> bool
    ensures { result ≡ is_script_of version (script_of script.now) }
{
    let mut are = true;
    for statement in &script.statements {
        are = are && is_statement_of(version, statement);
    }
    are
}

#[cycle(dating)]
fn is_statement_of(version: u8, statement: &Statement) -> bool
    ensures { result ≡ is_statement_of version (statement_of statement.now) }
{
    match statement {
        Statement::Send { arms, .. } => are_arms_of(version, arms),
        Statement::Repeat { body, .. } => is_script_of(version, body),
        Statement::Break => true,
        Statement::Stop(_) => true,
    }
}

#[cycle(dating)]
fn are_arms_of(version: u8, arms: &[Arm]) -> bool
    ensures { result ≡ are_arms_of version (arms_in arms.now) }
{
    let mut are = true;
    for arm in arms {
        are = are && is_arm_of(version, arm);
    }
    are
}

#[cycle(dating)]
fn is_arm_of(version: u8, arm: &Arm) -> bool
    ensures { result ≡ (nat_le (since arm.now.test) version
        && is_script_of version (script_of arm.now.body)) }
{
    arm.test.since() <= version && is_script_of(version, &arm.body)
}
