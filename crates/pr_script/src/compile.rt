//! How a script is compiled into a table of instructions.

ghost use Rattle.std.specs.Prelude.{◌≤◌, IfOk, length};
ghost use Rattle.pr_script.specs.Trees.{statement_of, statements_in};
ghost use Rattle.pr_script.specs.inside.ArmLists.{arms_in};
ghost use Rattle.pr_script.specs.inside.Program.{IsTable};
ghost use Rattle.pr_script.specs.inside.Compiled.{IsCompiled, IsStepCompiled, AreArmsCompiled};

use crate::rows::{ArmTarget, Instruction, Operation};
use crate::script::{Arm, Statement};
use std::alloc::{AllocError, Global};

/// Compiles the statements, which go on with the place `next`, and answers the place of the first.
#[cycle(compile)]
pub(crate) fn compile(
    alloc: Global,
    rows: &mut Vec<Instruction>,
    statements: &[Statement],
    next: usize,
) -> Result<usize, AllocError>
    requires table { IsTable rows.old.items }
    requires within { next ≤ length rows.old.items }
    ensures { IfOk result (λ first. IsCompiled rows.old.items rows.new.items
        (statements_in statements.now) next first) }
{
    let mut place = next;
    for i in (0..statements.len()).rev() {
        let step = compile_step(alloc, rows, &statements[i], place)?;
        rows.push(Instruction { step, next: place })?;
        place = rows.len();
    }
    Ok(place)
}

#[cycle(compile)]
fn compile_step(
    alloc: Global,
    rows: &mut Vec<Instruction>,
    statement: &Statement,
    next: usize,
) -> Result<Operation, AllocError>
    requires table { IsTable rows.old.items }
    requires within { next ≤ length rows.old.items }
    ensures { IfOk result (λ step. IsStepCompiled rows.old.items rows.new.items
        (statement_of statement.now) next step) }
{
    match statement {
        Statement::Send {
            line,
            command,
            arms,
        } => {
            let arms = compile_arms(alloc, rows, arms, next)?;
            Ok(Operation::Send {
                line: *line,
                command: *command,
                arms,
            })
        }
        Statement::Repeat { count, body } => {
            let body = compile(alloc, rows, &body.statements, 0)?;
            Ok(Operation::Repeat {
                count: *count,
                body,
            })
        }
        Statement::Break => Ok(Operation::Break),
        Statement::Stop(word) => Ok(Operation::Stop(*word)),
    }
}

#[cycle(compile)]
fn compile_arms(
    alloc: Global,
    rows: &mut Vec<Instruction>,
    arms: &[Arm],
    next: usize,
) -> Result<Vec<ArmTarget>, AllocError>
    requires table { IsTable rows.old.items }
    requires within { next ≤ length rows.old.items }
    ensures { IfOk result (λ jumps. AreArmsCompiled rows.old.items rows.new.items (arms_in arms.now)
        next jumps.items) }
{
    let mut jumps = Vec::with_capacity(alloc, arms.len())?;
    for arm in arms {
        let place = compile(alloc, rows, &arm.body.statements, next)?;
        jumps.push(ArmTarget {
            test: arm.test,
            place,
        })?;
    }
    Ok(jumps)
}
