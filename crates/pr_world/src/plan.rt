//! What is left of a guest's plan.

ghost use Rattle.std.specs.Prelude.{◌≡◌, ◌≤◌, length, IfOk};
ghost use Rattle.pr_roles.specs.declared.limits.TheConstants.{MOST_PLANNED};
ghost use Rattle.pr_world.specs.inside.Plans.{IsNext};

use pr_cdb::Command;
use std::alloc::{AllocError, Global};
use std::collections::VecDeque;

/// The commands that a guest has still to send, in order.
#[derive(Drop)]
pub(crate) struct Plan {
    commands: VecDeque<Command>,
    ghost short: { length commands.items ≤ MOST_PLANNED },
}

impl Plan {
    pub(crate) fn new(alloc: Global, commands: &[Command]) -> Result<Plan, AllocError>
        requires { length commands.now ≤ MOST_PLANNED }
        ensures { IfOk result (λ plan. plan.commands.items ≡ commands.now) }
    {
        Ok(Plan {
            commands: VecDeque::from_vec(Vec::from_slice(alloc, commands)?),
        })
    }

    /// Takes the next command out of the plan.
    pub(crate) fn next(&mut self) -> Option<Command>
        ensures { IsNext self.old.commands.items result self.new.commands.items }
    {
        self.commands.pop_front()
    }

    /// How many commands are left.
    pub(crate) fn left(&self) -> u32
        ensures { result ≡ length self.now.commands.items }
    {
        self.commands.len() as u32
    }
}
