//! What each script costs.

ghost use Rattle.std.specs.Prelude.{◌≡◌, map, IfOk};
ghost use Rattle.pr_roles.specs.Scenarios.{task_of};
ghost use Rattle.pr_explain.specs.Costs.{cost_of};

use pr_roles::{Nexus, Task};
use std::alloc::{AllocError, Global};

/// What a script costs, and its budget.
#[derive(Clone, Copy, Debug, PartialEq, Eq)]
pub struct Cost {
    /// A bound on the commands that it sends; 4,097 stands for that many and more.
    pub cost: u64,
    pub budget: u32,
}

/// Of each nexus that has a script, what that costs.
pub fn costs(alloc: Global, nexuses: &[Nexus]) -> Result<Vec<Option<Cost>>, AllocError>
    ensures { IfOk result (λ costs. costs.items ≡ map (λ n. cost_of (task_of n.task)) nexuses.now) }
{
    // (by pushes: where its first request for memory is refused, `collect` goes on by others, and nobody is told)
    let mut costs = Vec::new(alloc);
    for nexus in nexuses {
        costs.push(cost_of(&nexus.task))?;
    }
    Ok(costs)
}

fn cost_of(task: &Task) -> Option<Cost>
    ensures { result ≡ cost_of (task_of task.now) }
{
    match task {
        Task::Scripted { script, budget } => Some(Cost {
            cost: pr_script::cost(script),
            budget: *budget,
        }),
        Task::Planned(_) => None,
    }
}
