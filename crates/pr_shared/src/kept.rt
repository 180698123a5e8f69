//! What is kept beside the lock.

ghost use Rattle.std.specs.Prelude.{◌≡◌, IfOk, length, vec_len, vec_capacity};
ghost use Rattle.pr_roles.specs.Scenarios.{scenario_of};

use pr_audit::End;
use pr_roles::{Entry, Scenario};
use std::alloc::{AllocError, Global};

/// What is kept beside the lock, so that closing takes no memory: a copy of the scenario, and empty lists with room for one
/// item for each nexus.
#[derive(Drop)]
pub(crate) struct Kept {
    pub(crate) scenario: Scenario,
    pub(crate) mine: Vec<Vec<Entry>>,
    pub(crate) ends: Vec<End>,
    ghost no_mine: { vec_len mine ≡ 0 },
    ghost room_for_mine: { vec_capacity mine ≡ length (scenario_of scenario).nexuses },
    ghost no_ends: { vec_len ends ≡ 0 },
    ghost room_for_ends: { vec_capacity ends ≡ length (scenario_of scenario).nexuses },
}

impl Kept {
    pub(crate) fn of(alloc: Global, scenario: &Scenario) -> Result<Kept, AllocError>
        ensures { IfOk result (λ kept. scenario_of kept.scenario ≡ scenario_of scenario.now) }
    {
        let nexuses = scenario.parts().nexuses.len();
        Ok(Kept {
            scenario: scenario.copy(alloc)?,
            mine: Vec::with_capacity(alloc, nexuses)?,
            ends: Vec::with_capacity(alloc, nexuses)?,
        })
    }
}
