//! Scenarios that are safe by their type.

ghost use Rattle.std.specs.Prelude.{◌≡◌};
ghost use Rattle.pr_roles.specs.Scenarios.{on_shared_paths, scenario_of};
ghost use Rattle.pr_roles.specs.Safety.{IsSafe};

use crate::laws::shared_paths_are_no_safer;
use crate::scenario::Scenario;
use std::marker::Model;

/// A scenario that was verified: it is safe, and where somebody else may look at the disk by each path too.
#[derive(Drop)]
pub struct Verified {
    scenario: Scenario,
}

impl Model for Verified {
    ghost use Rattle.pr_roles.specs.contracts.scenario.Scenario as scenario_code;
    ghost use Rattle.pr_roles.specs.declared.parts.Parts.{Parts};
    ghost use Rattle.pr_roles.specs.Scenarios.{on_shared_paths, scenario_of};
    ghost use Rattle.pr_roles.specs.Safety.{IsSafe};

    ghost Value = { Parts };

    ghost coded = { scenario_code.the_row.coded };

    ghost view = { λ v. v.scenario };

    ghost invariant = { λ v. IsSafe (on_shared_paths (scenario_of v.scenario)) };
}

impl Verified {
    /// The scenario, which is safe, as one that was verified.
    pub fn of(scenario: Scenario) -> Self
        requires { IsSafe (on_shared_paths (scenario_of scenario)) }
        ensures { result ≡ scenario }
    {
        Verified { scenario }
    }

    /// The very scenario that was verified.
    pub fn scenario(&self) -> &Scenario
        ensures value { result.now ≡ self.now }
        ensures shared { IsSafe (on_shared_paths (scenario_of self.now)) }
        ensures safe { IsSafe (scenario_of self.now) }
    {
        shared_paths_are_no_safer();
        &self.scenario
    }
}
