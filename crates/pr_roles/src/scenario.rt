//! Scenarios.

ghost use Rattle.std.specs.Prelude.{◌≡◌, ◌↔◌, Some, IsTrue, IfOk, IfErr, IsOk};
ghost use Rattle.pr_roles.specs.SafeRuns.{without_premises};
ghost use Rattle.pr_roles.specs.Scenarios.{scenario_of};
ghost use Rattle.pr_roles.specs.Fitting.{Fits};
ghost use Rattle.pr_roles.specs.Starts.{CanStart, IsAllowedStart};
ghost use Rattle.pr_roles.specs.FirstStarts.{first_state};

use crate::parts::Parts;
use pr_unit::Unit;
use std::alloc::{AllocError, Global};
use std::marker::Model;

/// A scenario: parts that fit each other, and can start.
#[derive(Drop)]
pub struct Scenario {
    parts: Parts,
}

impl Model for Scenario {
    ghost use Rattle.pr_roles.specs.contracts.parts.Parts as parts_code;
    ghost use Rattle.pr_roles.specs.declared.parts.Parts.{Parts};
    ghost use Rattle.pr_roles.specs.Scenarios.{scenario_of};
    ghost use Rattle.pr_roles.specs.Fitting.{Fits};
    ghost use Rattle.pr_roles.specs.Starts.{CanStart};

    ghost Value = { Parts };

    ghost coded = { parts_code.the_row.coded };

    ghost view = { λ s. s.parts };

    ghost invariant = { λ s. Fits (scenario_of s.parts) × CanStart (scenario_of s.parts) };
}

impl Scenario {
    /// The scenario with these parts, or the parts again where no state is allowed to start from.
    pub fn make(parts: Parts) -> Result<Self, Parts>
        requires { Fits (scenario_of parts) }
        ensures kept { IfOk result (λ scenario. scenario ≡ parts) }
        ensures returned { IfErr result (λ back. back ≡ parts) }
        ensures exactly { IsOk result ↔ CanStart (scenario_of parts) }
    {
        let can_start = parts.can_start();
        Scenario::starting(parts, can_start)
    }

    // The scenario with these parts where it can start, or the parts again.
    fn starting(parts: Parts, can_start: bool) -> Result<Self, Parts>
        requires fits { Fits (scenario_of parts) }
        requires told { IsTrue can_start ↔ CanStart (scenario_of parts) }
        ensures kept { IfOk result (λ scenario. scenario ≡ parts) }
        ensures returned { IfErr result (λ back. back ≡ parts) }
        ensures exactly { IsOk result ↔ CanStart (scenario_of parts) }
    {
        if can_start {
            Ok(Scenario { parts })
        } else {
            Err(parts)
        }
    }

    /// An equal one.
    pub fn copy(&self, alloc: Global) -> Result<Self, AllocError>
        ensures { IfOk result (λ copy. scenario_of copy ≡ scenario_of self.now) }
    {
        Ok(Scenario {
            parts: self.parts.copy(alloc)?,
        })
    }

    /// The same scenario without two premises, as one of version 3: somebody else may send on the path of each nexus, and the unit
    /// may report an attention before it looks at the reservation.
    pub fn without_premises(&self, alloc: Global) -> Result<Self, AllocError>
        ensures { IfOk result (λ it. scenario_of it ≡ without_premises (scenario_of self.now)) }
    {
        Ok(Scenario {
            parts: self.parts.without_premises(alloc)?,
        })
    }

    /// Whether the other is equal.
    pub fn same(&self, other: &Scenario) -> bool
        ensures { IsTrue result ↔ (scenario_of self.now ≡ scenario_of other.now) }
    {
        self.parts.same(&other.parts)
    }

    /// What the scenario declares.
    pub fn parts(&self) -> &Parts
        ensures value { result.now ≡ self.now }
        ensures fits { Fits (scenario_of self.now) }
        ensures starts { CanStart (scenario_of self.now) }
    {
        &self.parts
    }
}

/// The first start: nothing is pending, the generation is the written one, and the reservation is the first
/// of its alternatives that can be well formed. Each nexus is registered as the first of its alternatives
/// says, but that a single holder has its first key, and that where all registrants hold and nobody would be
/// registered, the first that can be is.
pub fn first_start(scenario: &Scenario) -> Unit
    ensures value { Some result ≡ first_state (scenario_of scenario.now) }
    ensures allowed { IsAllowedStart (scenario_of scenario.now) result }
{
    match scenario.parts.first_registry() {
        Some(registry) => Unit::of(registry),
        None => unreachable!(),
    }
}
