//! Equal parts, and whether parts are equal.

ghost use Rattle.std.specs.Prelude.{◌≡◌, ◌<◌, ◌↔◌, ℕ, true, IsTrue, IfOk, length, map};
ghost use Rattle.pr_roles.specs.SafeRuns.{without_premises};
ghost use Rattle.pr_roles.specs.Scenarios.{is_shared_by, scenario_of, nexus_of, task_of};

use crate::parts::{Nexus, Parts, Start, Task};
use crate::role::{Clause, Role};
use pr_cdb::Command;
use pr_registry::Held;
use pr_script::Word;
use std::alloc::{AllocError, Global};

impl Parts {
    /// Equal ones.
    #[tactic(auto, unfolding(crate::specs::Scenarios::scenario_of))]
    pub fn copy(&self, alloc: Global) -> Result<Parts, AllocError>
        ensures { IfOk result (λ copy. scenario_of copy ≡ scenario_of self.now) }
    {
        Ok(Parts {
            version: self.version,
            keys: Vec::from_slice(alloc, &self.keys)?,
            reservations: Vec::from_slice(alloc, &self.reservations)?,
            generation: self.generation,
            resets: self.resets,
            early: self.early,
            nexuses: copied_nexuses(alloc, &self.nexuses)?,
        })
    }

    /// Those of the same scenario without two premises, as one of version 3: somebody else may send on each path, and the unit may
    /// report an attention before it looks at the reservation.
    #[tactic(auto, unfolding(crate::specs::Scenarios::scenario_of))]
    pub(crate) fn without_premises(&self, alloc: Global) -> Result<Parts, AllocError>
        ensures { IfOk result (λ it. scenario_of it ≡ without_premises (scenario_of self.now)) }
    {
        let mut parts = self.copy(alloc)?;
        parts.version = 3;
        parts.early = true;
        share_paths(&mut parts.nexuses);
        Ok(parts)
    }

    /// Whether the other parts are equal.
    #[tactic(auto, unfolding(crate::specs::Scenarios::scenario_of))]
    pub fn same(&self, other: &Parts) -> bool
        ensures { IsTrue result ↔ (scenario_of self.now ≡ scenario_of other.now) }
    {
        self.version == other.version
            && same_keys(&self.keys, &other.keys)
            && same_reservations(&self.reservations, &other.reservations)
            && self.generation == other.generation
            && self.resets == other.resets
            && self.early == other.early
            && same_nexuses(&self.nexuses, &other.nexuses)
            && same_paths(&self.nexuses, &other.nexuses)
    }
}

fn same_keys(keys: &[u64], others: &[u64]) -> bool
    ensures { IsTrue result ↔ (keys.now ≡ others.now) }
{
    keys == others
}

fn same_reservations(reservations: &[Option<Held>], others: &[Option<Held>]) -> bool
    ensures { IsTrue result ↔ (reservations.now ≡ others.now) }
{
    reservations == others
}

fn same_name(name: &Word, other: &Word) -> bool
    ensures { IsTrue result ↔ (name.now.bytes ≡ other.now.bytes) }
{
    name == other
}

fn same_clauses(clauses: &[Clause], others: &[Clause]) -> bool
    ensures { IsTrue result ↔ (clauses.now ≡ others.now) }
{
    clauses == others
}

fn same_alternatives(alternatives: &[Option<u64>], others: &[Option<u64>]) -> bool
    ensures { IsTrue result ↔ (alternatives.now ≡ others.now) }
{
    alternatives == others
}

fn same_commands(commands: &[Command], others: &[Command]) -> bool
    ensures { IsTrue result ↔ (commands.now ≡ others.now) }
{
    commands == others
}

fn copied_nexuses(alloc: Global, nexuses: &[Nexus]) -> Result<Vec<Nexus>, AllocError>
    ensures nexuses { IfOk result (λ copies. map nexus_of copies.items ≡ map nexus_of nexuses.now) }
    ensures paths { IfOk result (λ copies. map (λ n. n.shared) copies.items
        ≡ map (λ n. n.shared) nexuses.now) }
{
    let mut copies = Vec::with_capacity(alloc, nexuses.len())?;
    for nexus in nexuses {
        copies.push(nexus.copy(alloc)?)?;
    }
    Ok(copies)
}

// Has somebody else on each path.
fn share_paths(nexuses: &mut [Nexus])
    ensures nexuses { map nexus_of nexuses.new ≡ map nexus_of nexuses.old }
    ensures paths { (h : ℕ) → h < length nexuses.new
        → is_shared_by (map (λ n. n.shared) nexuses.new) h ≡ true }
{
    for i in 0..nexuses.len() {
        nexuses[i].shared = true;
    }
}

fn same_nexuses(nexuses: &[Nexus], others: &[Nexus]) -> bool
    ensures { IsTrue result ↔ (map nexus_of nexuses.now ≡ map nexus_of others.now) }
{
    if nexuses.len() != others.len() {
        return false;
    }
    for (i, nexus) in nexuses.iter().enumerate() {
        if !nexus.same(&others[i]) {
            return false;
        }
    }
    true
}

// Whether somebody else may send on the same paths.
fn same_paths(nexuses: &[Nexus], others: &[Nexus]) -> bool
    requires { length nexuses.now ≡ length others.now }
    ensures { IsTrue result ↔ (is_shared_by (map (λ n. n.shared) nexuses.now)
        ≡ is_shared_by (map (λ n. n.shared) others.now)) }
{
    for (i, nexus) in nexuses.iter().enumerate() {
        if nexus.shared != others[i].shared {
            return false;
        }
    }
    true
}

impl Nexus {
    /// An equal one.
    fn copy(&self, alloc: Global) -> Result<Nexus, AllocError>
        ensures nexus { IfOk result (λ copy. nexus_of copy ≡ nexus_of self.now) }
        ensures path { IfOk result (λ copy. copy.shared ≡ self.now.shared) }
    {
        Ok(Nexus {
            name: self.name,
            role: Role {
                clauses: Vec::from_slice(alloc, &self.role.clauses)?,
            },
            start: Start {
                alternatives: Vec::from_slice(alloc, &self.start.alternatives)?,
            },
            pending: self.pending.copy(),
            task: self.task.copy(alloc)?,
            busy: self.busy,
            full: self.full,
            shared: self.shared,
        })
    }

    /// Whether the other is equal.
    fn same(&self, other: &Nexus) -> bool
        ensures { IsTrue result ↔ (nexus_of self.now ≡ nexus_of other.now) }
    {
        same_name(&self.name, &other.name)
            && same_clauses(&self.role.clauses, &other.role.clauses)
            && same_alternatives(&self.start.alternatives, &other.start.alternatives)
            && self.pending == other.pending
            && self.task.same(&other.task)
            && self.busy == other.busy
            && self.full == other.full
    }
}

impl Task {
    /// An equal one.
    fn copy(&self, alloc: Global) -> Result<Task, AllocError>
        ensures { IfOk result (λ copy. task_of copy ≡ task_of self.now) }
    {
        match self {
            Task::Scripted { script, budget } => Ok(Task::Scripted {
                script: script.copy(alloc)?,
                budget: *budget,
            }),
            Task::Planned(commands) => Ok(Task::Planned(Vec::from_slice(alloc, commands)?)),
        }
    }

    /// Whether the other is equal.
    fn same(&self, other: &Task) -> bool
        ensures { IsTrue result ↔ (task_of self.now ≡ task_of other.now) }
    {
        match (self, other) {
            (
                Task::Scripted { script, budget },
                Task::Scripted {
                    script: other_script,
                    budget: other_budget,
                },
            ) => budget == other_budget && script.same(other_script),
            (Task::Planned(commands), Task::Planned(others)) => same_commands(commands, others),
            _ => false,
        }
    }
}
