//! Which parts make a scenario.
//!
//! `Parts::fits`, with what belongs to it, is for who makes a scenario otherwise than by reading a text, and `are_declared` for who
//! makes a view of keys of his own. No command of the program calls them.

ghost use Rattle.std.specs.Prelude.{◌≡◌, ◌&&◌, ◌↔◌, ◌<◌, ◌≤◌, IsTrue, length, map, bytes_eq};
ghost use Rattle.std.specs.List.{All, list_all, list_any};
ghost use Rattle.pr_registry.specs.Registrations.{IsKey};
ghost use Rattle.pr_script.specs.Grammar.{is_written};
ghost use Rattle.pr_roles.specs.Scenarios.{scenario_of, nexus_of, task_of};
ghost use Rattle.pr_roles.specs.Fitting.{AreDeclared, Fits, are_distinct, is_action, is_role, is_alternative, is_same_alternative, is_start, is_task, is_nexus, is_reservation, are_reservations, are_nexuses, is_version, is_count, are_resets, is_order, is_task_of, are_of};

use crate::limits::{
    MOST_CLAUSES, MOST_KEYS, MOST_PLANNED, MOST_REFUSALS, MOST_RESETS, most_declared,
};
use crate::parts::{Nexus, Parts, Start, Task};
use crate::role::{Action, Clause, Role};
use crate::uniqueness::{are_distinct, are_held_apart};
use pr_cdb::Command;
use pr_registry::{Held, is_all};
use pr_script::limits::MOST_BUDGET;
use pr_script::{is_declared, is_name, is_written, is_written_key};

impl Parts {
    /// Whether the parts can be those of a text: every limit is kept, keys are not zero and each that is
    /// written is declared, names differ, reservations have holders that are there, scripts follow the
    /// grammar of statements, with sends whose lines rise, and nothing is there that came after the version.
    #[tactic(auto, unfolding(crate::specs::Scenarios::scenario_of), using(crate::proofs::lemmas::Fitting::DistinctLists::length_of_parts))]
    pub fn fits(&self) -> bool
        ensures { IsTrue result ↔ Fits (scenario_of self.now) }
    {
        is_version(self.version)
            && are_of(self.version, &self.nexuses)
            && are_resets(self.version, self.resets)
            && is_order(self.version, self.early)
            && are_declared(&self.keys)
            && are_reservations(self.nexuses.len(), &self.reservations)
            && are_nexuses(self.version, &self.keys, &self.nexuses)
    }
}

fn is_version(version: u8) -> bool
    ensures { result ≡ is_version version }
{
    version == 1 || version == 2 || version == 3
}

fn is_count(version: u8, count: u32) -> bool
    ensures { result ≡ is_count version count }
{
    count == 0 || (version >= 2 && count <= MOST_REFUSALS)
}

fn are_resets(version: u8, resets: u32) -> bool
    ensures { result ≡ are_resets version resets }
{
    resets == 0 || (version >= 2 && resets <= MOST_RESETS)
}

fn is_order(version: u8, early: bool) -> bool
    ensures { result ≡ is_order version early }
{
    !early || version > 2
}

// What this version of texts has.
#[tactic(auto, using(crate::proofs::lemmas::Fitting::DistinctLists::all_of_parts))]
fn are_of(version: u8, nexuses: &[Nexus]) -> bool
    ensures { result ≡ are_of version (map nexus_of nexuses.now) }
{
    are_all_of(version, nexuses)
}

fn are_all_of(version: u8, nexuses: &[Nexus]) -> bool
    ensures { result ≡ list_all (λ n. is_count version n.busy
        && (is_count version n.full && is_task_of version (task_of n.task))) nexuses.now }
{
    nexuses.iter().all(|nexus| is_of(version, nexus))
}

fn is_of(version: u8, nexus: &Nexus) -> bool
    ensures { result ≡ (is_count version nexus.now.busy
        && (is_count version nexus.now.full && is_task_of version (task_of nexus.now.task))) }
{
    is_count(version, nexus.busy)
        && is_count(version, nexus.full)
        && is_task_of(version, &nexus.task)
}

// No arm that came with a later version.
fn is_task_of(version: u8, task: &Task) -> bool
    ensures { result ≡ is_task_of version (task_of task.now) }
{
    match task {
        Task::Scripted { script, .. } => script.is_of(version),
        Task::Planned(_) => true,
    }
}

/// Whether a scenario can declare these keys: none is zero, each stands once, and there are no more than
/// [`MOST_KEYS`](crate::limits::MOST_KEYS).
pub fn are_declared(keys: &[u64]) -> bool
    ensures { IsTrue result ↔ AreDeclared keys.now }
{
    are_keys(keys) && keys.len() <= MOST_KEYS && are_distinct(keys)
}

// A key is not zero, and has 64 bits.
fn are_keys(keys: &[u64]) -> bool
    ensures { IsTrue result ↔ All IsKey keys.now }
{
    for key in keys {
        if *key == 0 {
            return false;
        }
    }
    true
}

fn are_reservations(hosts: usize, reservations: &[Option<Held>]) -> bool
    ensures { result ≡ are_reservations hosts reservations.now }
{
    !reservations.is_empty() && are_all_held(hosts, reservations) && are_held_apart(reservations)
}

fn are_all_held(hosts: usize, reservations: &[Option<Held>]) -> bool
    ensures { result ≡ list_all (is_reservation hosts) reservations.now }
{
    reservations.iter().all(|held| is_reservation(hosts, *held))
}

// The type belongs to its holders, and a single holder is there.
fn is_reservation(hosts: usize, held: Option<Held>) -> bool
    ensures { result ≡ is_reservation hosts held }
{
    match held {
        None => true,
        Some(Held::One(kind, host)) => !is_all(kind) && usize::from(host) < hosts,
        Some(Held::All(kind)) => is_all(kind),
    }
}

#[tactic(auto, using(crate::proofs::lemmas::Fitting::DistinctLists::all_of_parts, crate::proofs::lemmas::Fitting::DistinctLists::names_of_parts, crate::proofs::lemmas::Fitting::DistinctLists::length_of_parts))]
fn are_nexuses(version: u8, keys: &[u64], nexuses: &[Nexus]) -> bool
    ensures { result ≡ are_nexuses version keys.now (map nexus_of nexuses.now) }
{
    !nexuses.is_empty()
        && nexuses.len() <= most_declared(version)
        && are_named_apart(nexuses)
        && are_whole(keys, nexuses)
}

fn are_whole(keys: &[u64], nexuses: &[Nexus]) -> bool
    ensures { result ≡ list_all (λ nexus. is_nexus keys.now (nexus_of nexus)) nexuses.now }
{
    nexuses.iter().all(|nexus| is_nexus(keys, nexus))
}

// No two have the same name.
fn are_named_apart(nexuses: &[Nexus]) -> bool
    ensures { result ≡ are_distinct bytes_eq (map (λ n. n.name.bytes) nexuses.now) }
{
    let mut rest = nexuses;
    while let Some((first, others)) = rest.split_first() {
        if is_named_among(others, first) {
            return false;
        }
        rest = others;
    }
    true
}

// One of these has the name of the nexus.
fn is_named_among(others: &[Nexus], nexus: &Nexus) -> bool
    ensures { result ≡ list_any (λ o. bytes_eq o.name.bytes nexus.now.name.bytes) others.now }
{
    others.iter().any(|other| other.name == nexus.name)
}

fn is_nexus(keys: &[u64], nexus: &Nexus) -> bool
    ensures { result ≡ is_nexus keys.now (nexus_of nexus.now) }
{
    is_name(nexus.name.as_str().as_bytes())
        && is_role(keys, &nexus.role)
        && is_start(keys, &nexus.start)
        && is_task(keys, &nexus.task)
}

fn is_role(keys: &[u64], role: &Role) -> bool
    ensures { result ≡ is_role keys.now role.now.clauses.items }
{
    role.clauses.len() <= MOST_CLAUSES && are_actions(keys, &role.clauses)
}

fn are_actions(keys: &[u64], clauses: &[Clause]) -> bool
    ensures { result ≡ list_all (λ clause. is_action keys.now clause.action) clauses.now }
{
    clauses.iter().all(|clause| is_action(keys, clause.action))
}

/// Whether the key that the action names is one of the declared `keys`; a PREEMPT's may also be zero.
pub fn is_action(keys: &[u64], action: Action) -> bool
    ensures { result ≡ is_action keys.now action }
{
    match action {
        Action::Register(key) => is_declared(keys, key),
        Action::Preempt(key, _) => is_written_key(keys, key),
        _ => true,
    }
}

fn is_start(keys: &[u64], start: &Start) -> bool
    ensures { result ≡ is_start keys.now start.now.alternatives.items }
{
    let alternatives = start.alternatives.as_slice();
    !alternatives.is_empty() && are_alternatives(keys, alternatives) && are_distinct(alternatives)
}

/// Whether each alternative of a start is free (`None`), or one of the declared `keys`.
pub fn are_alternatives(keys: &[u64], alternatives: &[Option<u64>]) -> bool
    ensures { result ≡ list_all (is_alternative keys.now) alternatives.now }
{
    alternatives.iter().all(|key| is_alternative(keys, *key))
}

fn is_alternative(keys: &[u64], key: Option<u64>) -> bool
    ensures { result ≡ is_alternative keys.now key }
{
    match key {
        None => true,
        Some(key) => is_declared(keys, key),
    }
}

fn is_task(keys: &[u64], task: &Task) -> bool
    ensures { result ≡ is_task keys.now (task_of task.now) }
{
    match task {
        Task::Scripted { script, budget } => {
            script.fits(keys) && *budget >= 1 && *budget <= MOST_BUDGET
        }
        Task::Planned(commands) => commands.len() <= MOST_PLANNED && are_written(keys, commands),
    }
}

fn are_written(keys: &[u64], commands: &[Command]) -> bool
    ensures { result ≡ list_all (is_written keys.now) commands.now }
{
    commands.iter().all(|command| is_written(keys, *command))
}
