//! The end of a text: what is missing, and the scenario that was declared.

ghost use Rattle.std.specs.Prelude.{◌≡◌, [], ◌∷◌, IfOk, map, option_map, unwrap_or};
ghost use Rattle.pr_roles.specs.Scenarios.{nexus_of};
ghost use Rattle.pr_text.specs.inside.Drafts.{draft_seen};
ghost use Rattle.pr_text.specs.Texts.{first_unscripted};
ghost use Rattle.pr_text.specs.inside.Endings.{whole_fault};
ghost use Rattle.pr_text.specs.Reading.{nexus_written, nexus_declared, is_shared_path};

use crate::builder::{Builder, Context};
use crate::draft::Draft;
use crate::fault::{ReadError, Which};
use pr_attention::Pending;
use pr_roles::{Nexus, Parts, Role, Scenario, Start, Task};
use std::alloc::{AllocError, Global};

impl Builder {
    ghost use Rattle.std.specs.Prelude.{◌≡◌, ◌<◌, ◌^◌, IfOk, IfErr};
    ghost use Rattle.pr_roles.specs.Scenarios.{scenario_of};
    ghost use Rattle.pr_text.specs.Faults.{Fails};
    ghost use Rattle.pr_text.specs.inside.Drafts.{declared_by};
    ghost use Rattle.pr_text.specs.inside.Sound.{IsSound, IsDated};
    ghost use Rattle.pr_text.specs.Texts.{end_placed};
    ghost use Rattle.pr_text.specs.inside.Endings.{missing_fault};
    ghost use Rattle.pr_text.specs.Reading.{IsDeclaredBy};
    ghost use Rattle.pr_text.specs.ScenarioRoundTrip.{IsWhole};

    /// The scenario that is declared, where the text ends on the line of this number.
    pub fn finished(self, alloc: Global, number: u32) -> Result<Scenario, ReadError>
        requires sound { IsSound number (declared_by self) }
        requires dated { IsDated (declared_by self) }
        ensures found { IfOk result (λ scenario. IsWhole number (declared_by self)
            (scenario_of scenario)) }
        ensures fault { IfErr result (λ e. Fails e (end_placed number (declared_by self))) }
    {
        if let Some(fault) = self.missing_fault(number) {
            return Err(fault);
        }
        let parts = self.parts(alloc)?;
        match Scenario::make(parts) {
            Ok(scenario) => Ok(scenario),
            Err(_) => Err(ReadError::EmptyStart),
        }
    }

    // What is missing where the text ends on the line of this number.
    fn missing_fault(&self, number: u32) -> Option<ReadError>
        ensures { result ≡ missing_fault number (declared_by self.now) }
    {
        match self.place {
            Context::BeforeAll => Some(ReadError::Syntax { line: 1 }),
            Context::Outside => whole_fault(number, &self.nexuses),
            Context::InScript(_) | Context::InPlan(..) => Some(ReadError::Unclosed {
                line: number,
            }),
        }
    }

    // The parts that are declared.
    #[tactic(auto, unfolding(pr_roles::specs::Scenarios::scenario_of), using(crate::proofs::lemmas::Endings::Faults::paths_of))]
    fn parts(self, alloc: Global) -> Result<Parts, AllocError>
        ensures declared { IfOk result (λ parts. IsDeclaredBy (declared_by self)
            (scenario_of parts)) }
        ensures room { IfOk result (λ parts. parts.generation < 2 ^ 32) }
    {
        let Builder {
            version,
            keys,
            reservations,
            generation,
            resets,
            in_order,
            nexuses,
            place: _,
        } = self;
        Ok(Parts {
            version,
            keys: keys.unwrap_or(Vec::new(alloc)),
            reservations: or_none(alloc, reservations)?,
            generation: generation.unwrap_or(0),
            resets: resets.unwrap_or(0),
            early: version > 2 && !in_order,
            nexuses: nexuses_of(alloc, version, nexuses)?,
        })
    }
}

// What is wrong with a text that ends on the line of this number, outside scripts and plans.
fn whole_fault(line: u32, nexuses: &[Draft]) -> Option<ReadError>
    ensures { result ≡ whole_fault line (map draft_seen nexuses.now) }
{
    if nexuses.is_empty() {
        let which = Which::Hosts;
        return Some(ReadError::Limit { which, line });
    }
    let line = first_unscripted(nexuses)?;
    Some(ReadError::Syntax { line })
}

// The line of the first host that has no script.
fn first_unscripted(nexuses: &[Draft]) -> Option<u32>
    ensures { result ≡ first_unscripted (map draft_seen nexuses.now) }
{
    let mut rest = nexuses;
    while let Some((first, others)) = rest.split_first() {
        if !first.is_guest && first.task.is_none() {
            return Some(first.line);
        }
        rest = others;
    }
    None
}

// The alternatives, or nothing alone where none are written.
fn or_none<T: Drop>(
    alloc: Global,
    alternatives: Option<Vec<Option<T>>>,
) -> Result<Vec<Option<T>>, AllocError>
    ensures { IfOk result (λ v. v.items ≡ unwrap_or (option_map (λ xs. xs.items) alternatives)
        (None ∷ [])) }
{
    match alternatives {
        Some(alternatives) => Ok(alternatives),
        None => {
            let mut nothing = Vec::new(alloc);
            nothing.push(None)?;
            Ok(nothing)
        }
    }
}

fn nexuses_of(alloc: Global, version: u8, drafts: Vec<Draft>) -> Result<Vec<Nexus>, AllocError>
    ensures declared { IfOk result (λ v. map nexus_written (map nexus_of v.items)
        ≡ map nexus_declared (map draft_seen drafts.items)) }
    ensures paths { IfOk result (λ v. map (λ nexus. nexus.shared) v.items
        ≡ map (is_shared_path version) (map draft_seen drafts.items)) }
{
    let mut nexuses = Vec::new(alloc);
    for draft in drafts {
        nexuses.push(nexus_of(alloc, version, draft)?)?;
    }
    Ok(nexuses)
}

// From version 3 on somebody else may send on the path of a host, unless a line says that nobody does.
fn nexus_of(alloc: Global, version: u8, draft: Draft) -> Result<Nexus, AllocError>
    ensures declared { IfOk result (λ nexus. nexus_written (nexus_of nexus)
        ≡ nexus_declared (draft_seen draft)) }
    ensures path { IfOk result (λ nexus. nexus.shared
        ≡ is_shared_path version (draft_seen draft)) }
{
    let Draft {
        name,
        line: _,
        is_guest,
        start,
        pending,
        busy,
        full,
        alone,
        role,
        task,
    } = draft;
    Ok(Nexus {
        name,
        role: Role { clauses: role },
        start: Start {
            alternatives: or_none(alloc, start)?,
        },
        pending: pending.unwrap_or(Pending::new()),
        task: task.unwrap_or(Task::Planned(Vec::new(alloc))),
        busy: busy.unwrap_or(0),
        full: full.unwrap_or(0),
        shared: version > 2 && (!is_guest && !alone),
    })
}
