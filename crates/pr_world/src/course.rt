//! A scenario at work: its unit, its nexuses, and what happened so far.

ghost use Rattle.std.specs.Prelude.{◌≡◌, ◌<◌, ◌≤◌, ◌+◌, ◌^◌, true, [], Some, length, map, IfOk, vec_len, vec_capacity};
ghost use Rattle.pr_roles.specs.declared.step.Step.{Step};
ghost use Rattle.pr_roles.specs.Scenarios.{scenario_of};
ghost use Rattle.pr_roles.specs.Worlds.{may_reset};
ghost use Rattle.pr_world.specs.Courses.{IsReached};
ghost use Rattle.pr_audit.specs.Ends.{ending_in, ending_of, endings_of};
ghost use Rattle.pr_world.specs.Replays.{IsEndOf, IsThere};
ghost use Rattle.pr_world.specs.inside.Participations.{AreFirst, ending_at, schedule_of};
ghost use Rattle.pr_world.specs.inside.Turns.{doing_of, sends};
ghost use Rattle.pr_world.specs.inside.Workings.{CourseExtends, CourseHappens, CourseTakes, HasRoom, IsCourseOf, IsEmptyFor, IsTrappedIn, course_does};

use crate::act::Act;
use crate::participant::Participant;
use crate::replaying::Replayed;
use pr_audit::{End, counts_of, how_now, may_reset};
use pr_roles::{How, Item, Scenario, Step, first_start};
use pr_unit::Unit;
use std::alloc::{AllocError, Global};

/// A scenario at work.
#[derive(Drop)]
pub(crate) struct Course {
    pub(crate) unit: Unit,
    participants: Vec<Participant>,
    pub(crate) history: Vec<Item>,
}

impl Course {
    /// The scenario at its first start, with room for a history of so many items.
    pub(crate) fn begin(
        alloc: Global,
        scenario: &Scenario,
        room: usize,
    ) -> Result<Course, AllocError>
        ensures reached { IfOk result (λ course. IsReached (scenario_of scenario.now) []
            (schedule_of course)) }
        ensures stands { IfOk result (IsCourseOf scenario.now) }
        ensures room { IfOk result (IsEmptyFor room) }
    {
        Ok(Course {
            unit: first_start(scenario),
            participants: participants_of(alloc, scenario)?,
            history: Vec::with_capacity(alloc, room)?,
        })
    }

    /// The turn of this nexus, answered so where that may still come, else by the unit. It takes no memory, and room for an
    /// entry only where it sends.
    pub(crate) fn turn(&mut self, scenario: &Scenario, host: u8, how: How) -> Act
        requires there { host < length (scenario_of scenario.now).nexuses }
        requires stands { IsCourseOf scenario.now self.old }
        requires room { course_does scenario.now self.old host how ≡ sends → HasRoom self.old }
        ensures does { doing_of result ≡ course_does scenario.now self.old host how }
        ensures trapped { result ≡ Act.Trapped → IsTrappedIn self.old host }
        ensures turn { CourseTakes scenario.now (Step.Of host how) self.old self.new }
        ensures happens { CourseHappens scenario.now host result self.old self.new }
        ensures reached { CourseExtends scenario.now (Step.Of host how) self.old self.new }
        ensures stands { IsCourseOf scenario.now self.new }
        ensures length { vec_len self.new.history ≤ vec_len self.old.history + 1 }
        ensures room { vec_capacity self.new.history ≡ vec_capacity self.old.history }
    {
        let index = usize::from(host);
        let now = how_now(scenario, &self.history, host, how);
        let role = &scenario.parts().nexuses[index].role;
        let act = self.participants[index].act(&mut self.unit, role, host, now);
        if let Some(entry) = act.entry() {
            self.history.push_reserved(Item::Sent(entry.copy()));
        }
        act
    }

    /// Resets the unit, where a reset may still come; else it answers false, and nothing changes. It takes no memory, and room
    /// for an item only where it resets.
    pub(crate) fn reset(&mut self, scenario: &Scenario) -> bool
        requires stands { IsCourseOf scenario.now self.old }
        requires room { may_reset (scenario_of scenario.now) self.old.history.items ≡ true
            → HasRoom self.old }
        ensures made { result ≡ may_reset (scenario_of scenario.now) self.old.history.items }
        ensures turn { CourseTakes scenario.now Step.Reset self.old self.new }
        ensures reached { CourseExtends scenario.now Step.Reset self.old self.new }
        ensures stands { IsCourseOf scenario.now self.new }
        ensures length { vec_len self.new.history ≤ vec_len self.old.history + 1 }
        ensures room { vec_capacity self.new.history ≡ vec_capacity self.old.history }
    {
        if !may_reset(scenario, &self.history) {
            return false;
        }
        self.unit.reset();
        self.history.push_reserved(Item::Reset);
        true
    }

    /// Has somebody else on the path of this nexus be told of the lowest attention that is pending for it, where the path is
    /// shared and one is pending; else nothing changes. It takes no memory, and no room.
    pub(crate) fn fetch(&mut self, scenario: &Scenario, host: u8)
        requires there { host < length (scenario_of scenario.now).nexuses }
        requires stands { IsCourseOf scenario.now self.old }
        ensures turn { CourseTakes scenario.now (Step.Fetched host) self.old self.new }
        ensures reached { CourseExtends scenario.now (Step.Fetched host) self.old self.new }
        ensures stands { IsCourseOf scenario.now self.new }
        ensures history { self.new.history ≡ self.old.history }
    {
        if !is_shared(scenario, host) {
            return;
        }
        if let Some(attention) = self.unit.pending(host).lowest() {
            self.unit.fetch(host, attention);
        }
    }

    /// Takes the step: the turn of a nexus, a reset of the unit, or a fetch.
    pub(crate) fn advance(&mut self, scenario: &Scenario, step: Step)
        requires there { IsThere (length (scenario_of scenario.now).nexuses) step }
        requires stands { IsCourseOf scenario.now self.old }
        requires room { HasRoom self.old }
        ensures reached { CourseExtends scenario.now step self.old self.new }
        ensures stands { IsCourseOf scenario.now self.new }
        ensures length { vec_len self.new.history ≤ vec_len self.old.history + 1 }
        ensures room { vec_capacity self.new.history ≡ vec_capacity self.old.history }
    {
        match step {
            Step::Of(host, how) => {
                self.turn(scenario, host, how);
            }
            Step::Reset => {
                self.reset(scenario);
            }
            Step::Fetched(host) => {
                self.fetch(scenario, host);
            }
        }
    }

    /// How the nexus stands.
    pub(crate) fn end(&self, host: u8) -> End
        requires { host < vec_len self.now.participants }
        ensures { ending_in (schedule_of self.now) host ≡ Some (ending_of result) }
    {
        self.participants[usize::from(host)].end()
    }

    /// What happened to the unit, in order, and the unit.
    pub(crate) fn into_parts(self) -> (Vec<Item>, Unit)
        ensures history { result.0 ≡ self.history }
        ensures unit { result.1 ≡ self.unit }
    {
        (self.history, self.unit)
    }

    /// What it came to.
    pub(crate) fn outcome(self, alloc: Global) -> Result<Replayed, AllocError>
        requires { vec_len self.history < 2 ^ 32 }
        ensures { IfOk result (IsEndOf (schedule_of self)) }
    {
        let ends = ends_of(alloc, &self.participants)?;
        let counts = counts_of(alloc, &self.history, self.participants.len())?;
        Ok(Replayed {
            history: self.history,
            unit: self.unit,
            ends,
            counts,
        })
    }
}

// Whether somebody else may send on the path of the nexus with this number.
fn is_shared(scenario: &Scenario, host: u8) -> bool
    requires { host < length (scenario_of scenario.now).nexuses }
    ensures { result ≡ (scenario_of scenario.now).shared host }
{
    scenario.parts().nexuses[usize::from(host)].shared
}

// Each host and guest at its beginning.
#[tactic(auto, unfolding(pr_roles::specs::Scenarios::scenario_of))]
fn participants_of(alloc: Global, scenario: &Scenario) -> Result<Vec<Participant>, AllocError>
    ensures { IfOk result (λ participants. AreFirst scenario.now participants.items) }
{
    let nexuses = &scenario.parts().nexuses;
    let mut participants = Vec::with_capacity(alloc, nexuses.len())?;
    for nexus in nexuses {
        participants.push(Participant::new(alloc, nexus)?)?;
    }
    Ok(participants)
}

// How each stands.
fn ends_of(alloc: Global, participants: &[Participant]) -> Result<Vec<End>, AllocError>
    ensures { IfOk result (λ ends. endings_of ends.items ≡ map ending_at participants.now) }
{
    let mut ends = Vec::with_capacity(alloc, participants.len())?;
    for participant in participants {
        ends.push(participant.end())?;
    }
    Ok(ends)
}
