//! A verified scenario at work.

ghost use Rattle.std.specs.Prelude.{◌≡◌, ◌<◌, ◌^◌, true, false, [], Some, length, map, sum, IfOk, IfErr};
ghost use Rattle.pr_roles.specs.Scenarios.{scenario_of, task_of};
ghost use Rattle.pr_roles.specs.Safety.{IsSafe};
ghost use Rattle.pr_world.specs.Courses.{IsReached};
ghost use Rattle.pr_world.specs.Rooms.{room_of};

use crate::act::Act;
use crate::course::Course;
use crate::turn::Turn;
use pr_audit::End;
use pr_roles::{How, Item, Nexus, Scenario, Step, Task, Verified};
use pr_script::end_word;
use pr_unit::Unit;
use std::alloc::{AllocError, Global};
use std::marker::Model;

/// A verified scenario at work: what turns and resets have led to from its first start. It has room for every command that
/// can reach its unit and for every reset, so that none of them takes memory.
#[derive(Drop)]
pub struct World {
    verified: Verified,
    course: Course,
}

impl Model for World {
    ghost use Rattle.pr_cdb.specs.contracts.command.Command as command_code;
    ghost use Rattle.pr_unit.specs.contracts.unit.Unit as unit_code;
    ghost use Rattle.pr_script.specs.contracts.machine.Machine as machine_code;
    ghost use Rattle.pr_roles.specs.contracts.parts.Parts as parts_code;
    ghost use Rattle.pr_roles.specs.contracts.item.Item as item_code;
    ghost use Rattle.pr_world.specs.Progress.{Progress};
    ghost use Rattle.pr_world.specs.inside.ProgressCodes.{progress_code};

    ghost Value = { Progress };

    ghost coded = { progress_code parts_code.the_row.coded unit_code.the_row.coded machine_code.the_row.coded item_code.the_row.coded command_code.the_row.coded };

    ghost use Rattle.pr_roles.specs.Scenarios.{scenario_of};
    ghost use Rattle.pr_world.specs.inside.Participations.{schedule_of};
    ghost use Rattle.pr_world.specs.inside.Workings.{IsAtWork};

    ghost view = { λ w. record { scenario = w.verified; schedule = schedule_of w.course } };

    ghost invariant = { λ w. IsAtWork (scenario_of w.verified) w.course };
}

impl World {
    ghost use Rattle.pr_roles.specs.declared.step.Step.{Step};
    ghost use Rattle.pr_audit.specs.Ends.{ending_in, ending_of};
    ghost use Rattle.pr_world.specs.Progress.{Extends, IsLegalProgress, IsStoppedIn, PassesCommand, ResetsUnit, SendsEntry, TakesStep, has_reset_left};
    ghost use Rattle.pr_world.specs.StepAnswers.{IfSent, IfStopped, IfHeld};

    /// The scenario at its first start, with room for its whole history. Where memory is refused it is handed back.
    pub fn begin(alloc: Global, verified: Verified) -> Result<World, (Verified, AllocError)>
        ensures scenario { IfOk result (λ world. world.scenario ≡ verified) }
        ensures first { IfOk result (λ world. IsReached (scenario_of verified) [] world.schedule) }
        ensures back { IfErr result (λ refused. refused.0 ≡ verified) }
    {
        let parts = verified.scenario().parts();
        let room = room_for(&parts.nexuses) + parts.resets as usize;
        match Course::begin(alloc, verified.scenario(), room) {
            Ok(course) => Ok(World { verified, course }),
            Err(refused) => Err((verified, refused)),
        }
    }

    /// The turn of this nexus, in which the unit answers. It takes no memory.
    ///
    /// Where the unit could report one of several attentions, it reports the lowest.
    pub fn step(&mut self, host: u8) -> Turn
        requires { host < length (scenario_of self.old.scenario).nexuses }
        ensures scenario { self.new.scenario ≡ self.old.scenario }
        ensures turn { TakesStep (Step.Of host How.Plain) self.old self.new }
        ensures reached { Extends (Step.Of host How.Plain) self.old self.new }
        ensures sent { IfSent result (SendsEntry host self.old self.new) }
        ensures stopped { IfStopped result (IsStoppedIn self.old host) }
        ensures rests { IfStopped result (λ word. self.new.schedule ≡ self.old.schedule) }
        ensures held { IfHeld result (PassesCommand host self.old self.new) }
    {
        self.step_as(host, How::Plain)
    }

    /// The turn of this nexus. Its command is answered so, where that is a refusal of which the scenario has one left for the
    /// nexus, or a report before the reservation is looked at, where the scenario has those and the unit may make one; else by
    /// the unit, as in [`World::step`]. It takes no memory.
    ///
    /// A refusal changes nothing of the unit. A guest's command that is refused is used up, and never held back.
    pub fn step_as(&mut self, host: u8, how: How) -> Turn
        requires { host < length (scenario_of self.old.scenario).nexuses }
        ensures scenario { self.new.scenario ≡ self.old.scenario }
        ensures turn { TakesStep (Step.Of host how) self.old self.new }
        ensures reached { Extends (Step.Of host how) self.old self.new }
        ensures sent { IfSent result (SendsEntry host self.old self.new) }
        ensures stopped { IfStopped result (IsStoppedIn self.old host) }
        ensures rests { IfStopped result (λ word. self.new.schedule ≡ self.old.schedule) }
        ensures held { IfHeld result (PassesCommand host self.old self.new) }
    {
        match self.course.turn(self.verified.scenario(), host, how) {
            Act::Sent(entry) => Turn::Sent(entry),
            Act::Stopped(word) => Turn::Stopped(word),
            Act::Finished => Turn::Stopped(end_word()),
            Act::Held => Turn::Held,
            Act::Trapped => unreachable!(),
        }
    }

    /// Resets the unit, if fewer resets were made than the scenario declares; else it answers false, and nothing changes. It
    /// takes no memory.
    pub fn reset(&mut self) -> bool
        ensures scenario { self.new.scenario ≡ self.old.scenario }
        ensures made { result ≡ has_reset_left self.old }
        ensures turn { TakesStep Step.Reset self.old self.new }
        ensures reached { Extends Step.Reset self.old self.new }
        ensures reset { result ≡ true → ResetsUnit self.old self.new }
        ensures rests { result ≡ false → self.new.schedule ≡ self.old.schedule }
    {
        self.course.reset(self.verified.scenario())
    }

    /// The verified scenario.
    pub fn scenario(&self) -> &Scenario
        ensures value { result.now ≡ self.now.scenario }
        ensures safe { IsSafe (scenario_of self.now.scenario) }
    {
        self.verified.scenario()
    }

    /// What happened to the unit, in order.
    pub fn history(&self) -> &[Item]
        ensures value { result.now ≡ self.now.schedule.world.history }
        ensures reached { IsLegalProgress self.now }
    {
        &self.course.history
    }

    /// The unit as it is.
    pub fn unit(&self) -> &Unit
        ensures { result.now ≡ self.now.schedule.world.unit }
    {
        &self.course.unit
    }

    /// How the nexus stands.
    pub fn end(&self, host: u8) -> End
        requires { host < length (scenario_of self.now.scenario).nexuses }
        ensures { ending_in self.now.schedule host ≡ Some (ending_of result) }
    {
        self.course.end(host)
    }

    /// Its history and its unit, when it has no more turns to take.
    pub fn into_parts(self) -> (Vec<Item>, Unit)
        ensures history { result.0.items ≡ self.schedule.world.history }
        ensures unit { result.1 ≡ self.schedule.world.unit }
    {
        self.course.into_parts()
    }
}

// The room for all commands that can reach the unit.
fn room_for(nexuses: &[Nexus]) -> usize
    requires { sum (map (λ n. room_of (task_of n.task)) nexuses.now) < 2 ^ 64 }
    ensures { result ≡ sum (map (λ n. room_of (task_of n.task)) nexuses.now) }
{
    nexuses.iter().map(|nexus| room_of(&nexus.task)).sum()
}

/// How many commands reach the unit at most: of a host its script's budget, of a guest its plan's.
pub fn room_of(task: &Task) -> usize
    ensures { result ≡ room_of (task_of task.now) }
{
    match task {
        Task::Scripted { budget, .. } => *budget as usize,
        Task::Planned(commands) => commands.len(),
    }
}
