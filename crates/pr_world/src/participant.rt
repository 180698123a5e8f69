//! The nexuses of a scenario at work.

ghost use Rattle.std.specs.Prelude.{◌≡◌, ◌<◌, Some, IfOk, IsTrue};
ghost use Rattle.pr_roles.specs.Scenarios.{task_of};
ghost use Rattle.pr_audit.specs.Ends.{ending_of};
ghost use Rattle.pr_world.specs.inside.Participations.{IsFirst, IsSent, ending_at, participation_of};
ghost use Rattle.pr_audit.specs.inside.Auditing.{IsShort};
ghost use Rattle.pr_roles.specs.Worlds.{is_trapped};
ghost use Rattle.pr_roles.specs.Schedules.{is_held_back, is_passed_over};
ghost use Rattle.pr_world.specs.inside.Turns.{ParticipantActs, doing_of, participant_does};

use crate::act::Act;
use crate::plan::Plan;
use pr_audit::{End, refused};
use pr_cdb::{Command, Status, encode};
use pr_roles::{Entry, How, Nexus, Role, Task, permits};
use pr_script::{Machine, Next};
use pr_unit::Unit;
use std::alloc::{AllocError, Global};

/// A nexus at work.
#[derive(Drop)]
pub(crate) enum Participant {
    /// The host's script goes on.
    Host(Machine),

    /// The host's script met a reply without an arm, at the send of this line.
    Trapped(u32),

    /// The guest has a plan.
    Guest(Plan),
}

impl Participant {
    /// The nexus at its beginning.
    pub(crate) fn new(alloc: Global, nexus: &Nexus) -> Result<Participant, AllocError>
        requires { IsShort (task_of nexus.now.task) }
        ensures { IfOk result (IsFirst nexus.now) }
    {
        match &nexus.task {
            Task::Scripted { script, .. } => Ok(Participant::Host(Machine::new(alloc, script)?)),
            Task::Planned(commands) => Ok(Participant::Guest(Plan::new(alloc, commands)?)),
        }
    }

    /// Takes its turn, in which a command is answered so, and says what it did.
    pub(crate) fn act(&mut self, unit: &mut Unit, role: &Role, host: u8, how: How) -> Act
        requires { host < unit.old.registry.hosts }
        ensures does { doing_of result ≡ participant_does how role.now unit.old host self.old }
        ensures acts { ParticipantActs how role.now host result self.old unit.old self.new
            unit.new }
        ensures trapped { result ≡ Act.Trapped
            → IsTrue (is_trapped (participation_of self.old).control) }
        ensures hosts { unit.new.registry.hosts ≡ unit.old.registry.hosts }
    {
        match self {
            Participant::Host(machine) => {
                let (line, command) = match machine.next() {
                    Next::Send { line, command } => (line, command),
                    Next::Stopped(word) => return Act::Stopped(word),
                };
                let entry = send(unit, host, command, how);
                if machine.take(&entry.reply).is_err() {
                    *self = Participant::Trapped(line);
                }
                Act::Sent(entry)
            }
            Participant::Trapped(_) => Act::Trapped,
            Participant::Guest(plan) => {
                let Some(command) = plan.next() else {
                    return Act::Finished;
                };
                if is_passed_over(unit, role, host, command, how) {
                    return Act::Held;
                }
                Act::Sent(send(unit, host, command, how))
            }
        }
    }

    /// How it stands.
    pub(crate) fn end(&self) -> End
        ensures { ending_at self.now ≡ Some (ending_of result) }
    {
        match self {
            Participant::Host(machine) => match machine.next() {
                Next::Send { line, .. } => End::Ready(line),
                Next::Stopped(word) => End::Stopped(word),
            },
            Participant::Trapped(line) => End::Trapped(*line),
            Participant::Guest(plan) => End::Left(plan.left()),
        }
    }
}

// The unit would answer the command, and it is held back. What is refused is not.
fn is_passed_over(unit: &Unit, role: &Role, host: u8, command: Command, how: How) -> bool
    requires { host < unit.now.registry.hosts }
    ensures { result ≡ is_passed_over how role.now.clauses.items unit.now host command }
{
    how.status().is_none() && is_held_back(unit, role, host, command)
}

// The command would end GOOD, and the role does not permit that.
fn is_held_back(unit: &Unit, role: &Role, host: u8, command: Command) -> bool
    requires { host < unit.now.registry.hosts }
    ensures { result ≡ is_held_back role.now.clauses.items unit.now host command }
{
    unit.would_end_good(host, &command) && !permits(role, unit, host, &command)
}

// The command is sent, and comes back with its reply: that of the unit, which may report before it looks at the reservation, or a
// refusal in which the unit has no part.
fn send(unit: &mut Unit, host: u8, command: Command, how: How) -> Entry
    requires { host < unit.old.registry.hosts }
    ensures sent { IsSent how unit.old host command result unit.new }
    ensures hosts { unit.new.registry.hosts ≡ unit.old.registry.hosts }
{
    let wire = encode(&command);
    let reply = match how {
        How::Plain => match unit.execute(host, &wire) {
            Ok(reply) => reply,
            Err(_) => unreachable!(),
        },
        How::Early => match unit.execute_early(host, &wire) {
            Ok(reply) => reply,
            Err(_) => unreachable!(),
        },
        How::Busy => refused(Status::Busy),
        How::Full => refused(Status::TaskFull),
    };
    Entry { host, wire, reply }
}
