//! The nexuses of an audit.

ghost use Rattle.std.specs.Prelude.{◌≡◌, ◌<◌, ◌↔◌, true, IsTrue, IfOk};
ghost use Rattle.pr_cdb.specs.Requests.{AreBytes};
ghost use Rattle.pr_unit.specs.Replies.{is_good, refused_with};
ghost use Rattle.pr_roles.specs.Permits.{is_permitted};
ghost use Rattle.pr_roles.specs.Scenarios.{task_of};
ghost use Rattle.pr_roles.specs.Worlds.{control_of};
ghost use Rattle.pr_audit.specs.Auditors.{IsPast, control_by, is_free, send_of};
ghost use Rattle.pr_audit.specs.Ends.{IsEndBy};
ghost use Rattle.pr_audit.specs.inside.Auditing.{IsAnswered, IsGuestJudged, JudgesEntry, IsShort};

use crate::end::End;
use crate::refusing::refused;
use pr_cdb::{Command, Reply, Request, Status, decode, encode};
use pr_roles::{Entry, How, Nexus, Role, Task, permits};
use pr_script::{Machine, Next};
use pr_unit::Unit;
use std::alloc::{AllocError, Global};

/// A nexus of an audit. Of a guest's plan an audit knows nothing.
#[derive(Drop)]
pub(crate) enum Sender {
    /// The host's script goes on.
    Host(Machine),

    /// The host's script met a reply without an arm, at the send of this line.
    Trapped(u32),

    Guest,
}

impl Sender {
    /// The nexus at its beginning.
    pub(crate) fn new(alloc: Global, nexus: &Nexus) -> Result<Sender, AllocError>
        requires { IsShort (task_of nexus.now.task) }
        ensures { IfOk result (λ sender. control_by sender ≡ control_of (task_of nexus.now.task)) }
    {
        match &nexus.task {
            Task::Scripted { script, .. } => Ok(Sender::Host(Machine::new(alloc, script)?)),
            Task::Planned(_) => Ok(Sender::Guest),
        }
    }

    /// The line of the send at which the host's script is ready, with its command.
    pub(crate) fn next_command(&self) -> Option<(u32, Command)>
        ensures { result ≡ send_of (control_by self.now) }
    {
        match self {
            Sender::Host(machine) => match machine.next() {
                Next::Send { line, command } => Some((line, command)),
                Next::Stopped(_) => None,
            },
            Sender::Trapped(_) | Sender::Guest => None,
        }
    }

    /// How it stands. A guest has not reached so many of its planned commands.
    pub(crate) fn end(&self, planned: u32) -> End
        ensures { IsEndBy (control_by self.now) planned result }
    {
        match self {
            Sender::Host(machine) => match machine.next() {
                Next::Send { line, .. } => End::Ready(line),
                Next::Stopped(word) => End::Stopped(word),
            },
            Sender::Trapped(line) => End::Trapped(*line),
            Sender::Guest => End::Left(planned),
        }
    }

    /// Goes past an entry of its own that is taken as it is: a script that is ready to send just these bytes takes the reply.
    pub(crate) fn passes(&mut self, entry: &Entry)
        ensures past { IsPast entry.now (control_by self.old) (control_by self.new) }
        ensures free { is_free (control_by self.new) ≡ is_free (control_by self.old) }
    {
        if let Sender::Host(machine) = self
            && let Next::Send { line, command } = machine.next()
            && entry.wire == encode(&command)
            && machine.take(&entry.reply).is_err()
        {
            *self = Sender::Trapped(line);
        }
    }

    /// Whether it may have sent this entry, and may have been answered so, on a path that is shared or is not. Where it may, it
    /// goes past the entry, as the unit does; else nothing changes.
    pub(crate) fn sends(
        &mut self,
        unit: &mut Unit,
        role: &Role,
        entry: &Entry,
        how: How,
        shared: bool,
    ) -> bool
        requires { entry.now.host < unit.old.registry.hosts }
        ensures judged { JudgesEntry shared how role.now entry.now result self.old unit.old
            self.new unit.new }
    {
        match self {
            Sender::Host(machine) => {
                let (line, command) = match machine.next() {
                    Next::Send { line, command } => (line, command),
                    Next::Stopped(_) => return false,
                };
                if entry.wire != encode(&command) {
                    return false;
                }
                if !is_answered(unit, entry, how, shared) {
                    return false;
                }
                if machine.take(&entry.reply).is_err() {
                    *self = Sender::Trapped(line);
                }
                true
            }
            Sender::Trapped(_) => false,
            Sender::Guest => guest_sends(unit, role, entry, how, shared),
        }
    }
}

// Whether a guest with this role may have sent the entry, and may have been answered so.
fn guest_sends(unit: &mut Unit, role: &Role, entry: &Entry, how: How, shared: bool) -> bool
    requires { entry.now.host < unit.old.registry.hosts }
    ensures { IsGuestJudged shared how role.now.clauses.items unit.old entry.now result unit.new }
{
    let cdb = entry.wire.cdb.as_slice();
    let params = entry.wire.params.as_slice();
    are_bytes(cdb);
    are_bytes(params);
    let Ok(request) = decode(cdb, params) else {
        return false;
    };
    if !keeps_role(role, unit, entry, request) {
        return false;
    }
    is_answered(unit, entry, how, shared)
}

// Whether the command may have been answered so: by the unit, or by a whole refusal. On a shared path somebody else may have been
// told of what was pending before.
fn is_answered(unit: &mut Unit, entry: &Entry, how: How, shared: bool) -> bool
    requires { entry.now.host < unit.old.registry.hosts }
    ensures { IsAnswered shared how unit.old entry.now result unit.new }
{
    let Entry { host, wire, reply } = entry;
    match how {
        How::Plain if shared => unit.follow_shared(*host, wire, reply),
        How::Plain => unit.follow(*host, wire, reply),
        How::Early if shared => unit.follow_early_shared(*host, wire, reply),
        How::Early => unit.follow_early(*host, wire, reply),
        How::Busy => is_refused(reply, Status::Busy),
        How::Full => is_refused(reply, Status::TaskFull),
    }
}

// Whether the reply is a whole refusal of this status.
fn is_refused(reply: &Reply, status: Status) -> bool
    ensures { IsTrue result ↔ (reply.now ≡ refused_with status) }
{
    *reply == refused(status)
}

// Whether the role permits the entry's request where it ends GOOD.
fn keeps_role(role: &Role, unit: &Unit, entry: &Entry, request: Request) -> bool
    requires { entry.now.host < unit.now.registry.hosts }
    ensures { IsTrue result ↔ (is_good entry.now.reply ≡ true → IsTrue (is_permitted
        role.now.clauses.items unit.now.registry entry.now.host request)) }
{
    entry.reply.status != Status::Good || is_permitted(role, unit, entry.host, request)
}

// Whether the role permits the request to end GOOD.
fn is_permitted(role: &Role, unit: &Unit, host: u8, request: Request) -> bool
    requires { host < unit.now.registry.hosts }
    ensures { result ≡ is_permitted role.now.clauses.items unit.now.registry host request }
{
    match request {
        Request::Plain(command) => permits(role, unit, host, &command),
        Request::Faulty(_) => false,
    }
}

// That each is a byte, which a proof has from the type of the slice.
fn are_bytes(bytes: &[u8])
    ensures { AreBytes bytes.now }
{}
