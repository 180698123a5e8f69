//! The logical unit.

ghost use Rattle.std.specs.Prelude.{◌≡◌, ◌<◌, ◌≤◌, ◌↔◌, ℕ, true, false, None, IsTrue, IsSome, IfSome, length};
ghost use Rattle.std.specs.FinSet as set;
ghost use Rattle.pr_cdb.specs.Requests.{request_of_wire};
ghost use Rattle.pr_attention.specs.Attentions.{is_attention};
ghost use Rattle.pr_attention.specs.CodeSets.{AreAttentions, no_code};
ghost use Rattle.pr_unit.specs.Tables.{place, table_pairs};

use crate::answers::{answer, answer_early, take_effect};
use crate::conflicts::command_conflicts;
use crate::decision::{decide, ends_good, fault};
use crate::follows::{follow, follow_early};
use crate::pending_table;
use crate::shared_paths::{follow_early_shared, follow_shared};
use pr_attention::{Attention, Pending};
use pr_cdb::codes::MOST_NEXUSES;
use pr_cdb::{Bad, Command, Reply, Request, Sense, Wire, decode, in_range};
use pr_registry::Registry;
use std::array;
use std::marker::Model;

/// How many blocks a unit has.
pub const CAPACITY: u64 = 1_048_576;

/// A logical unit: its registry, and the pending attentions of each host.
#[derive(Debug, Drop)]
pub struct Unit {
    registry: Registry,
    pending: [Pending; MOST_NEXUSES],
}

impl Model for Unit {
    ghost use Rattle.pr_registry.specs.contracts.registry.Registry as registry_code;
    ghost use Rattle.pr_unit.specs.UnitStates.{UnitState, IsWellFormed};
    ghost use Rattle.pr_unit.specs.Tables.{unit_of};
    ghost use Rattle.pr_unit.specs.inside.UnitCodes.{unit_code};

    ghost Value = { UnitState };

    ghost coded = { unit_code registry_code.the_row.coded };

    ghost view = { λ u. unit_of u.registry u.pending };

    ghost invariant = { λ u. IsWellFormed (unit_of u.registry u.pending) };
}

impl Unit {
    ghost use Rattle.pr_registry.specs.Tables.{empty_registry};
    ghost use Rattle.pr_cdb.specs.declared.wire.Request.TheVariants.{Plain};
    ghost use Rattle.pr_cdb.specs.declared.reply.Reply.{Reply};
    ghost use Rattle.pr_attention.specs.Attentions.{code_of};
    ghost use Rattle.pr_unit.specs.UnitStates.{UnitState, IsWellFormed, is_pending, after_report, effect, reset};
    ghost use Rattle.pr_unit.specs.Tables.{unit_of, quiet_unit};
    ghost use Rattle.pr_unit.specs.Replies.{is_good};
    ghost use Rattle.pr_unit.specs.Conduct.{command_conflicts, command_fault};
    ghost use Rattle.pr_unit.specs.Steps.{Step, decision, ReportsEarly};
    ghost use Rattle.pr_unit.specs.TakenSteps.{Executes, ends_good};
    ghost use Rattle.pr_unit.specs.EarlyReports.{ExecutesEarly, FollowsEarly};
    ghost use Rattle.pr_unit.specs.Follows.{Follows};
    ghost use Rattle.pr_unit.specs.SharedPaths.{FollowsShared, silenced};

    /// A unit of so many hosts with nothing registered, reserved or pending, and generation 0.
    pub fn new(hosts: u8) -> Self
        requires some { 1 ≤ hosts }
        requires most { hosts ≤ MOST_NEXUSES }
        ensures { result ≡ quiet_unit (empty_registry hosts) }
    {
        Unit::of(Registry::new(hosts))
    }

    /// A unit with this registry and nothing pending.
    pub fn of(registry: Registry) -> Self
        ensures { result ≡ quiet_unit registry }
    {
        // A registry says with its size that it is well formed.
        let _ = registry.hosts();
        Unit {
            registry,
            pending: nothing_pending(),
        }
    }

    /// A unit with this registry and these attentions pending: `None` where there is not one set for each
    /// host.
    pub fn with(registry: Registry, pendings: &[Pending]) -> Option<Self>
        ensures value { IfSome result (λ u. u ≡ unit_of registry pendings.now) }
        ensures exactly { IsSome result ↔ length pendings.now ≡ registry.hosts }
    {
        if pendings.len() != usize::from(registry.hosts()) {
            return None;
        }
        Some(Unit {
            registry,
            pending: table_of(pendings),
        })
    }

    /// An equal one.
    pub fn copy(&self) -> Self
        ensures { result ≡ self.now }
    {
        Unit {
            registry: self.registry.copy(),
            pending: table_of(&self.pending),
        }
    }

    /// What is pending for the host.
    pub fn pending(&self, host: u8) -> &Pending
        requires { host < self.now.registry.hosts }
        ensures value { (code : ℕ) → set.contains result.now code ≡ is_pending self.now host code }
        ensures well_formed { IsWellFormed self.now }
    {
        &self.pending[usize::from(host)]
    }

    /// The registry.
    pub fn registry(&self) -> &Registry
        ensures value { result.now ≡ self.now.registry }
        ensures well_formed { IsWellFormed self.now }
    {
        &self.registry
    }

    /// Whether the command of the host conflicts with the reservation. A power on that is pending would be reported first.
    pub fn conflicts(&self, host: u8, command: &Command) -> bool
        requires { host < self.now.registry.hosts }
        ensures { result ≡ command_conflicts self.now.registry host command.now }
    {
        command_conflicts(&self.registry, host, *command)
    }

    /// The fault of the host's command, if it has one. A conflict, or what is pending, would be told before it.
    pub fn fault(&self, host: u8, command: &Command) -> Option<Sense>
        requires { host < self.now.registry.hosts }
        ensures { result ≡ command_fault self.now.registry host command.now }
    {
        fault(&self.registry, host, Request::Plain(*command))
    }

    /// Whether the command of the host would end GOOD now.
    pub fn would_end_good(&self, host: u8, command: &Command) -> bool
        requires { host < self.now.registry.hosts }
        ensures value { result ≡ ends_good (decision self.now host (Plain command.now))
            (Plain command.now) }
        ensures steps { (reply : Reply) (after : UnitState)
            → Step self.now host (Plain command.now) reply after → is_good reply ≡ result }
    {
        let request = Request::Plain(*command);
        let decision = decide(&self.registry, &self.pending, host, request);
        ends_good(decision, request)
    }

    /// Executes a command of a host, and answers it. Where the bytes are no request, nothing changes.
    pub fn execute(&mut self, host: u8, wire: &Wire) -> Result<Reply, Bad>
        requires { host < self.old.registry.hosts }
        ensures { Executes self.old host (request_of_wire wire.now) result self.new }
    {
        let request = decode(&wire.cdb, &wire.params)?;
        Ok(answer(&mut self.registry, &mut self.pending, host, request))
    }

    /// The same, by a unit that reports an attention before it looks at the reservation: the lowest of those that are pending,
    /// where the command conflicts and no power on is among them. Any other command it answers as always.
    pub fn execute_early(&mut self, host: u8, wire: &Wire) -> Result<Reply, Bad>
        requires { host < self.old.registry.hosts }
        ensures { ExecutesEarly self.old host (request_of_wire wire.now) result self.new }
    {
        let request = decode(&wire.cdb, &wire.params)?;
        Ok(answer_early(&mut self.registry, &mut self.pending, host, request))
    }

    /// Has the command of the host take effect, as where it ends GOOD. What is pending for the host stays.
    pub fn take_effect(&mut self, host: u8, command: &Command)
        requires there { host < self.old.registry.hosts }
        requires free { command_conflicts self.old.registry host command.now ≡ false }
        requires whole { command_fault self.old.registry host command.now ≡ None }
        ensures { self.new ≡ effect self.old host command.now }
    {
        in_range(*command);
        take_effect(&mut self.registry, &mut self.pending, host, *command);
    }

    /// Whether the unit may answer the command of the host with just this reply, whichever attention it
    /// chooses to report. Where it may, it is in the state after that answer; else nothing changes.
    pub fn follow(&mut self, host: u8, wire: &Wire, reply: &Reply) -> bool
        requires { host < self.old.registry.hosts }
        ensures { Follows self.old host (request_of_wire wire.now) reply.now result self.new }
    {
        match decode(&wire.cdb, &wire.params) {
            Ok(request) => follow(&mut self.registry, &mut self.pending, host, request, reply),
            Err(_) => false,
        }
    }

    /// Whether the unit may report just so before it looks at the reservation, with which the command of the host conflicts. Where
    /// it may, it is in the state after that report; else nothing changes.
    pub fn follow_early(&mut self, host: u8, wire: &Wire, reply: &Reply) -> bool
        requires { host < self.old.registry.hosts }
        ensures { FollowsEarly self.old host (request_of_wire wire.now) reply.now result self.new }
    {
        match decode(&wire.cdb, &wire.params) {
            Ok(request) => follow_early(&self.registry, &mut self.pending, host, request, reply),
            Err(_) => false,
        }
    }

    /// The same, where somebody else on the host's path may have been told of what was pending for the host: whether the unit may
    /// answer so once some of that is gone. Where it may, it is in the state after that answer in which as much as can be is left.
    pub fn follow_shared(&mut self, host: u8, wire: &Wire, reply: &Reply) -> bool
        requires { host < self.old.registry.hosts }
        ensures { FollowsShared (λ q u v. Step u host q reply.now v) self.old host
            (request_of_wire wire.now) result self.new }
    {
        match decode(&wire.cdb, &wire.params) {
            Ok(request) => {
                follow_shared(&mut self.registry, &mut self.pending, host, request, reply)
            }
            Err(_) => false,
        }
    }

    /// The same of a report that comes before the unit looks at the reservation.
    pub fn follow_early_shared(&mut self, host: u8, wire: &Wire, reply: &Reply) -> bool
        requires { host < self.old.registry.hosts }
        ensures { FollowsShared (λ q u v. ReportsEarly u host q reply.now v) self.old host
            (request_of_wire wire.now) result self.new }
    {
        match decode(&wire.cdb, &wire.params) {
            Ok(request) => {
                follow_early_shared(&self.registry, &mut self.pending, host, request, reply)
            }
            Err(_) => false,
        }
    }

    /// Takes the attention away from the host, as where somebody else on its path is told of it.
    pub fn fetch(&mut self, host: u8, attention: Attention)
        requires { host < self.old.registry.hosts }
        ensures { self.new ≡ after_report self.old host (code_of attention) }
    {
        pending_table::remove(&mut self.pending, host, attention);
    }

    /// Takes away whatever is pending for the host.
    pub fn fetch_all(&mut self, host: u8)
        requires { host < self.old.registry.hosts }
        ensures { self.new ≡ silenced self.old host }
    {
        pending_table::silence(&mut self.pending, host);
    }

    /// Resets the unit (SAM-5, 'Logical unit reset'): power on becomes pending for each host. Whatever else is pending,
    /// registrations, reservation and generation stay.
    pub fn reset(&mut self)
        ensures { self.new ≡ reset self.old }
    {
        pending_table::tell_all(&mut self.pending, self.registry.hosts(), Attention::PowerOn);
    }
}

// A place for each host, as many as [`MOST_NEXUSES`], with nothing pending for those that are not there.
pub(crate) fn table_of(pendings: &[Pending]) -> [Pending; MOST_NEXUSES]
    ensures value { table_pairs result ≡ table_pairs pendings.now }
    ensures members { (host code : ℕ) → set.contains (table_pairs result) (host, code) ≡ true
        → (host < length pendings.now) × IsTrue (is_attention code) }
{
    let mut table = nothing_pending();
    for host in 0..MOST_NEXUSES {
        table[host] = place_of(pendings, host);
    }
    table
}

// What is pending for the host, and nothing where there is no place for it.
fn place_of(pendings: &[Pending], host: usize) -> Pending
    ensures value { result ≡ place pendings.now host }
    ensures members { AreAttentions result }
{
    match pendings.get(host) {
        Some(pending) => pending.copy(),
        None => Pending::new(),
    }
}

// Nothing is pending for any host.
fn nothing_pending() -> [Pending; MOST_NEXUSES]
    ensures { table_pairs result ≡ set.empty }
{
    array::from_fn(
        |_| -> Pending
            ensures { result ≡ no_code }
        { Pending::new() },
    )
}
