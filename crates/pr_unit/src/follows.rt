//! Whether a unit may answer just so, and what it is then.

ghost use Rattle.std.specs.Prelude.{◌≡◌, ◌<◌, false, None};
ghost use Rattle.pr_attention.specs.Attentions.{code_of};
ghost use Rattle.pr_unit.specs.UnitStates.{IsWellFormed};
ghost use Rattle.pr_unit.specs.Tables.{unit_of};
ghost use Rattle.pr_unit.specs.Conduct.{command_conflicts, command_fault};
ghost use Rattle.pr_unit.specs.EarlyReports.{IsFollowedEarly};
ghost use Rattle.pr_unit.specs.Follows.{IsFollowed};
ghost use Rattle.pr_unit.specs.inside.Following.{IsReported, IsAnyReported, IsDoneSo};

use crate::answers::{perform, report_of};
use crate::data::data;
use crate::decision::{Decision, conflicts, decide};
use crate::{pending_table, reply};
use pr_attention::{Attention, Pending};
use pr_cdb::codes::MOST_NEXUSES;
use pr_cdb::{Command, Reply, Request};
use pr_registry::Registry;

/// Whether the unit may answer the request of the host with this reply. Where it may, its parts become
/// what they are then; else nothing changes.
pub(crate) fn follow(
    registry: &mut Registry,
    pendings: &mut [Pending; MOST_NEXUSES],
    host: u8,
    request: Request,
    reply: &Reply,
) -> bool
    requires there { host < registry.old.hosts }
    requires well_formed { IsWellFormed (unit_of registry.old pendings.old) }
    ensures { IsFollowed (unit_of registry.old pendings.old) host request reply.now result
        (unit_of registry.new pendings.new) }
{
    match decide(registry, pendings, host, request) {
        Decision::PowerOn => {
            follow_report(registry, pendings, host, request, reply, Attention::PowerOn)
        }
        Decision::Conflicting => *reply == reply::conflict(),
        Decision::Attention => follow_any_report(registry, pendings, host, request, reply),
        Decision::AtFault(sense) => *reply == reply::check(sense),
        Decision::Done => match request {
            Request::Plain(command) => follow_good(registry, pendings, host, command, reply),
            Request::Faulty(_) => unreachable!(),
        },
    }
}

/// Whether the unit may report just so before it looks at the reservation, with which the request conflicts. Where it may, what is
/// pending is what it leaves; else nothing changes.
pub(crate) fn follow_early(
    registry: &Registry,
    pendings: &mut [Pending; MOST_NEXUSES],
    host: u8,
    request: Request,
    reply: &Reply,
) -> bool
    requires there { host < registry.now.hosts }
    requires well_formed { IsWellFormed (unit_of registry.now pendings.old) }
    ensures { IsFollowedEarly (unit_of registry.now pendings.old) host request reply.now result
        (unit_of registry.now pendings.new) }
{
    if pending_table::has(pendings, host, Attention::PowerOn)
        || !conflicts(registry, host, request)
    {
        return false;
    }
    follow_any_report(registry, pendings, host, request, reply)
}

// Follows a reply that reports one of the attentions.
fn follow_any_report(
    registry: &Registry,
    pendings: &mut [Pending; MOST_NEXUSES],
    host: u8,
    request: Request,
    reply: &Reply,
) -> bool
    requires { host < MOST_NEXUSES }
    ensures { IsAnyReported (unit_of registry.now pendings.old) host request reply.now result
        (unit_of registry.now pendings.new) }
{
    for attention in Attention::ALL {
        if follow_report(registry, pendings, host, request, reply, attention) {
            return true;
        }
    }
    false
}

// Follows a reply that reports this attention.
fn follow_report(
    registry: &Registry,
    pendings: &mut [Pending; MOST_NEXUSES],
    host: u8,
    request: Request,
    reply: &Reply,
    attention: Attention,
) -> bool
    requires { host < MOST_NEXUSES }
    ensures { IsReported (unit_of registry.now pendings.old) host request reply.now
        (code_of attention) result (unit_of registry.now pendings.new) }
{
    let _ = registry;
    let follows = pending_table::has(pendings, host, attention)
        && *reply == report_of(request, attention);
    if follows {
        pending_table::remove(pendings, host, attention);
    }
    follows
}

// Follows a reply of a command that ends GOOD.
fn follow_good(
    registry: &mut Registry,
    pendings: &mut [Pending; MOST_NEXUSES],
    host: u8,
    command: Command,
    reply: &Reply,
) -> bool
    requires there { host < registry.old.hosts }
    requires well_formed { IsWellFormed (unit_of registry.old pendings.old) }
    requires free { command_conflicts registry.old host command ≡ false }
    requires whole { command_fault registry.old host command ≡ None }
    ensures { IsDoneSo (unit_of registry.old pendings.old) host command reply.now result
        (unit_of registry.new pendings.new) }
{
    let follows = *reply == reply::good(data(registry, command));
    if follows {
        let _ = perform(registry, pendings, host, command);
    }
    follows
}
