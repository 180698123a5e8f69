//! Answers to a host on whose path somebody else may have been told of what was pending for it.

ghost use Rattle.std.specs.Prelude.{◌≡◌, ◌<◌, ◌↔◌, IsTrue};
ghost use Rattle.pr_attention.specs.Attentions.{code_of};
ghost use Rattle.pr_unit.specs.UnitStates.{IsWellFormed};
ghost use Rattle.pr_unit.specs.Tables.{unit_of};
ghost use Rattle.pr_unit.specs.SharedPaths.{IsFollowedShared};
ghost use Rattle.pr_unit.specs.Steps.{Step, ReportsEarly};
ghost use Rattle.pr_unit.specs.inside.Ways.{IsWayFor, Tells, TellsAny};

use crate::answers::report_of;
use crate::decision::conflicts;
use crate::follows::{follow, follow_early};
use crate::pending_table;
use crate::unit::table_of;
use pr_attention::{Attention, Pending};
use pr_cdb::codes::MOST_NEXUSES;
use pr_cdb::{Reply, Request};
use pr_registry::Registry;

/// Whether the unit may answer the request of the host with this reply once some of what is pending for the host is gone. Where it
/// may, its parts become what they are after that answer where as much as can be is left; else nothing changes.
pub(crate) fn follow_shared(
    registry: &mut Registry,
    pendings: &mut [Pending; MOST_NEXUSES],
    host: u8,
    request: Request,
    reply: &Reply,
) -> bool
    requires there { host < registry.old.hosts }
    requires well_formed { IsWellFormed (unit_of registry.old pendings.old) }
    ensures { IsFollowedShared (λ u v. Step u host request reply.now v)
        (unit_of registry.old pendings.old) host result (unit_of registry.new pendings.new) }
{
    let mut way = table_of(pendings);
    make_way(registry, &mut way, host, request, reply);
    let follows = follow(registry, &mut way, host, request, reply);
    if follows {
        *pendings = way;
    }
    follows
}

/// The same of a report that comes before the unit looks at the reservation.
pub(crate) fn follow_early_shared(
    registry: &Registry,
    pendings: &mut [Pending; MOST_NEXUSES],
    host: u8,
    request: Request,
    reply: &Reply,
) -> bool
    requires there { host < registry.now.hosts }
    requires well_formed { IsWellFormed (unit_of registry.now pendings.old) }
    ensures { IsFollowedShared (λ u v. ReportsEarly u host request reply.now v)
        (unit_of registry.now pendings.old) host result (unit_of registry.now pendings.new) }
{
    // A power on comes before a conflict in any order, so that it has to be gone.
    let mut way = table_of(pendings);
    pending_table::remove(&mut way, host, Attention::PowerOn);
    let follows = follow_early(registry, &mut way, host, request, reply);
    if follows {
        *pendings = way;
    }
    follows
}

// Takes away what has to be gone for this answer, and no more.
fn make_way(
    registry: &Registry,
    pendings: &mut [Pending; MOST_NEXUSES],
    host: u8,
    request: Request,
    reply: &Reply,
)
    requires there { host < registry.now.hosts }
    requires place { host < MOST_NEXUSES }
    requires well_formed { IsWellFormed (unit_of registry.now pendings.old) }
    ensures { IsWayFor (unit_of registry.now pendings.old) host request reply.now
        (unit_of registry.now pendings.new) }
{
    if tells(registry, pendings, host, request, reply, Attention::PowerOn) {
        return;
    }
    if conflicts(registry, host, request) || tells_any(registry, pendings, host, request, reply) {
        pending_table::remove(pendings, host, Attention::PowerOn);
    } else {
        pending_table::silence(pendings, host);
    }
}

// Whether the reply reports some attention that is pending for the host.
fn tells_any(
    registry: &Registry,
    pendings: &[Pending; MOST_NEXUSES],
    host: u8,
    request: Request,
    reply: &Reply,
) -> bool
    requires place { host < MOST_NEXUSES }
    requires well_formed { IsWellFormed (unit_of registry.now pendings.now) }
    ensures { IsTrue result ↔ TellsAny (unit_of registry.now pendings.now) host request reply.now }
{
    for attention in Attention::ALL {
        if tells(registry, pendings, host, request, reply, attention) {
            return true;
        }
    }
    false
}

// Whether the reply reports this attention, and it is pending for the host.
fn tells(
    registry: &Registry,
    pendings: &[Pending; MOST_NEXUSES],
    host: u8,
    request: Request,
    reply: &Reply,
    attention: Attention,
) -> bool
    requires { host < MOST_NEXUSES }
    ensures { IsTrue result ↔ Tells (unit_of registry.now pendings.now) host request reply.now
        (code_of attention) }
{
    let _ = registry;
    pending_table::has(pendings, host, attention) && *reply == report_of(request, attention)
}
