//! What decides how a request ends.

ghost use Rattle.std.specs.Prelude.{◌≡◌, ◌<◌};
ghost use Rattle.pr_unit.specs.Tables.{unit_of};
ghost use Rattle.pr_unit.specs.Steps.{decision};
ghost use Rattle.pr_unit.specs.TakenSteps.{ends_good};
ghost use Rattle.pr_unit.specs.Conduct.{conflicts, fault};

use crate::conduct::fault_of;
use crate::conflicts::command_conflicts;
use crate::demand::demand_of;
use crate::pending_table;
use pr_attention::{Attention, Pending};
use pr_cdb::codes::MOST_NEXUSES;
use pr_cdb::{Command, Request, Sense};
use pr_registry::Registry;

/// What decides how a request ends.
#[derive(Clone, Copy, PartialEq, Eq)]
pub(crate) enum Decision {
    /// A power on or reset that is still to be reported.
    PowerOn,
    /// A reservation conflict.
    Conflicting,
    /// Another attention that is still to be reported.
    Attention,
    /// A fault of the request.
    AtFault(Sense),
    /// Nothing: it ends GOOD.
    Done,
}

/// What decides how the request of the host ends.
pub(crate) fn decide(
    registry: &Registry,
    pendings: &[Pending; MOST_NEXUSES],
    host: u8,
    request: Request,
) -> Decision
    requires there { host < registry.now.hosts }
    requires place { host < MOST_NEXUSES }
    ensures { result ≡ decision (unit_of registry.now pendings.now) host request }
{
    if pending_table::has(pendings, host, Attention::PowerOn) {
        return Decision::PowerOn;
    }
    if conflicts(registry, host, request) {
        return Decision::Conflicting;
    }
    if pending_table::has_any(pendings, host) {
        return Decision::Attention;
    }
    match fault(registry, host, request) {
        None => Decision::Done,
        Some(sense) => Decision::AtFault(sense),
    }
}

/// Whether the request of the host conflicts with the reservation. Bytes at fault never do.
pub(crate) fn conflicts(registry: &Registry, host: u8, request: Request) -> bool
    requires { host < registry.now.hosts }
    ensures { result ≡ conflicts registry.now host request }
{
    match request {
        Request::Plain(command) => command_conflicts(registry, host, command),
        Request::Faulty(_) => false,
    }
}

/// The fault of the request of the host, if it has one.
pub(crate) fn fault(registry: &Registry, host: u8, request: Request) -> Option<Sense>
    requires { host < registry.now.hosts }
    ensures { result ≡ fault registry.now host request }
{
    match request {
        Request::Plain(command) => fault_of(registry, host, demand_of(command)),
        Request::Faulty(sense) => Some(sense),
    }
}

/// Whether a request that is decided so ends GOOD.
pub(crate) fn ends_good(decision: Decision, request: Request) -> bool
    ensures { result ≡ ends_good decision request }
{
    match decision {
        Decision::PowerOn | Decision::Attention => {
            matches!(request, Request::Plain(Command::RequestSense))
        }
        Decision::Conflicting | Decision::AtFault(_) => false,
        Decision::Done => true,
    }
}
