//! The answer to a request.

ghost use Rattle.std.specs.Prelude.{◌≡◌, ◌<◌, true, false, None};
ghost use Rattle.std.specs.FinSet as set;
ghost use Rattle.pr_attention.specs.Attentions.{code_of};
ghost use Rattle.pr_registry.specs.Registrations.{IsWellFormed};
ghost use Rattle.pr_unit.specs.Tables.{table_pairs, unit_of};
ghost use Rattle.pr_unit.specs.UnitStates.{effect};
ghost use Rattle.pr_unit.specs.Conduct.{command_conflicts, command_fault};
ghost use Rattle.pr_unit.specs.Replies.{good, report, data_of};
ghost use Rattle.pr_unit.specs.EarlyReports.{EarlyStep, TakenEarly, is_early};
ghost use Rattle.pr_unit.specs.TakenSteps.{TakenStep};

use crate::conduct::apply;
use crate::data::data;
use crate::decision::{Decision, conflicts, decide};
use crate::demand::demand_of;
use crate::{pending_table, reply};
use pr_attention::{Attention, Pending};
use pr_cdb::codes::MOST_NEXUSES;
use pr_cdb::{Command, Reply, Request, copied, encode_sense};
use pr_registry::Registry;

/// Answers the request of the host, and makes the unit's parts what they are then.
pub(crate) fn answer(
    registry: &mut Registry,
    pendings: &mut [Pending; MOST_NEXUSES],
    host: u8,
    request: Request,
) -> Reply
    requires there { host < registry.old.hosts }
    requires well_formed { IsWellFormed registry.old }
    ensures { TakenStep (unit_of registry.old pendings.old) host request result
        (unit_of registry.new pendings.new) }
{
    match decide(registry, pendings, host, request) {
        Decision::PowerOn => report(pendings, host, request, Attention::PowerOn),
        Decision::Conflicting => reply::conflict(),
        Decision::Attention => match pending_table::lowest(pendings, host) {
            Some(attention) => report(pendings, host, request, attention),
            None => unreachable!(),
        },
        Decision::AtFault(sense) => reply::check(sense),
        Decision::Done => match request {
            Request::Plain(command) => perform(registry, pendings, host, command),
            Request::Faulty(_) => unreachable!(),
        },
    }
}

/// The same, by a unit that reports an attention before it looks at the reservation, where it may.
pub(crate) fn answer_early(
    registry: &mut Registry,
    pendings: &mut [Pending; MOST_NEXUSES],
    host: u8,
    request: Request,
) -> Reply
    requires there { host < registry.old.hosts }
    requires well_formed { IsWellFormed registry.old }
    ensures { TakenEarly (unit_of registry.old pendings.old) host request result
        (unit_of registry.new pendings.new) }
{
    if is_early(registry, pendings, host, request) {
        report_early(registry, pendings, host, request)
    } else {
        answer(registry, pendings, host, request)
    }
}

// Reports the lowest attention that is pending, though the request conflicts.
fn report_early(
    registry: &Registry,
    pendings: &mut [Pending; MOST_NEXUSES],
    host: u8,
    request: Request,
) -> Reply
    requires there { host < registry.now.hosts }
    requires place { host < MOST_NEXUSES }
    requires early { is_early (unit_of registry.now pendings.old) host request ≡ true }
    ensures { EarlyStep true (unit_of registry.now pendings.old) host request result
        (unit_of registry.now pendings.new) }
{
    let _ = registry;
    match pending_table::lowest(pendings, host) {
        Some(attention) => report(pendings, host, request, attention),
        None => unreachable!(),
    }
}

// The unit may report before it looks at the reservation.
fn is_early(
    registry: &Registry,
    pendings: &[Pending; MOST_NEXUSES],
    host: u8,
    request: Request,
) -> bool
    requires there { host < registry.now.hosts }
    requires place { host < MOST_NEXUSES }
    ensures { result ≡ is_early (unit_of registry.now pendings.now) host request }
{
    !pending_table::has(pendings, host, Attention::PowerOn)
        && conflicts(registry, host, request)
        && pending_table::has_any(pendings, host)
}

/// Reports the attention, which alone is pending for the host no more.
pub(crate) fn report(
    pendings: &mut [Pending; MOST_NEXUSES],
    host: u8,
    request: Request,
    attention: Attention,
) -> Reply
    requires { host < MOST_NEXUSES }
    ensures reply { result ≡ report request (code_of attention) }
    ensures table { table_pairs pendings.new
        ≡ set.remove (table_pairs pendings.old) (host, code_of attention) }
{
    pending_table::remove(pendings, host, attention);
    report_of(request, attention)
}

/// The reply that reports the attention: REQUEST SENSE reports it as data.
pub fn report_of(request: Request, attention: Attention) -> Reply
    ensures { result ≡ report request (code_of attention) }
{
    let sense = attention.sense();
    match request {
        Request::Plain(Command::RequestSense) => reply::good(copied(&encode_sense(&sense))),
        _ => reply::check(sense),
    }
}

/// Ends a command GOOD: its data is of the registry before it.
pub(crate) fn perform(
    registry: &mut Registry,
    pendings: &mut [Pending; MOST_NEXUSES],
    host: u8,
    command: Command,
) -> Reply
    requires there { host < registry.old.hosts }
    requires well_formed { IsWellFormed registry.old }
    requires free { command_conflicts registry.old host command ≡ false }
    requires whole { command_fault registry.old host command ≡ None }
    ensures reply { result ≡ good (data_of registry.old command) }
    ensures state { unit_of registry.new pendings.new
        ≡ effect (unit_of registry.old pendings.old) host command }
{
    let bytes = data(registry, command);
    take_effect(registry, pendings, host, command);
    reply::good(bytes)
}

/// Makes the unit's parts what a command makes of them that ends GOOD.
pub(crate) fn take_effect(
    registry: &mut Registry,
    pendings: &mut [Pending; MOST_NEXUSES],
    host: u8,
    command: Command,
)
    requires there { host < registry.old.hosts }
    requires well_formed { IsWellFormed registry.old }
    requires free { command_conflicts registry.old host command ≡ false }
    requires whole { command_fault registry.old host command ≡ None }
    ensures { unit_of registry.new pendings.new
        ≡ effect (unit_of registry.old pendings.old) host command }
{
    let change = apply(registry, host, demand_of(command));
    pending_table::tell_change(pendings, &change);
}
