//! What each demand comes to once its sender is admitted: what keeps it from that, its fault, and what it makes of the
//! registry.

ghost use Rattle.std.specs.Prelude.{◌≡◌, ◌<◌, false, None};
ghost use Rattle.pr_unit.specs.Conduct.{illegal, range_fault, release_fault, preempt_fault, preempt_all_fault, conduct};
ghost use Rattle.pr_unit.specs.inside.Readiness.{IsReady};

use crate::access::{reading_conflicts, writing_conflicts};
use crate::demand::Demand;
use pr_cdb::codes::{
    ILLEGAL_REQUEST, INVALID_FIELD_IN_CDB, INVALID_FIELD_IN_PARAMETER_LIST,
    INVALID_RELEASE_OF_PERSISTENT_RESERVATION, LOGICAL_BLOCK_ADDRESS_OUT_OF_RANGE,
};
use pr_cdb::{Kind, Sense};
use pr_registry::{Change, Registry};

/// Whether what stands keeps the host from what it demands.
#[tactic(auto, using(crate::proofs::lemmas::Demands::unregister_kept))]
pub(crate) fn is_kept(registry: &Registry, host: u8, demand: Demand<u64, Option<Kind>>) -> bool
    requires { host < registry.now.hosts }
    ensures { result ≡ (conduct registry.now host demand).kept }
{
    match demand {
        Demand::Read(_) => reading_conflicts(registry, host),
        Demand::Write(_) => writing_conflicts(registry, host),
        Demand::Reserve(kind) => registry.conflicts_with_reserve(host, kind),
        Demand::Preempt(key, _) => registry.has_no_registrant(key),
        Demand::Look
        | Demand::Register(_)
        | Demand::Unregister
        | Demand::Release(_)
        | Demand::Clear
        | Demand::PreemptAll(_) => false,
    }
}

/// The fault of a demand of the host, from which nothing keeps it.
#[tactic(auto, using(crate::proofs::lemmas::Demands::unregister_fault))]
pub(crate) fn fault_of(
    registry: &Registry,
    host: u8,
    demand: Demand<u64, Option<Kind>>,
) -> Option<Sense>
    requires { host < registry.now.hosts }
    ensures { result ≡ (conduct registry.now host demand).fault }
{
    match demand {
        Demand::Read(in_range) => range_fault(in_range),
        Demand::Write(in_range) => range_fault(in_range),
        Demand::Release(kind) => release_fault(registry, host, kind),
        Demand::PreemptAll(kind) => preempt_all_fault(registry, kind),
        Demand::Preempt(key, kind) => preempt_fault(kind, registry.is_replaced_by(key)),
        Demand::Look
        | Demand::Register(_)
        | Demand::Unregister
        | Demand::Reserve(_)
        | Demand::Clear => None,
    }
}

/// Makes the registry what a demand of the host makes of it, and says whom that tells.
pub(crate) fn apply(registry: &mut Registry, host: u8, demand: Demand<u64, Option<Kind>>) -> Change
    requires there { host < registry.old.hosts }
    requires ready { IsReady registry.old host demand }
    requires free { (conduct registry.old host demand).kept ≡ false }
    requires whole { (conduct registry.old host demand).fault ≡ None }
    ensures state { registry.new ≡ (conduct registry.old host demand).after }
    ensures change { result ≡ (conduct registry.old host demand).change }
{
    match demand {
        Demand::Register(key) => registry.register(host, key),
        Demand::Unregister if registry.is_registered(host) => registry.unregister(host),
        Demand::Reserve(kind) => registry.reserve(host, kind),
        Demand::Release(kind) => registry.release(host, kind),
        Demand::Clear => registry.clear(host),
        Demand::PreemptAll(kind) => registry.preempt(host, 0, kind),
        Demand::Preempt(key, kind) => registry.preempt(host, key, kind),
        Demand::Look | Demand::Read(_) | Demand::Write(_) | Demand::Unregister => { Change::none() }
    }
}

/// The sense data of ILLEGAL REQUEST with this additional sense code and qualifier.
pub fn illegal(asc: u8, ascq: u8) -> Sense
    ensures { result ≡ illegal asc ascq }
{
    Sense {
        key: ILLEGAL_REQUEST,
        asc,
        ascq,
    }
}

fn range_fault(in_range: bool) -> Option<Sense>
    ensures { result ≡ range_fault in_range }
{
    if in_range {
        None
    } else {
        Some(illegal(LOGICAL_BLOCK_ADDRESS_OUT_OF_RANGE, 0))
    }
}

fn release_fault(registry: &Registry, host: u8, kind: Kind) -> Option<Sense>
    requires { host < registry.now.hosts }
    ensures { result ≡ release_fault registry.now host kind }
{
    if registry.is_holder(host) && !registry.is_held_as(kind) {
        Some(illegal(
            INVALID_FIELD_IN_PARAMETER_LIST,
            INVALID_RELEASE_OF_PERSISTENT_RESERVATION,
        ))
    } else {
        None
    }
}

fn preempt_all_fault(registry: &Registry, kind: Option<Kind>) -> Option<Sense>
    ensures { result ≡ preempt_all_fault registry.now kind }
{
    if registry.is_held_by_all() {
        preempt_fault(kind, true)
    } else {
        Some(illegal(INVALID_FIELD_IN_PARAMETER_LIST, 0))
    }
}

// The fault of a PREEMPT that replaces the reservation, or doesn't.
fn preempt_fault(kind: Option<Kind>, is_replacing: bool) -> Option<Sense>
    ensures { result ≡ preempt_fault kind is_replacing }
{
    if kind.is_none() && is_replacing {
        Some(illegal(INVALID_FIELD_IN_CDB, 0))
    } else {
        None
    }
}
