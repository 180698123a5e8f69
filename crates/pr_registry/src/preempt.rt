//! The three successful cases of PREEMPT.

ghost use Rattle.std.specs.Prelude.{◌≡◌, ◌<◌, option_map};
ghost use Rattle.pr_registry.specs.Registrations.{new_reservation};
ghost use Rattle.pr_registry.specs.Tables.{table_keys};
ghost use Rattle.pr_registry.specs.Changes.{preempt_case, is_replacing, removed_by_preempt, is_new_type};
ghost use Rattle.pr_registry.specs.inside.Cases.{case_of};
ghost use Rattle.pr_registry.specs.Effects.{held_after_preempt};

use crate::held::Held;
use crate::host_set::HostSet;
use crate::table;
use pr_cdb::Kind;
use pr_cdb::codes::MOST_NEXUSES;

/// What a PREEMPT does (SPC-4, 'Preempting').
#[derive(Clone, Copy)]
pub(crate) enum Case {
    /// Its key is zero where all registrants hold: it removes all other registrations, and replaces the
    /// reservation.
    ReplacesAll,

    /// Its key is that of the single holder of a reservation of this type: it removes the registrations
    /// with this key but the sender's, and replaces the reservation.
    ReplacesHolder(Kind),

    /// Any other key: it removes the registrations with this key, the sender's among them.
    RemovesKey,
}

/// Which case a PREEMPT with this key is.
pub(crate) fn preempt_case(
    slots: &[Option<u64>; MOST_NEXUSES],
    held: Option<Held>,
    sark: u64,
) -> Case
    ensures { case_of result ≡ preempt_case (table_keys MOST_NEXUSES slots.now) held sark }
{
    match held {
        None => Case::RemovesKey,
        Some(Held::One(kind, holder)) => {
            if table::has_key(slots, holder, sark) {
                Case::ReplacesHolder(kind)
            } else {
                Case::RemovesKey
            }
        }
        Some(Held::All(_)) => {
            if sark == 0 {
                Case::ReplacesAll
            } else {
                Case::RemovesKey
            }
        }
    }
}

/// Whether the reservation is replaced.
pub(crate) fn is_replacing(case: Case) -> bool
    ensures { result ≡ is_replacing (case_of case) }
{
    match case {
        Case::ReplacesAll => true,
        Case::ReplacesHolder(_) => true,
        Case::RemovesKey => false,
    }
}

/// Whose registrations go.
pub(crate) fn removed_by_preempt(
    slots: &[Option<u64>; MOST_NEXUSES],
    host: u8,
    sark: u64,
    case: Case,
) -> HostSet
    requires { host < MOST_NEXUSES }
    ensures { result ≡ removed_by_preempt (table_keys MOST_NEXUSES slots.now) host sark
        (case_of case) }
{
    match case {
        Case::ReplacesAll => table::registrants(slots).without(host),
        Case::ReplacesHolder(_) => table::hosts_with(slots, sark).without(host),
        Case::RemovesKey => table::hosts_with(slots, sark),
    }
}

/// Whether the holder's reservation is replaced by one of another type.
pub(crate) fn is_new_type(kind: Option<Kind>, case: Case) -> bool
    ensures { result ≡ is_new_type kind (case_of case) }
{
    match (kind, case) {
        (Some(new), Case::ReplacesHolder(old)) => !table::is_kind(old, new),
        _ => false,
    }
}

/// The reservation afterwards, over the registrations that remain.
pub(crate) fn held_after_preempt(
    rest: &[Option<u64>; MOST_NEXUSES],
    held: Option<Held>,
    host: u8,
    kind: Option<Kind>,
    case: Case,
) -> Option<Held>
    ensures { result ≡ held_after_preempt (table_keys MOST_NEXUSES rest.now) held host kind
        (case_of case) }
{
    match case {
        Case::ReplacesAll => established_if(kind, host),
        Case::ReplacesHolder(_) => established_if(kind, host),
        Case::RemovesKey => table::held_by_rest(rest, held),
    }
}

// The reservation that replaces another, if there is a type.
fn established_if(kind: Option<Kind>, host: u8) -> Option<Held>
    ensures { result ≡ option_map (λ t. new_reservation t host) kind }
{
    match kind {
        Some(kind) => Some(table::new_reservation(kind, host)),
        None => None,
    }
}
