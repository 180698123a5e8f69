//! The registrations as a table with a place for each host, and the questions that service actions ask
//! of it.

ghost use Rattle.std.specs.Prelude.{◌≡◌, ◌<◌, ◌≤◌, ◌↔◌, ℕ, IsTrue, if◌then◌else◌, None, length, slice_index_or};
ghost use Rattle.std.specs.FinMap as map;
ghost use Rattle.pr_registry.specs.Hosts.{just, is_key, hosts_in, hosts_with, has_no_registrant, is_empty, without};
ghost use Rattle.pr_registry.specs.Registrations.{kind_of, is_all, is_for_registrants, new_reservation, holds_alone, is_holder_of, HasHolder};
ghost use Rattle.pr_registry.specs.Tables.{table_keys};
ghost use Rattle.pr_registry.specs.inside.TableStates.{IsKeyOrNone};
ghost use Rattle.pr_registry.specs.Changes.{is_kind, is_told_of_loss, is_held_as, is_held_by_all};
ghost use Rattle.pr_registry.specs.Effects.{held_by_rest};

use crate::held::Held;
use crate::host_set::HostSet;
use arrayvec::ArrayVec;
use pr_cdb::Kind;
use pr_cdb::codes::MOST_NEXUSES;

/// The registered hosts.
pub(crate) fn registrants(slots: &[Option<u64>; MOST_NEXUSES]) -> HostSet
    ensures { result ≡ hosts_in (table_keys MOST_NEXUSES slots.now) }
{
    let mut hosts = HostSet::new();
    for host in 0..MOST_NEXUSES as u8 {
        if is_registered(slots, host) {
            hosts.insert(host);
        }
    }
    hosts
}

/// The hosts that are registered with this key.
pub(crate) fn hosts_with(slots: &[Option<u64>; MOST_NEXUSES], key: u64) -> HostSet
    ensures { result ≡ hosts_with (table_keys MOST_NEXUSES slots.now) key }
{
    let mut hosts = HostSet::new();
    for host in 0..MOST_NEXUSES as u8 {
        if has_key(slots, host, key) {
            hosts.insert(host);
        }
    }
    hosts
}

/// Whether no host is registered with this key.
pub(crate) fn has_no_registrant(slots: &[Option<u64>; MOST_NEXUSES], key: u64) -> bool
    ensures { result ≡ has_no_registrant (table_keys MOST_NEXUSES slots.now) key }
{
    hosts_with(slots, key).is_empty()
}

/// Whether the host is registered with this key.
pub(crate) fn has_key(slots: &[Option<u64>; MOST_NEXUSES], host: u8, key: u64) -> bool
    ensures { result ≡ is_key (map.get (table_keys MOST_NEXUSES slots.now) host) key }
{
    let place = usize::from(host);
    if place >= MOST_NEXUSES {
        return false;
    }
    match slots[place] {
        Some(own) => own == key,
        None => false,
    }
}

/// Whether the host is registered.
pub(crate) fn is_registered(slots: &[Option<u64>; MOST_NEXUSES], host: u8) -> bool
    ensures { result ≡ map.contains_key (table_keys MOST_NEXUSES slots.now) host }
{
    let place = usize::from(host);
    place < MOST_NEXUSES && slots[place].is_some()
}

/// Whether nobody is registered.
pub(crate) fn is_empty(slots: &[Option<u64>; MOST_NEXUSES]) -> bool
    ensures { result ≡ is_empty (table_keys MOST_NEXUSES slots.now) }
{
    for slot in slots {
        if slot.is_some() {
            return false;
        }
    }
    true
}

/// Whether each key is in range: none is zero.
pub(crate) fn are_keys(slots: &[Option<u64>]) -> bool
    ensures { IsTrue result ↔ ((i : ℕ) → i < length slots.now
        → IsKeyOrNone (slice_index_or slots.now i None)) }
{
    for slot in slots {
        if let Some(key) = *slot {
            if key == 0 {
                return false;
            }
        }
    }
    true
}

/// The type of the reservation.
pub fn kind_of(held: Held) -> Kind
    ensures { result ≡ kind_of held }
{
    match held {
        Held::One(kind, _) | Held::All(kind) => kind,
    }
}

/// Whether the types are one.
pub fn is_kind(old: Kind, new: Kind) -> bool
    ensures { result ≡ is_kind old new }
{
    old.code() == new.code()
}

/// Whether the type is 7 or 8, under which every registrant holds the reservation (SPC-4, 'Persistent
/// reservations').
pub fn is_all(kind: Kind) -> bool
    ensures { result ≡ is_all kind }
{
    matches!(
        kind,
        Kind::WriteExclusiveAllRegistrants | Kind::ExclusiveAccessAllRegistrants
    )
}

/// Whether the reservation has a holder: a single one is registered, and all registrants are at least
/// one.
pub(crate) fn has_holder(slots: &[Option<u64>; MOST_NEXUSES], held: Option<Held>) -> bool
    ensures { IsTrue result ↔ HasHolder (table_keys MOST_NEXUSES slots.now) held }
{
    match held {
        None => true,
        Some(Held::One(kind, host)) => { !is_all(kind) && is_registered(slots, host) }
        Some(Held::All(kind)) => is_all(kind) && !is_empty(slots),
    }
}

/// The keys, with no key past their end.
pub(crate) fn slots_of(keys: &[Option<u64>]) -> [Option<u64>; MOST_NEXUSES]
    requires { length keys.now ≤ MOST_NEXUSES }
    ensures { table_keys MOST_NEXUSES result ≡ table_keys (length keys.now) keys.now }
{
    let mut slots = [None; MOST_NEXUSES];
    for (host, key) in keys.iter().enumerate() {
        slots[host] = *key;
    }
    slots
}

/// A reservation of this type that the host establishes: its own, or one of all registrants.
pub fn new_reservation(kind: Kind, host: u8) -> Held
    ensures { result ≡ new_reservation kind host }
{
    if is_all(kind) {
        Held::All(kind)
    } else {
        Held::One(kind, host)
    }
}

/// Whether the host holds the reservation: the single holder, or each registrant.
pub(crate) fn is_holder(slots: &[Option<u64>; MOST_NEXUSES], held: Option<Held>, host: u8) -> bool
    ensures { result ≡ is_holder_of (table_keys MOST_NEXUSES slots.now) held host }
{
    match held {
        Some(Held::One(_, holder)) => holder == host,
        Some(Held::All(_)) => is_registered(slots, host),
        None => false,
    }
}

/// Whether the reservation is of this type.
pub(crate) fn is_held_as(held: Option<Held>, kind: Kind) -> bool
    ensures { result ≡ is_held_as held kind }
{
    match held {
        Some(Held::One(standing, _)) => is_kind(standing, kind),
        Some(Held::All(standing)) => is_kind(standing, kind),
        None => false,
    }
}

/// Whether the reservation is of all registrants.
pub fn is_held_by_all(held: Option<Held>) -> bool
    ensures { result ≡ is_held_by_all held }
{
    matches!(held, Some(Held::All(_)))
}

/// Whether the host is the single holder.
pub(crate) fn holds_alone(held: Option<Held>, host: u8) -> bool
    ensures { result ≡ holds_alone held host }
{
    match held {
        Some(Held::One(_, holder)) => holder == host,
        Some(Held::All(_)) => false,
        None => false,
    }
}

/// Whether the registrants are told when the reservation is lost: under types 5 to 8.
pub(crate) fn is_told_of_loss(held: Option<Held>) -> bool
    ensures { result ≡ is_told_of_loss held }
{
    match held {
        Some(Held::One(kind, _)) => is_for_registrants(kind),
        Some(Held::All(kind)) => is_for_registrants(kind),
        None => false,
    }
}

/// Whether types 5 to 8 are meant, under which every registrant has access.
pub fn is_for_registrants(kind: Kind) -> bool
    ensures { result ≡ is_for_registrants kind }
{
    !matches!(kind, Kind::WriteExclusive | Kind::ExclusiveAccess)
}

/// What is left of a reservation once these registrations remain.
pub(crate) fn held_by_rest(slots: &[Option<u64>; MOST_NEXUSES], held: Option<Held>) -> Option<Held>
    ensures { result ≡ held_by_rest (table_keys MOST_NEXUSES slots.now) held }
{
    match held {
        Some(Held::One(kind, host)) => Some(Held::One(kind, host)),
        Some(Held::All(kind)) => {
            if is_empty(slots) {
                None
            } else {
                Some(Held::All(kind))
            }
        }
        None => None,
    }
}

/// The reservation once a host has unregistered and these registrations remain: a single holder's ends
/// with its registration.
pub(crate) fn held_after_unregister(
    slots: &[Option<u64>; MOST_NEXUSES],
    held: Option<Held>,
    host: u8,
) -> Option<Held>
    ensures { result ≡ (if holds_alone held host then None else held_by_rest
        (table_keys MOST_NEXUSES slots.now) held) }
{
    if holds_alone(held, host) {
        return None;
    }
    held_by_rest(slots, held)
}

/// Gives the host this key.
pub(crate) fn insert(slots: &mut [Option<u64>; MOST_NEXUSES], host: u8, key: u64)
    requires { host < MOST_NEXUSES }
    ensures { table_keys MOST_NEXUSES slots.new
        ≡ map.insert (table_keys MOST_NEXUSES slots.old) host key }
{
    slots[usize::from(host)] = Some(key);
}

/// Takes the host's key away.
pub(crate) fn remove(slots: &mut [Option<u64>; MOST_NEXUSES], host: u8)
    requires { host < MOST_NEXUSES }
    ensures { table_keys MOST_NEXUSES slots.new
        ≡ without (table_keys MOST_NEXUSES slots.old) (just host) }
{
    slots[usize::from(host)] = None;
}

/// Takes the keys of these hosts away.
pub(crate) fn remove_all(slots: &mut [Option<u64>; MOST_NEXUSES], removed: &HostSet)
    ensures { table_keys MOST_NEXUSES slots.new
        ≡ without (table_keys MOST_NEXUSES slots.old) removed.now }
{
    for host in 0..MOST_NEXUSES as u8 {
        if removed.has(host) {
            remove(slots, host);
        }
    }
}

/// The keys, in the order of the hosts.
pub(crate) fn keys(slots: &[Option<u64>; MOST_NEXUSES]) -> ArrayVec<u64, MOST_NEXUSES>
    ensures { result.items ≡ map.values (table_keys MOST_NEXUSES slots.now) }
{
    let mut keys = ArrayVec::new();
    for slot in slots {
        match *slot {
            Some(key) => keys.push(key),
            None => {}
        }
    }
    keys
}
