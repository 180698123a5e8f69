//! The first start of a scenario.

ghost use Rattle.std.specs.Prelude.{◌≡◌, ◌↔◌, ◌<◌, ◌≤◌, ◌^◌, Some, IsTrue, IsSome, IfSome, slice_set, length, is_some, map, option_map, position};
ghost use Rattle.std.specs.List.{list_any};
ghost use Rattle.pr_cdb.specs.declared.codes.TheConstants.{MOST_NEXUSES};
ghost use Rattle.pr_registry.specs.Registrations.{IsWellFormed};
ghost use Rattle.pr_registry.specs.Tables.{state_from};
ghost use Rattle.pr_unit.specs.Tables.{quiet_unit};
ghost use Rattle.pr_roles.specs.Scenarios.{scenario_of};
ghost use Rattle.pr_roles.specs.Fitting.{Fits};
ghost use Rattle.pr_roles.specs.Starts.{CanStart, IsAllowedStart};
ghost use Rattle.pr_roles.specs.FirstStarts.{first_of, first_key, with_key, with_registrant, keys_under, first_under, first_state};
ghost use Rattle.pr_roles.specs.inside.StoredStarts.{start_of};

use crate::parts::{Nexus, Parts, Start};
use arrayvec::ArrayVec;
use pr_cdb::codes::MOST_NEXUSES;
use pr_registry::{Held, Registry};

/// The registration of each nexus, by its number.
pub(crate) type Keys = ArrayVec<Option<u64>, MOST_NEXUSES>;

impl Parts {
    /// Whether some state is allowed to start from.
    pub(crate) fn can_start(&self) -> bool
        requires { Fits (scenario_of self.now) }
        ensures { IsTrue result ↔ CanStart (scenario_of self.now) }
    {
        self.first_registry().is_some()
    }

    /// The registry of the first start: `None` where no state is allowed.
    pub(crate) fn first_registry(&self) -> Option<Registry>
        requires { Fits (scenario_of self.now) }
        ensures value { option_map (λ registry. quiet_unit registry) result
            ≡ first_state (scenario_of self.now) }
        ensures exactly { IsSome result ↔ CanStart (scenario_of self.now) }
        ensures allowed { IfSome result (λ registry. IsAllowedStart (scenario_of self.now)
            (quiet_unit registry)) }
    {
        let (held, keys) = first_under(&self.nexuses, &self.reservations)?;
        registry_of(&keys, held, self.generation)
    }
}

fn registry_of(keys: &[Option<u64>], held: Option<Held>, generation: u32) -> Option<Registry>
    ensures value { IfSome result (λ registry. registry ≡ state_from keys.now held generation) }
    ensures exactly { IsSome result ↔ IsWellFormed (state_from keys.now held generation) }
    ensures room { generation < 2 ^ 32 }
{
    Registry::from_parts(keys, held, generation)
}

// The first of the reservations that can be well formed, with the registrations under it.
fn first_under(nexuses: &[Nexus], reservations: &[Option<Held>]) -> Option<(Option<Held>, Keys)>
    requires { length nexuses.now ≤ MOST_NEXUSES }
    ensures { option_map (λ first. (first.0, first.1.items)) result
        ≡ first_under (map start_of nexuses.now) reservations.now }
{
    for held in reservations {
        if let Some(keys) = keys_under(nexuses, *held) {
            return Some((*held, keys));
        }
    }
    None
}

// The registrations under which the reservation is well formed.
fn keys_under(nexuses: &[Nexus], held: Option<Held>) -> Option<Keys>
    requires { length nexuses.now ≤ MOST_NEXUSES }
    ensures { option_map (λ keys. keys.items) result ≡ keys_under (map start_of nexuses.now) held }
{
    let keys = first_keys(nexuses);
    match held {
        None => Some(keys),
        Some(Held::One(_, host)) => with_key(nexuses, keys, usize::from(host)),
        Some(Held::All(_)) => with_registrant(nexuses, keys),
    }
}

// The first alternative of each.
fn first_keys(nexuses: &[Nexus]) -> Keys
    requires { length nexuses.now ≤ MOST_NEXUSES }
    ensures { result.items ≡ map first_of (map start_of nexuses.now) }
{
    let mut keys = Keys::new();
    for nexus in nexuses {
        keys.push(first_of(&nexus.start));
    }
    keys
}

fn first_of(start: &Start) -> Option<u64>
    ensures { result ≡ first_of start.now.alternatives.items }
{
    match start.alternatives.first() {
        Some(key) => *key,
        None => None,
    }
}

// The nexus is registered with the first of its keys, if it has one.
#[tactic(auto, using(crate::proofs::lemmas::FirstStarts::Existence::start_at))]
fn with_key(nexuses: &[Nexus], keys: Keys, host: usize) -> Option<Keys>
    requires { length nexuses.now ≡ length keys.items }
    ensures { option_map (λ keys. keys.items) result
        ≡ with_key (map start_of nexuses.now) keys.items host }
{
    let nexus = nexuses.get(host)?;
    let key = first_key(&nexus.start)?;
    Some(registered(keys, host, key))
}

// The host is registered with the key.
fn registered(mut keys: Keys, host: usize, key: u64) -> Keys
    requires { host < length keys.items }
    ensures { result.items ≡ slice_set keys.items host (Some key) }
{
    keys.as_mut_slice()[host] = Some(key);
    keys
}

// Some nexus is registered, or else the first that can be is.
#[tactic(auto, using(crate::proofs::lemmas::FirstStarts::Existence::position_of_starts))]
fn with_registrant(nexuses: &[Nexus], keys: Keys) -> Option<Keys>
    requires { length nexuses.now ≡ length keys.items }
    ensures { option_map (λ keys. keys.items) result
        ≡ with_registrant (map start_of nexuses.now) keys.items }
{
    if is_any_registered(&keys) {
        return Some(keys);
    }
    with_key(nexuses, keys, first_registrable(nexuses)?)
}

fn is_any_registered(keys: &[Option<u64>]) -> bool
    ensures { result ≡ list_any (λ key. is_some key) keys.now }
{
    keys.iter().any(|key| key.is_some())
}

// The first nexus that has a key among its alternatives.
fn first_registrable(nexuses: &[Nexus]) -> Option<usize>
    ensures { result ≡ position (λ nexus. is_some (first_key (start_of nexus))) nexuses.now }
{
    nexuses
        .iter()
        .position(|nexus| first_key(&nexus.start).is_some())
}

// Of the alternatives, the first that is a key.
fn first_key(start: &Start) -> Option<u64>
    ensures { result ≡ first_key start.now.alternatives.items }
{
    for key in &start.alternatives {
        if key.is_some() {
            return *key;
        }
    }
    None
}
