//! What a command asks for, and how its sender stands to it.

ghost use Rattle.std.specs.Prelude.{◌≡◌, ◌≤◌, ◌==◌, IsTrue, IsSome, Some, length, position};
ghost use Rattle.pr_roles.specs.declared.limits.TheConstants.{MOST_KEYS};
ghost use Rattle.pr_regions.specs.Purposes.{number_in, purpose_of, key_named, HasNumber, names_declared};
ghost use Rattle.pr_regions.specs.Regions.{standing_of};

use crate::purpose::{Purpose, Standing};
use pr_cdb::Command;
use pr_unit::{Demand, demand_of};

// The place of a key among the declared ones.
fn place_in(keys: &[u64], key: u64) -> Option<usize>
    ensures { result ≡ position (λ declared. declared == key) keys.now }
{
    keys.iter().position(|declared| *declared == key)
}

/// The number of a declared key, from 1, and zero of one that is not declared.
pub fn number_in(keys: &[u64], key: u64) -> u8
    requires { length keys.now ≤ MOST_KEYS }
    ensures number { result ≡ number_in keys.now key }
    ensures known { result ≤ length keys.now }
    ensures most { result ≤ MOST_KEYS }
{
    match place_in(keys, key) {
        Some(place) => place as u8 + 1,
        None => 0,
    }
}

/// What a command asks for. A PREEMPT has a type.
pub fn purpose_of(command: Command, keys: &[u64]) -> Purpose
    requires few { length keys.now ≤ MOST_KEYS }
    requires typed { IsSome (purpose_of keys.now command) }
    ensures purpose { Some result ≡ purpose_of keys.now command }
    ensures number { IsTrue (names_declared keys.now command) → HasNumber result }
    ensures known { key_named result ≤ length keys.now }
{
    match demand_of(command) {
        Demand::Look => Purpose::Look,
        Demand::Read(in_range) => Purpose::Read(in_range),
        Demand::Write(in_range) => Purpose::Write(in_range),
        Demand::Register(key) => Purpose::Register(number_in(keys, key)),
        Demand::Unregister => Purpose::Unregister,
        Demand::Reserve(kind) => Purpose::Reserve(kind),
        Demand::Release(kind) => Purpose::Release(kind),
        Demand::Clear => Purpose::Clear,
        Demand::PreemptAll(Some(kind)) => Purpose::PreemptAll(kind),
        Demand::Preempt(key, Some(kind)) => Purpose::Preempt(number_in(keys, key), kind),
        Demand::PreemptAll(None) | Demand::Preempt(_, None) => unreachable!(),
    }
}

/// How a sender with this registration stands to the purpose.
pub fn standing_of(purpose: Purpose, registration: u8) -> Standing
    ensures { result ≡ standing_of purpose registration }
{
    if registration == 0 {
        Standing::Unregistered
    } else if purpose.key() == Some(registration) {
        Standing::Named
    } else {
        Standing::Other
    }
}
