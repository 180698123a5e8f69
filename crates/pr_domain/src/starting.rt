//! The states that a scenario may start from.

ghost use Rattle.std.specs.Prelude.{◌≡◌, ◌↔◌, ◌<◌, ◌≤◌, ℕ, true, length, IsTrue, IfOk};
ghost use Rattle.std.specs.List.{list_all};
ghost use Rattle.pr_attention.specs.Flagged.{codes_of};
ghost use Rattle.pr_roles.specs.declared.limits.TheConstants.{MOST_KEYS};
ghost use Rattle.pr_roles.specs.Fitting.{Fits as FitsAll, is_reservation};
ghost use Rattle.pr_roles.specs.Scenarios.{scenario_of};
ghost use Rattle.pr_sets.specs.BitSets.{has};
ghost use Rattle.pr_sets.specs.Numbers.{Within};
ghost use Rattle.pr_sets.specs.Wides.{has_wide};
ghost use Rattle.pr_views.specs.Views.{Fits};
ghost use Rattle.pr_views.specs.Portions.{has_at, view_in};
ghost use Rattle.pr_views.specs.Rooms.{view_of, AreInRange};
ghost use Rattle.pr_domain.specs.Starting.{IsOfStart};
ghost use Rattle.pr_domain.specs.inside.Beginning.{registration_in, has_alternative, may_have, has_reservation, scope_in, AreAlternatives};

use pr_attention::Pending;
use pr_cdb::codes::MOST_NEXUSES;
use pr_regions::{kept, number_in};
use pr_registry::Held;
use pr_roles::{Nexus, Parts, Scenario};
use pr_sets::{BitSet, ViewSet, Wide};
use pr_views::{ATTENTION_SETS, Possibilities, ViewOf, reservation_number};
use std::alloc::{AllocError, Global};

/// The view of the states that the scenario may start from: it shows each of them, and has nothing that is so in none.
pub fn of_start<S: ViewSet>(
    alloc: Global,
    scenario: &Scenario,
    own: u8,
) -> Result<ViewOf<S>, AllocError>
    requires own { own < length (scenario_of scenario.now).nexuses }
    ensures keys { IfOk result (λ v. v.keys.items ≡ (scenario_of scenario.now).keys) }
    ensures hosts { IfOk result (λ v. v.hosts ≡ length (scenario_of scenario.now).nexuses) }
    ensures start { IfOk result (λ v. IsOfStart (scenario_of scenario.now)
        (view_of own v)) }
{
    let parts = scenario.parts();
    let hosts = parts.nexuses.len() as u8;
    let owner = Owner { parts, hosts, own };
    let words = owner.starts();
    ViewOf::of(alloc, &parts.keys, hosts, &words)
}

/// One nexus of a scenario, whose view of the starts is wanted.
#[derive(Clone, Copy)]
struct Owner<'a> {
    parts: &'a Parts,
    hosts: u8,
    own: u8,
    ghost there: { own < hosts },
    ghost counted: { length parts.now.nexuses.items ≡ hosts },
    ghost fits: { FitsAll (scenario_of parts.now) },
}

impl Owner<'_> {
    // The possibilities of the states from which its scenario may start.
    fn starts(&self) -> Possibilities
        ensures range { AreInRange self.now.hosts self.now.parts.now.keys.items result }
        ensures start { IsOfStart (scenario_of self.now.parts.now)
            (view_in (scope_in self.now.own self.now.hosts self.now.parts.now) result) }
    {
        // With some of them no state is well formed, as where a holder has no key.
        kept(self.hosts, &self.alternatives())
    }

    // Everything that is written of the start.
    fn alternatives(&self) -> Possibilities
        ensures alternatives { AreAlternatives (scenario_of self.now.parts.now)
            (scope_in self.now.own self.now.hosts self.now.parts.now) result }
        ensures fits { Fits (view_in
            (scope_in self.now.own self.now.hosts self.now.parts.now) result) }
    {
        Possibilities {
            registrations: self.registrations(&self.parts.nexuses),
            reservations: reservations(self.hosts, &self.parts.reservations),
            pending: sets_within(&self.parts.nexuses[usize::from(self.own)].pending),
        }
    }

    // The registrations with which each may start.
    fn registrations(&self, nexuses: &[Nexus]) -> [BitSet; MOST_NEXUSES]
        requires { length nexuses.now ≤ MOST_NEXUSES }
        ensures { (g r : ℕ) → has_at result g r
            ≡ may_have self.now.parts.now.keys.items nexuses.now g r }
    {
        let mut words = [BitSet::none(); MOST_NEXUSES];
        for (host, nexus) in nexuses.iter().enumerate() {
            words[host] = self.registrations_of(&nexus.start.alternatives);
        }
        words
    }

    // The numbers of these registrations.
    fn registrations_of(&self, alternatives: &[Option<u64>]) -> BitSet
        ensures { (r : ℕ) → has result r
            ≡ has_alternative self.now.parts.now.keys.items alternatives.now r }
    {
        let mut numbers = BitSet::none();
        for key in alternatives {
            numbers = numbers.with(self.registration_in(*key));
        }
        numbers
    }

    fn registration_in(&self, key: Option<u64>) -> u8
        ensures number { result ≡ registration_in self.now.parts.now.keys.items key }
        ensures few { result ≤ MOST_KEYS }
    {
        match key {
            Some(key) => number_in(&self.parts.keys, key),
            None => 0,
        }
    }
}

// The numbers of these reservations.
fn reservations(hosts: u8, reservations: &[Option<Held>]) -> Wide
    requires hosts { hosts ≤ MOST_NEXUSES }
    requires fit { IsTrue (list_all (is_reservation hosts) reservations.now) }
    ensures { (x : ℕ) → has_wide result x ≡ has_reservation hosts reservations.now x }
{
    let mut numbers = Wide::none();
    for held in reservations {
        numbers = numbers.with(reservation_number(hosts, *held));
    }
    numbers
}

// The sets of attentions that are within the written one.
fn sets_within(written: &Pending) -> BitSet
    ensures few { (q : ℕ) → has result q ≡ true → q < ATTENTION_SETS }
    ensures within { (q : ℕ) → q < ATTENTION_SETS
        → (has result q ≡ true) ↔ Within (codes_of q) written.now }
{
    let mut sets = BitSet::none();
    for attentions in 0..ATTENTION_SETS {
        if Pending::of_bits(attentions).is_within(written) {
            sets = sets.with(attentions);
        }
    }
    sets
}
