//! Portions of the states that a view shows.

ghost use Rattle.std.specs.Prelude.{◌≡◌, ◌≢◌, ℕ, ◌<◌, ◌≤◌, ◌&&◌, true, false, IsTrue, IfSome, IfNone};
ghost use Rattle.pr_unit.specs.UnitStates.{UnitState};
ghost use Rattle.pr_sets.specs.BitSets.{has};
ghost use Rattle.pr_views.specs.Views.{View, Fits};
ghost use Rattle.pr_views.specs.Portions.{has_at, IsIn, IsPortion, AreFilled, AreWithin, IsProjected};
ghost use Rattle.pr_views.specs.inside.Passing.{LacksOne, CanPass, CannotPass, NonePasses, IsFirstPassing};

use pr_cdb::codes::MOST_NEXUSES;
use pr_sets::BitSet;

/// Of the states that a view shows, those with one reservation, in which each nexus has one of some
/// registrations, and, where there is a test, one other than the sender of a command has a registration that passes.
#[derive(Clone, Copy, PartialEq, Eq)]
pub struct Portion {
    /// The nexus that the test does not look at.
    pub sender: u8,
    /// The reservation, by its number.
    pub reservation: u8,
    /// The registrations that each nexus may have.
    pub registrations: [BitSet; MOST_NEXUSES],
    /// The registrations of which one other than the sender must have one.
    pub somebody: Option<BitSet>,
}

impl Portion {
    /// What each nexus has in the states of the portion, of so many that are there. None where the portion
    /// has no state.
    pub fn projected(&self, hosts: u8) -> Option<[BitSet; MOST_NEXUSES]>
        requires few { (1 ≤ hosts) × (hosts ≤ MOST_NEXUSES) }
        requires sender { self.now.sender < hosts }
        ensures some { IfSome result (λ words. (v : View) → v.scope.hosts ≡ hosts → Fits v
            → IsPortion v self.now → IsProjected v self.now words) }
        ensures none { IfNone result ((v : View) → v.scope.hosts ≡ hosts → Fits v
            → IsPortion v self.now → (u : UnitState) → IsIn v self.now u → ⊥) }
        ensures within { IfSome result (λ words. AreWithin words self.now.registrations) }
        ensures filled { IfSome result (AreFilled hosts) }
    {
        if !self.is_filled(hosts) {
            return None;
        }
        let Some(test) = self.somebody else {
            return Some(self.registrations);
        };
        let first = self.first_passing(test, 0, hosts)?;
        if self.first_passing(test, first + 1, hosts).is_some() {
            return Some(self.registrations);
        }
        Some(self.passed_by(test, first))
    }

    // Whether each nexus that is there has a registration left.
    fn is_filled(&self, hosts: u8) -> bool
        requires { hosts ≤ MOST_NEXUSES }
        ensures filled { IsTrue result → AreFilled hosts self.now.registrations }
        ensures lacks { result ≡ false → LacksOne hosts self.now.registrations }
    {
        for host in 0..hosts {
            if self.registrations[usize::from(host)].is_empty() {
                return false;
            }
        }
        true
    }

    // Of the nexuses from a number on, the first that can pass the test.
    fn first_passing(&self, test: BitSet, from: u8, hosts: u8) -> Option<u8>
        requires { hosts ≤ MOST_NEXUSES }
        ensures some { IfSome result (IsFirstPassing self.now test from hosts) }
        ensures none { IfNone result (NonePasses self.now test from hosts) }
    {
        for host in from..hosts {
            if self.can_pass(test, host) {
                return Some(host);
            }
        }
        None
    }

    // Whether one other than the sender has a registration left that passes the test.
    fn can_pass(&self, test: BitSet, host: u8) -> bool
        requires { host < MOST_NEXUSES }
        ensures passes { IsTrue result → CanPass self.now test host }
        ensures fails { result ≡ false → CannotPass self.now test host }
    {
        host != self.sender && !self.registrations[usize::from(host)].and(test).is_empty()
    }

    // What each has left where this one must pass the test.
    fn passed_by(&self, test: BitSet, host: u8) -> [BitSet; MOST_NEXUSES]
        requires { host < MOST_NEXUSES }
        ensures here { (r : ℕ) → has_at result host r
            ≡ (has_at self.now.registrations host r && has test r) }
        ensures others { (g r : ℕ) → g ≢ host
            → has_at result g r ≡ has_at self.now.registrations g r }
    {
        let mut words = self.registrations;
        words[usize::from(host)] = words[usize::from(host)].and(test);
        words
    }
}
