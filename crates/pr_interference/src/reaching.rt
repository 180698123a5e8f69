//! What a command can leave at most.

ghost use Rattle.std.specs.Prelude.{◌≡◌, ◌≢◌, ◌<◌, ◌≤◌, ◌||◌, ◌&&◌, ℕ, Option, Some, None, true, false, bit_or, IsTrue};
ghost use Rattle.pr_cdb.specs.declared.codes.TheConstants.{MOST_NEXUSES};
ghost use Rattle.pr_cdb.specs.declared.command.Kind.{Kind as KindOf};
ghost use Rattle.pr_registry.specs.declared.held.Held.{Held as HeldAs};
ghost use Rattle.pr_registry.specs.declared.held.Held.TheVariants.{One, All};
ghost use Rattle.pr_registry.specs.Registrations.{holds_alone};
ghost use Rattle.pr_registry.specs.Changes.{is_kind, is_held_by_all, is_told_of_loss};
ghost use Rattle.pr_roles.specs.declared.limits.TheConstants.{MOST_KEYS};
ghost use Rattle.pr_roles.specs.Fitting.{is_action};
ghost use Rattle.pr_roles.specs.declared.role.Clause.{Clause as ClauseOf};
ghost use Rattle.pr_sets.specs.BitSets.{has};
ghost use Rattle.pr_sets.specs.Wides.{has_wide};
ghost use Rattle.pr_views.specs.declared.view.TheConstants.{ATTENTION_SETS};
ghost use Rattle.pr_views.specs.Possibilities.{Scope};
ghost use Rattle.pr_views.specs.Portions.{has_at};
ghost use Rattle.pr_interference.specs.inside.Interfering.{IsOnlooking};
ghost use Rattle.pr_interference.specs.inside.Reaching.{AreHolders, IsHeldAmong, IsReach, IsMost, IsTold, MayAllGo, HasEveryKey, HasEveryKeyBut, HasNew, MayHave, Reaches};

use crate::holders::Holders;
use crate::marking::attentions_with;
use crate::onlooker::Onlooker;
use crate::reach::{
    Reach, free_if, keys_but_if, keys_if, lacks, lacks_at, lacks_wide, meet, unreserved_if,
};
use pr_attention::{
    REGISTRATIONS_PREEMPTED_BIT, RESERVATIONS_PREEMPTED_BIT, RESERVATIONS_RELEASED_BIT,
};
use pr_cdb::Kind;
use pr_cdb::codes::MOST_NEXUSES;
use pr_regions::{every_key, number_in};
use pr_registry::new_reservation;
use pr_roles::{Action, Clause};
use pr_sets::{BitSet, Wide};
use pr_views::{Possibilities, reservation_number};

impl Onlooker<'_> {
    /// Whether a command that reaches no more than this may leave what the answer is without, beside what was so before it.
    pub(crate) fn may_gain(&self, answer: &Possibilities, reach: &Reach) -> bool
        ensures { result ≡ false → (s : Scope) (clause : ClauseOf) → IsOnlooking s self.now
            → ((x : ℕ) → IsReach s self.now.view clause self.now.other x reach.now)
            → IsMost s self.now.view clause self.now.other answer.now }
    {
        if lacks_wide(answer.reservations, reach.reservations) {
            return true;
        }
        if lacks_at(answer, self.other, reach.given) {
            return true;
        }
        if self.may_tell(answer.pending, reach) {
            return true;
        }
        self.may_free(answer, reach.removed)
    }

    // Whether another who may lose one of these registrations is never free in the answer.
    fn may_free(&self, answer: &Possibilities, removed: BitSet) -> bool
        ensures { result ≡ false → (g r : ℕ) → g < MOST_NEXUSES → g ≢ self.now.other
            → MayHave self.now.view g r → has removed r ≡ true
            → has_at answer.now.registrations g 0 ≡ true }
    {
        if removed.is_empty() {
            return false;
        }
        for host in 0..MOST_NEXUSES {
            if meet(self.view.registrations[host], removed)
                && !answer.registrations[host].has(0)
                && host != usize::from(self.other)
            {
                return true;
            }
        }
        false
    }

    // Whether the owner may be told what the attentions of the answer are without.
    fn may_tell(&self, answer: BitSet, reach: &Reach) -> bool
        ensures { result ≡ false → (r q n : ℕ) → MayHave self.now.view self.now.own r
            → has self.now.view.pending q ≡ true → q < ATTENTION_SETS → IsTold reach.now r q n
            → has answer n ≡ true }
    {
        let owners = self.view.registrations[usize::from(self.own)];
        let pending = self.view.pending;
        may_add(
            answer,
            owners,
            reach.told_03,
            pending,
            RESERVATIONS_PREEMPTED_BIT,
        ) || may_add(
            answer,
            owners,
            reach.told_04,
            pending,
            RESERVATIONS_RELEASED_BIT,
        ) || may_add(
            answer,
            owners,
            reach.told_05,
            pending,
            REGISTRATIONS_PREEMPTED_BIT,
        )
    }

    /// What a command of this clause reaches under the reservations that are possible.
    pub(crate) fn reach(&self, holders: &Holders, clause: &Clause) -> Reach
        requires held { AreHolders self.now.hosts self.now.view.reservations holders.now }
        requires action { is_action self.now.keys.now clause.now.action ≡ true }
        ensures { Reaches self.now clause.now result }
    {
        let met = holders.meeting(clause.condition, self.other);
        if met.are_none() {
            return Reach::none();
        }
        match clause.action {
            Action::Register(key) => Reach {
                given: BitSet::only(number_in(self.keys, key)),
                ..Reach::none()
            },
            Action::Unregister => self.reach_of_unregistering(&met),
            Action::Reserve(kind) => Reach {
                reservations: self.new_if(met.nobody, kind),
                ..Reach::none()
            },
            Action::Release => self.reach_of_releasing(&met),
            Action::Clear => reach_of_clearing(),
            Action::Preempt(key, kind) => {
                if key == 0 {
                    self.reach_of_preempting_all(&met, kind)
                } else {
                    self.reach_of_preempting(&met, number_in(self.keys, key), kind)
                }
            }
            Action::Read | Action::Write => Reach::none(),
        }
    }

    // To be registered no more.
    fn reach_of_unregistering(&self, met: &Holders) -> Reach
        ensures given { has result.given 0 ≡ true }
        ensures ended { (held : Option HeldAs) → IsHeldAmong met.now held
            → (holds_alone held self.now.other || is_held_by_all held) ≡ true
            → has_wide result.reservations 0 ≡ true }
        ensures told { (held : Option HeldAs) → IsHeldAmong met.now held
            → (holds_alone held self.now.other && is_told_of_loss held) ≡ true
            → HasEveryKey result.told_04 }
    {
        Reach {
            given: free_if(true),
            reservations: unreserved_if(met.everybody || met.alone().has(self.other)),
            told_04: keys_if(met.alone_told().has(self.other)),
            ..Reach::none()
        }
    }

    // To release the reservation that stands.
    fn reach_of_releasing(&self, met: &Holders) -> Reach
        ensures ended { (held : Option HeldAs) → IsHeldAmong met.now held
            → (holds_alone held self.now.other || is_held_by_all held) ≡ true
            → has_wide result.reservations 0 ≡ true }
        ensures told { (held : Option HeldAs) → IsHeldAmong met.now held
            → ((holds_alone held self.now.other || is_held_by_all held)
            && is_told_of_loss held) ≡ true
            → HasEveryKey result.told_04 }
    {
        Reach {
            reservations: unreserved_if(met.everybody || met.alone().has(self.other)),
            told_04: keys_if(met.everybody || met.alone_told().has(self.other)),
            ..Reach::none()
        }
    }

    // To preempt all others, where all registrants hold.
    fn reach_of_preempting_all(&self, met: &Holders, kind: Kind) -> Reach
        ensures removed { IsTrue met.now.everybody → HasEveryKey result.removed }
        ensures reservations { IsTrue met.now.everybody
            → HasNew result.reservations self.now.hosts kind self.now.other }
        ensures told { IsTrue met.now.everybody → HasEveryKey result.told_05 }
    {
        Reach {
            removed: keys_if(met.everybody),
            reservations: self.new_if(met.everybody, kind),
            told_05: keys_if(met.everybody),
            ..Reach::none()
        }
    }

    // To preempt the key of this number: whoever has it goes, the reservation of a holder that has it is replaced, and
    // that of all registrants ends where nobody is left.
    fn reach_of_preempting(&self, met: &Holders, key: u8, kind: Kind) -> Reach
        requires key { key ≤ MOST_KEYS }
        ensures given { MayHave self.now.view self.now.other key → has result.given 0 ≡ true }
        ensures ended { IsTrue met.now.everybody → MayHave self.now.view self.now.other key
            → MayAllGo self.now.view self.now.hosts self.now.other key
            → has_wide result.reservations 0 ≡ true }
        ensures removed { has result.removed key ≡ true }
        ensures replaced { (old : KindOf) (holder : ℕ)
            → IsHeldAmong met.now (Some (One old holder)) → holder < self.now.hosts
            → MayHave self.now.view holder key
            → HasNew result.reservations self.now.hosts kind self.now.other }
        ensures told_04 { (old : KindOf) (holder : ℕ)
            → IsHeldAmong met.now (Some (One old holder)) → holder < self.now.hosts
            → MayHave self.now.view holder key → is_kind old kind ≡ false
            → HasEveryKeyBut key result.told_04 }
        ensures told_05 { has result.told_05 key ≡ true }
    {
        let named = BitSet::only(key);
        let having = self.having(key);
        let replaced = meet(met.alone(), having);
        let retyped = meet(met.alone_but(kind), having);
        let ended = unreserved_if(self.may_end(met, key));
        Reach {
            given: free_if(self.may_have(self.other, key)),
            removed: named,
            reservations: self.new_if(replaced, kind).or(ended),
            told_04: keys_but_if(retyped, key),
            told_05: named,
            ..Reach::none()
        }
    }

    // Whether the reservation of all registrants may end with their registrations.
    fn may_end(&self, met: &Holders, key: u8) -> bool
        requires key { key ≤ MOST_KEYS }
        ensures { IsTrue met.now.everybody → MayHave self.now.view self.now.other key
            → MayAllGo self.now.view self.now.hosts self.now.other key → IsTrue result }
    {
        met.everybody && self.may_have(self.other, key) && self.may_all_go(key)
    }

    // Who may have the key of this number.
    fn having(&self, key: u8) -> BitSet
        requires key { key ≤ MOST_KEYS }
        ensures { (g : ℕ) → g < self.now.hosts → MayHave self.now.view g key
            → has result g ≡ true }
    {
        let mut having = BitSet::none();
        for host in 0..self.hosts {
            if self.may_have(host, key) {
                having = having.with(host);
            }
        }
        having
    }

    // The reservation of this type that the other establishes, if this is so.
    fn new_if(&self, is: bool, kind: Kind) -> Wide
        ensures { IsTrue is → HasNew result self.now.hosts kind self.now.other }
    {
        if is {
            Wide::only(reservation_number(self.hosts, Some(new_reservation(kind, self.other))))
        } else {
            Wide::none()
        }
    }

    // Whether each but the sender may be free or have the key of this number.
    fn may_all_go(&self, key: u8) -> bool
        requires key { key ≤ MOST_KEYS }
        ensures { MayAllGo self.now.view self.now.hosts self.now.other key → IsTrue result }
    {
        for host in 0..self.hosts {
            if host != self.other && !self.may_go(host, key) {
                return false;
            }
        }
        true
    }

    // Whether this one may.
    fn may_go(&self, host: u8, key: u8) -> bool
        requires host { host < MOST_NEXUSES }
        requires key { key ≤ MOST_KEYS }
        ensures { result ≡ (has_at self.now.view.registrations host 0
            || has_at self.now.view.registrations host key) }
    {
        self.may_have(host, 0) || self.may_have(host, key)
    }

    // Whether a nexus may have this registration.
    fn may_have(&self, host: u8, registration: u8) -> bool
        requires host { host < MOST_NEXUSES }
        requires registration { registration ≤ MOST_KEYS }
        ensures { result ≡ has_at self.now.view.registrations host registration }
    {
        self.view.registrations[usize::from(host)].has(registration)
    }
}

// To remove the reservation and every registration.
fn reach_of_clearing() -> Reach
    ensures given { has result.given 0 ≡ true }
    ensures removed { HasEveryKey result.removed }
    ensures reservations { has_wide result.reservations 0 ≡ true }
    ensures told { HasEveryKey result.told_03 }
{
    Reach {
        given: free_if(true),
        removed: every_key(),
        reservations: unreserved_if(true),
        told_03: every_key(),
        ..Reach::none()
    }
}

// Whether an owner with one of the registrations can be told, and its attentions with these bits are not all in the answer.
fn may_add(answer: BitSet, owners: BitSet, told: BitSet, pending: BitSet, mark: u8) -> bool
    requires { mark < ATTENTION_SETS }
    ensures { result ≡ false → (r q : ℕ) → has owners r ≡ true → has told r ≡ true
        → has pending q ≡ true → q < ATTENTION_SETS → has answer (bit_or q mark) ≡ true }
{
    meet(owners, told) && lacks(answer, attentions_with(pending, mark))
}
