//! The registrations, the reservation and the generation.

ghost use Rattle.std.specs.Prelude.{◌≡◌, ◌<◌, ◌≤◌, ◌↔◌, IsTrue, IsSome, IfSome, None, false, length};
ghost use Rattle.std.specs.FinMap as map;
ghost use Rattle.pr_registry.specs.Effects.{next};

use crate::change::Change;
use crate::held::Held;
use crate::host_set::HostSet;
use crate::preempt::Case;
use crate::{preempt, table};
use arrayvec::ArrayVec;
use pr_cdb::Kind;
use pr_cdb::codes::MOST_NEXUSES;
use std::marker::Model;

/// Who is registered with which key, the reservation, and PRGENERATION (SPC-4, 'Persistent
/// reservations').
///
/// Hosts are numbered from 0. Each method that changes the registry is a service action of PERSISTENT
/// RESERVE OUT that ends GOOD; its `requires` says what must hold for that beyond the sender's keys.
#[derive(Debug, Drop)]
pub struct Registry {
    hosts: u8,
    slots: [Option<u64>; MOST_NEXUSES],
    held: Option<Held>,
    generation: u32,
}

impl Model for Registry {
    ghost use Rattle.pr_registry.specs.contracts.held.Held as held_code;
    ghost use Rattle.pr_registry.specs.Registrations.{State, IsWellFormed};
    ghost use Rattle.pr_registry.specs.inside.TableStates.{state_code, state_of};

    ghost Value = { State };

    ghost coded = { state_code held_code.the_row.coded };

    ghost view = { λ r. state_of r.hosts r.slots r.held r.generation };

    ghost invariant = { λ r. IsWellFormed (state_of r.hosts r.slots r.held r.generation) };
}

impl Registry {
    ghost use Rattle.pr_registry.specs.Registrations.{IsWellFormed, key_of, is_registered, others, is_holder};
    ghost use Rattle.pr_registry.specs.Premises.{Holds, HasKindIfReplacing, picks_registrations};
    ghost use Rattle.pr_registry.specs.Tables.{empty_registry, state_from};
    ghost use Rattle.pr_registry.specs.Hosts.{has_no_registrant};
    ghost use Rattle.pr_registry.specs.Changes.{no_change, conflicts_with_reserve, is_held_as, is_held_by_all, is_released, preempt_case, is_replacing, change_on_unregister, change_on_release, change_on_clear, change_on_preempt};
    ghost use Rattle.pr_registry.specs.inside.Cases.{case_of};
    ghost use Rattle.pr_registry.specs.Effects.{with_registration, without_registration, with_reservation, after_release, after_clear, after_preempt};

    /// Nothing is registered or reserved, and the generation is 0.
    pub fn new(hosts: u8) -> Self
        requires some { 1 ≤ hosts }
        requires most { hosts ≤ MOST_NEXUSES }
        ensures { result ≡ empty_registry hosts }
    {
        Registry {
            hosts,
            slots: [None; MOST_NEXUSES],
            held: None,
            generation: 0,
        }
    }

    /// The registry that has these keys, one place for each host, this reservation and this generation:
    /// `None` where there is no host or more than [`MOST_NEXUSES`], a key is zero, the reservation's type does not
    /// belong to its holders, or it has no holder.
    pub fn from_parts(keys: &[Option<u64>], held: Option<Held>, generation: u32) -> Option<Self>
        ensures value { IfSome result (λ r. r ≡ state_from keys.now held generation) }
        ensures exactly { IsSome result ↔ IsWellFormed (state_from keys.now held generation) }
    {
        if keys.is_empty() {
            return None;
        }
        if keys.len() > MOST_NEXUSES {
            return None;
        }
        if !table::are_keys(keys) {
            return None;
        }
        let slots = table::slots_of(keys);
        if !table::has_holder(&slots, held) {
            return None;
        }
        Some(Registry {
            hosts: keys.len() as u8,
            slots,
            held,
            generation,
        })
    }

    /// An equal one.
    pub fn copy(&self) -> Self
        ensures { result ≡ self.now }
    {
        Registry {
            hosts: self.hosts,
            slots: self.slots,
            held: self.held,
            generation: self.generation,
        }
    }

    /// How many hosts there are, at least 1 and at most [`MOST_NEXUSES`].
    pub fn hosts(&self) -> u8
        ensures value { result ≡ self.now.hosts }
        ensures well_formed { IsWellFormed self.now }
    {
        self.hosts
    }

    /// The key that the host is registered with.
    pub fn key(&self, host: u8) -> Option<u64>
        requires { host < self.now.hosts }
        ensures { result ≡ key_of self.now host }
    {
        self.slots[usize::from(host)]
    }

    /// The key of each registered host, in the order of their numbers; equal keys are repeated.
    pub fn keys(&self) -> ArrayVec<u64, MOST_NEXUSES>
        ensures { result.items ≡ map.values self.now.keys }
    {
        table::keys(&self.slots)
    }

    /// The reservation.
    pub fn held(&self) -> Option<Held>
        ensures { result ≡ self.now.held }
    {
        self.held
    }

    /// Whether the host is registered.
    pub fn is_registered(&self, host: u8) -> bool
        requires { host < self.now.hosts }
        ensures { result ≡ is_registered self.now host }
    {
        table::is_registered(&self.slots, host)
    }

    /// Whether no host is registered with this key.
    pub fn has_no_registrant(&self, key: u64) -> bool
        ensures { result ≡ has_no_registrant self.now.keys key }
    {
        table::has_no_registrant(&self.slots, key)
    }

    /// Whether the host holds the reservation: the single holder, or each registrant under types 7 and 8.
    pub fn is_holder(&self, host: u8) -> bool
        requires { host < self.now.hosts }
        ensures { result ≡ is_holder self.now host }
    {
        table::is_holder(&self.slots, self.held, host)
    }

    /// Whether the reservation is of this type.
    pub fn is_held_as(&self, kind: Kind) -> bool
        ensures { result ≡ is_held_as self.now.held kind }
    {
        table::is_held_as(self.held, kind)
    }

    /// Whether all registrants hold the reservation.
    pub fn is_held_by_all(&self) -> bool
        ensures { result ≡ is_held_by_all self.now.held }
    {
        table::is_held_by_all(self.held)
    }

    /// Whether the reservation keeps the host from reserving with this type.
    pub fn conflicts_with_reserve(&self, host: u8, kind: Kind) -> bool
        requires { host < self.now.hosts }
        ensures { result ≡ conflicts_with_reserve self.now host self.now.held kind }
    {
        self.held.is_some() && !self.is_released(host, kind)
    }

    /// Whether a PREEMPT with this key replaces the reservation, and so needs a type.
    pub fn is_replaced_by(&self, sark: u64) -> bool
        ensures { result ≡ is_replacing (preempt_case self.now.keys self.now.held sark) }
    {
        preempt::is_replacing(preempt::preempt_case(&self.slots, self.held, sark))
    }

    /// PRGENERATION.
    pub fn generation(&self) -> u32
        ensures { result ≡ self.now.generation }
    {
        self.generation
    }

    /// REGISTER, or REGISTER AND IGNORE EXISTING KEY, with a key that is not zero: the host has this key
    /// from now on.
    pub fn register(&mut self, host: u8, key: u64) -> Change
        requires there { host < self.old.hosts }
        requires key { 1 ≤ key }
        ensures state { self.new ≡ with_registration self.old host key }
        ensures change { result ≡ no_change }
    {
        table::insert(&mut self.slots, host, key);
        self.generation = next(self.generation);
        Change::none()
    }

    /// REGISTER, or REGISTER AND IGNORE EXISTING KEY, with the key zero, by a registrant: it loses its
    /// registration. Where it held alone its reservation ends, and under types 5 and 6 the other
    /// registrants are told so; a reservation of all registrants ends with the last of them.
    pub fn unregister(&mut self, host: u8) -> Change
        requires { IsTrue (is_registered self.old host) }
        ensures state { self.new ≡ without_registration self.old host }
        ensures change { result ≡ change_on_unregister self.old host }
    {
        let change = self.change_on_unregister(host);
        table::remove(&mut self.slots, host);
        self.held = table::held_after_unregister(&self.slots, self.held, host);
        self.generation = next(self.generation);
        change
    }

    /// RESERVE, by a registrant: it holds the reservation from now on, or all registrants do. One that
    /// holds a reservation of this type already changes nothing.
    pub fn reserve(&mut self, host: u8, kind: Kind) -> Change
        requires there { IsTrue (is_registered self.old host) }
        requires free { conflicts_with_reserve self.old host self.old.held kind ≡ false }
        ensures state { self.new ≡ with_reservation self.old host kind }
        ensures change { result ≡ no_change }
    {
        if self.held.is_none() {
            self.held = Some(table::new_reservation(kind, host));
        }
        Change::none()
    }

    /// RELEASE, by a registrant: where it holds, it names the type that stands, and the reservation ends;
    /// under types 5 to 8 the other registrants are told so. One that does not hold changes nothing.
    pub fn release(&mut self, host: u8, kind: Kind) -> Change
        requires there { IsTrue (is_registered self.old host) }
        requires named { Holds self.old host → IsTrue (is_held_as self.old.held kind) }
        ensures state { self.new ≡ after_release self.old host kind }
        ensures change { result ≡ change_on_release self.old host kind }
    {
        let change = self.change_on_release(host, kind);
        if self.is_released(host, kind) {
            self.held = None;
        }
        change
    }

    /// CLEAR, by a registrant: all registrations and the reservation end, and the other registrants are
    /// told so.
    pub fn clear(&mut self, host: u8) -> Change
        requires { IsTrue (is_registered self.old host) }
        ensures state { self.new ≡ after_clear self.old }
        ensures change { result ≡ change_on_clear self.old host }
    {
        let change = self.change_on_clear(host);
        self.slots = [None; MOST_NEXUSES];
        self.held = None;
        self.generation = next(self.generation);
        change
    }

    /// PREEMPT, or PREEMPT AND ABORT, by a registrant, with a key that some host has, or with zero where
    /// all registrants hold: registrations end and those who had them are told so. Where the key is zero
    /// or that of the reservation's single holder, the sender stays registered and the reservation is
    /// replaced by one of this type; registrants who stay are told where a single holder's had another
    /// type.
    pub fn preempt(&mut self, host: u8, sark: u64, kind: Option<Kind>) -> Change
        requires there { IsTrue (is_registered self.old host) }
        requires picks { IsTrue (picks_registrations self.old.keys self.old.held sark) }
        requires typed { HasKindIfReplacing kind (preempt_case self.old.keys self.old.held sark) }
        ensures state { self.new ≡ after_preempt self.old host sark kind }
        ensures change { result ≡ change_on_preempt self.old host sark kind }
    {
        let case = preempt::preempt_case(&self.slots, self.held, sark);
        let change = self.change_on_preempt(host, sark, kind, case);
        table::remove_all(&mut self.slots, &change.removed);
        self.held = preempt::held_after_preempt(&self.slots, self.held, host, kind, case);
        self.generation = next(self.generation);
        change
    }

    // The registrants but one.
    fn others(&self, host: u8) -> HostSet
        requires { host < MOST_NEXUSES }
        ensures { result ≡ others self.now host }
    {
        table::registrants(&self.slots).without(host)
    }

    fn change_on_unregister(&self, host: u8) -> Change
        requires { host < MOST_NEXUSES }
        ensures { result ≡ change_on_unregister self.now host }
    {
        let mut change = Change::none();
        change.removed.insert(host);
        if table::holds_alone(self.held, host) && table::is_told_of_loss(self.held) {
            change.told_04 = self.others(host);
        }
        change
    }

    // Whether a RELEASE of this type by the host ends the reservation.
    fn is_released(&self, host: u8, kind: Kind) -> bool
        ensures { result ≡ is_released self.now host kind }
    {
        table::is_holder(&self.slots, self.held, host) && table::is_held_as(self.held, kind)
    }

    fn change_on_release(&self, host: u8, kind: Kind) -> Change
        requires { host < MOST_NEXUSES }
        ensures { result ≡ change_on_release self.now host kind }
    {
        let mut change = Change::none();
        if self.is_released(host, kind) && table::is_told_of_loss(self.held) {
            change.told_04 = self.others(host);
        }
        change
    }

    fn change_on_clear(&self, host: u8) -> Change
        requires { host < MOST_NEXUSES }
        ensures { result ≡ change_on_clear self.now host }
    {
        let mut change = Change::none();
        change.removed = table::registrants(&self.slots);
        change.told_03 = self.others(host);
        change
    }

    fn change_on_preempt(&self, host: u8, sark: u64, kind: Option<Kind>, case: Case) -> Change
        requires there { host < MOST_NEXUSES }
        requires case { case_of case ≡ preempt_case self.now.keys self.now.held sark }
        ensures { result ≡ change_on_preempt self.now host sark kind }
    {
        let mut change = Change::none();
        change.removed = preempt::removed_by_preempt(&self.slots, host, sark, case);
        change.told_05 = change.removed.without(host);
        if preempt::is_new_type(kind, case) {
            change.told_04 = self.others(host).difference(&change.removed);
        }
        change
    }
}

// The generation after this one.
fn next(generation: u32) -> u32
    ensures { result ≡ next generation }
{
    generation.wrapping_add(1)
}
