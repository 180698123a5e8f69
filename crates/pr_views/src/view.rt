//! Views.

ghost use Rattle.std.specs.Prelude.{◌≡◌, ◌<◌, ◌≤◌, ◌+◌, ℕ, false, length};
ghost use Rattle.std.specs.List.{All};
ghost use Rattle.pr_cdb.specs.declared.codes.TheConstants.{MOST_NEXUSES};
ghost use Rattle.pr_roles.specs.Fitting.{AreDeclared};
ghost use Rattle.pr_views.specs.Portions.{contains_at};
ghost use Rattle.pr_views.specs.Possibilities.{count_of_reservations, count_of_attentions};

use crate::possibilities::Possibilities;
use crate::sets::{are_empty, are_within, empty_sets, set_of, sets_of, word_of, words_of};
use arrayvec::ArrayVec;
use pr_cdb::codes::MOST_NEXUSES;
use pr_roles::limits::MOST_KEYS;
use pr_sets::{ViewSet, WordSet};
use std::alloc::{AllocError, Global};

/// What a host can know of the logical unit: which registrations are possible for each nexus, which
/// reservations, and which attentions pending for itself.
///
/// A view is of 1 to 16 nexuses, with declared keys, and its sets have room for what is possible of each. That is said once, here.
#[derive(Drop)]
pub struct ViewOf<S: ViewSet> {
    /// The declared keys.
    pub keys: ArrayVec<u64, MOST_KEYS>,
    /// How many nexuses there are.
    pub hosts: u8,
    /// For each nexus, its registrations: 0 for none, or the place of a declared key, from 1. The sets past
    /// the nexuses that are there are empty.
    pub registrations: [S; MOST_NEXUSES],
    /// The reservations: 0 for none, then types 1, 3, 5, 6, each by its holder, then 7 and 8.
    pub reservations: S,
    /// The attentions pending for the owner of the view, with a bit for each code, the lowest code lowest.
    pub pending: S,
    pub ghost some: { 1 ≤ hosts },
    pub ghost few: { hosts ≤ MOST_NEXUSES },
    pub ghost declared: { AreDeclared keys.items },
    pub ghost past: { (g n : ℕ) → hosts ≤ g → contains_at S.members registrations g n ≡ false },
    pub ghost room_of_registrations: { All (λ s. S.room s ≡ length keys.items + 1) registrations },
    pub ghost room_of_reservations: { S.room reservations ≡ count_of_reservations hosts },
    pub ghost room_of_pending: { S.room pending ≡ count_of_attentions },
}

/// A view whose sets take no memory.
pub type View = ViewOf<WordSet>;

/// How many registrations one can have at most: none, or one by each key.
pub const MOST_REGISTRATIONS: u8 = MOST_KEYS as u8 + 1;

/// How many sets of pending attentions there are, with a bit for each of the four codes.
pub const ATTENTION_SETS: u8 = 16;

impl<S: ViewSet> ViewOf<S> {
    ghost use Rattle.std.specs.Prelude.{◌↔◌, ◌⊎◌, true, IsTrue, IfOk, OnOk, OnErr};
    ghost use Rattle.pr_views.specs.Possibilities.{Item};
    ghost use Rattle.pr_views.specs.Views.{IsPossible, Within};
    ghost use Rattle.pr_views.specs.Portions.{has_at, view_in};
    ghost use Rattle.pr_views.specs.Rooms.{scope_of, view_of, AreAlike, AreInRange};

    /// The view in which nothing is possible, of so many nexuses. It takes no memory yet.
    pub fn nothing(alloc: Global, keys: &[u64], hosts: u8) -> Self
        requires hosts { (1 ≤ hosts) × (hosts ≤ MOST_NEXUSES) }
        requires keys { AreDeclared keys.now }
        ensures keys { result.keys.items ≡ keys.now }
        ensures hosts { result.hosts ≡ hosts }
        ensures none { (own : ℕ) (i : Item) → ¬ IsPossible (view_of own result) i }
    {
        ViewOf {
            keys: copied(keys),
            hosts,
            registrations: empty_sets(alloc, count_of_registrations(keys)),
            reservations: S::none(alloc, count_of_reservations(hosts)),
            pending: S::none(alloc, ATTENTION_SETS),
        }
    }

    /// The view in which this is possible. Where memory is refused, nothing is left behind.
    pub fn of(
        alloc: Global,
        keys: &[u64],
        hosts: u8,
        possibilities: &Possibilities,
    ) -> Result<Self, AllocError>
        requires hosts { (1 ≤ hosts) × (hosts ≤ MOST_NEXUSES) }
        requires keys { AreDeclared keys.now }
        requires range { AreInRange hosts keys.now possibilities.now }
        ensures keys { IfOk result (λ v. v.keys.items ≡ keys.now) }
        ensures hosts { IfOk result (λ v. v.hosts ≡ hosts) }
        ensures same { IfOk result (λ v. (own : ℕ) (i : Item)
            → IsPossible (view_of own v) i
            ↔ IsPossible (view_in (scope_of own v) possibilities.now) i) }
    {
        let registrations = sets_of(
            alloc,
            count_of_registrations(keys),
            hosts,
            &possibilities.registrations,
        )?;
        let reservations = S::of_wide(
            alloc,
            count_of_reservations(hosts),
            possibilities.reservations,
        )?;
        let pending = set_of(alloc, ATTENTION_SETS, possibilities.pending)?;
        Ok(ViewOf {
            keys: copied(keys),
            hosts,
            registrations,
            reservations,
            pending,
        })
    }

    /// What is possible in the view, as words. Those past the nexuses that are there are empty.
    pub fn possibilities(&self) -> Possibilities
        ensures same { (own : ℕ) (i : Item)
            → IsPossible (view_in (scope_of own self.now) result) i
            ↔ IsPossible (view_of own self.now) i }
        ensures past { (g r : ℕ) → self.now.hosts ≤ g → has_at result.registrations g r ≡ false }
        ensures range { AreInRange self.now.hosts self.now.keys.items result }
    {
        Possibilities {
            registrations: words_of(&self.registrations, self.hosts),
            reservations: self.reservations.wide(),
            pending: word_of(&self.pending),
        }
    }

    /// The same view by other sets. Where memory is refused, nothing is left behind.
    pub fn in_sets<T: ViewSet>(&self, alloc: Global) -> Result<ViewOf<T>, AllocError>
        ensures keys { IfOk result (λ v. v.keys.items ≡ self.now.keys.items) }
        ensures hosts { IfOk result (λ v. v.hosts ≡ self.now.hosts) }
        ensures same { IfOk result (λ v. (own : ℕ) → view_of own v ≡ view_of own self.now) }
    {
        ViewOf::of(alloc, &self.keys, self.hosts, &self.possibilities())
    }

    /// Adds what is possible in the other. Where memory is refused, the view stays as it was.
    pub fn join(&mut self, alloc: Global, other: &Self) -> Result<(), AllocError>
        requires alike { AreAlike self.old other.now }
        ensures alike { AreAlike self.old self.new }
        ensures ok { OnOk result ((own : ℕ) (i : Item)
            → IsPossible (view_of own self.new) i
            ↔ (IsPossible (view_of own self.old) i
            ⊎ IsPossible (view_of own other.now) i)) }
        ensures err { OnErr result (self.new ≡ self.old) }
    {
        let mut either = self.possibilities();
        either.join(&other.possibilities());
        *self = Self::of(alloc, &self.keys, self.hosts, &either)?;
        Ok(())
    }

    /// Whether the nexus may have the registration of this number: none, by 0, or one by the key at this place, from 1.
    pub fn has_registration(&self, nexus: u8, number: u8) -> bool
        requires { nexus < self.now.hosts }
        ensures { (own : ℕ) → result ≡ (view_of own self.now).registrations nexus number }
    {
        self.registrations[usize::from(nexus)].has(number)
    }

    /// Whether the reservation of this number may be there.
    pub fn has_reservation(&self, number: u8) -> bool
        ensures { (own : ℕ) → result ≡ (view_of own self.now).reservations number }
    {
        self.reservations.has(number)
    }

    /// Whether the attentions of this number may be all that are pending for the owner.
    pub fn has_pending(&self, number: u8) -> bool
        ensures { (own : ℕ) → result ≡ (view_of own self.now).pending number }
    {
        self.pending.has(number)
    }

    /// Whether everything that is possible in the view is possible in the other.
    pub fn within(&self, other: &Self) -> bool
        requires alike { AreAlike self.now other.now }
        ensures { IsTrue result ↔ ((own : ℕ)
            → Within (view_of own self.now) (view_of own other.now)) }
    {
        are_within(&self.registrations, &other.registrations, self.hosts)
            && self.reservations.within(&other.reservations)
            && self.pending.within(&other.pending)
    }

    /// Whether nothing is possible in the view.
    pub fn is_empty(&self) -> bool
        ensures { IsTrue result ↔ ((own : ℕ) (i : Item)
            → ¬ IsPossible (view_of own self.now) i) }
    {
        are_empty(&self.registrations, self.hosts)
            && self.reservations.is_empty()
            && self.pending.is_empty()
    }
}

/// How many registrations one can have: none, or one by each key.
pub(crate) fn count_of_registrations(keys: &[u64]) -> u8
    requires { length keys.now ≤ MOST_KEYS }
    ensures { result ≡ length keys.now + 1 }
{
    keys.len() as u8 + 1
}

/// How many reservations there can be.
pub fn count_of_reservations(hosts: u8) -> u8
    requires { hosts ≤ MOST_NEXUSES }
    ensures { result ≡ count_of_reservations hosts }
{
    hosts * 4 + 3
}

fn copied(keys: &[u64]) -> ArrayVec<u64, MOST_KEYS>
    requires { length keys.now ≤ MOST_KEYS }
    ensures { result.items ≡ keys.now }
{
    let mut all = ArrayVec::new();
    for key in keys {
        all.push(*key);
    }
    all
}
