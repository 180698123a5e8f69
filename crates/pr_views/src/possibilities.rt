//! What is possible, as words.

ghost use Rattle.std.specs.Prelude.{◌≡◌, ◌<◌, ◌≤◌, ◌↔◌, ℕ, ◌||◌, true, false, length, IsTrue};
ghost use Rattle.pr_cdb.specs.declared.codes.TheConstants.{MOST_NEXUSES};
ghost use Rattle.pr_sets.specs.Numbers.{most};
ghost use Rattle.pr_sets.specs.BitSets.{has, bit_set_size};
ghost use Rattle.pr_sets.specs.Wides.{has_wide};
ghost use Rattle.pr_roles.specs.declared.limits.TheConstants.{MOST_KEYS};
ghost use Rattle.pr_views.specs.Portions.{has_at};
ghost use Rattle.pr_views.specs.Rooms.{AreInRange};

use crate::view::{ATTENTION_SETS, count_of_registrations, count_of_reservations};
use pr_cdb::codes::MOST_NEXUSES;
use pr_roles::limits::MOST_KEYS;
use pr_sets::{BitSet, Wide};

/// The possibilities of a view as words, for reckoning: those of the first nexuses that are there, in
/// the numbers of a view.
#[derive(Clone, Copy, PartialEq, Eq)]
pub struct Possibilities {
    pub registrations: [BitSet; MOST_NEXUSES],
    pub reservations: Wide,
    pub pending: BitSet,
}

impl Possibilities {
    /// Nothing is possible.
    pub fn none() -> Self
        ensures registrations { (g r : ℕ) → has_at result.registrations g r ≡ false }
        ensures reservations { (x : ℕ) → has_wide result.reservations x ≡ false }
        ensures pending { (q : ℕ) → has result.pending q ≡ false }
    {
        Possibilities {
            registrations: [BitSet::none(); MOST_NEXUSES],
            reservations: Wide::none(),
            pending: BitSet::none(),
        }
    }

    /// Adds what is possible in the other.
    pub fn join(&mut self, other: &Possibilities)
        ensures registrations { (g r : ℕ)
            → has_at self.new.registrations g r
            ≡ (has_at self.old.registrations g r || has_at other.now.registrations g r) }
        ensures reservations { (x : ℕ) → has_wide self.new.reservations x
            ≡ (has_wide self.old.reservations x || has_wide other.now.reservations x) }
        ensures pending { (q : ℕ) → has self.new.pending q
            ≡ (has self.old.pending q || has other.now.pending q) }
    {
        for host in 0..MOST_NEXUSES {
            self.registrations[host] = self.registrations[host].or(other.registrations[host]);
        }
        self.reservations = self.reservations.or(other.reservations);
        self.pending = self.pending.or(other.pending);
    }
    /// Whether a view of so many nexuses with these keys has room for all that is possible: whether it speaks of no
    /// registration by a key past them, of no reservation that there can't be, and of no attentions past those of the four codes.
    pub fn are_in_range(&self, keys: &[u64], hosts: u8) -> bool
        requires hosts { hosts ≤ MOST_NEXUSES }
        requires keys { length keys.now ≤ MOST_KEYS }
        ensures { IsTrue result ↔ AreInRange hosts keys.now self.now }
    {
        are_below(&self.registrations, hosts, count_of_registrations(keys))
            && is_wide_below(self.reservations, count_of_reservations(hosts))
            && is_below(self.pending, ATTENTION_SETS)
    }
}

// Whether every number of the first sets is below the size.
fn are_below(sets: &[BitSet; MOST_NEXUSES], count: u8, size: u8) -> bool
    requires count { count ≤ MOST_NEXUSES }
    requires size { size ≤ bit_set_size }
    ensures { IsTrue result ↔ ((g n : ℕ) → g < count → has_at sets.now g n ≡ true → n < size) }
{
    for host in 0..count {
        if !is_below(sets[usize::from(host)], size) {
            return false;
        }
    }
    true
}

// Whether every number of the set is below the size.
fn is_below(numbers: BitSet, size: u8) -> bool
    requires { size ≤ bit_set_size }
    ensures { IsTrue result ↔ ((n : ℕ) → has numbers n ≡ true → n < size) }
{
    numbers.except(BitSet::below(size)).is_empty()
}

// Whether every number of the wide set is below the size.
fn is_wide_below(numbers: Wide, size: u8) -> bool
    requires { size ≤ most }
    ensures { IsTrue result ↔ ((n : ℕ) → has_wide numbers n ≡ true → n < size) }
{
    numbers.except(Wide::below(size)).is_empty()
}
