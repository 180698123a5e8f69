//! A set of numbers below 128, as the bits of a wide word.

ghost use Rattle.std.specs.Prelude.{◌≡◌, ◌<◌, ◌≤◌, ℕ, true, false, ◌==◌, ◌&&◌, ◌||◌, not, nat_lt, IsTrue};
ghost use Rattle.std.specs.FinSet as set;
ghost use Rattle.pr_sets.specs.Numbers.{most};
ghost use Rattle.pr_sets.specs.Kept.{numbers_of_bits};
ghost use Rattle.pr_sets.specs.BitSets.{has, bit_set_size};
ghost use Rattle.pr_sets.specs.Wides.{has_wide};

use crate::bit_set::BitSet;
use crate::view_set::MOST;

/// A set of numbers below 128, for reckoning with whole sets at a time. Sets of numbers below 16 take an eighth of its room
/// as a [`BitSet`](crate::BitSet).
#[derive(Clone, Copy, PartialEq, Eq)]
pub struct Wide {
    pub(crate) bits: u128,
}

impl Wide {
    /// No number.
    pub fn none() -> Self
        ensures { (n : ℕ) → has_wide result n ≡ false }
    {
        Wide { bits: 0 }
    }

    /// Every number below the size.
    pub fn below(size: u8) -> Self
        requires { size ≤ most }
        ensures { (n : ℕ) → has_wide result n ≡ nat_lt n size }
    {
        if size == 0 {
            return Wide { bits: 0 };
        }
        Wide {
            bits: u128::MAX >> (MOST - size),
        }
    }

    /// This number alone.
    pub fn only(n: u8) -> Self
        requires { n < most }
        ensures { (m : ℕ) → has_wide result m ≡ (m == n) }
    {
        Wide { bits: 1 << n }
    }

    /// The numbers of a bit set.
    pub fn of(numbers: BitSet) -> Self
        ensures { (n : ℕ) → has_wide result n ≡ has numbers n }
    {
        Wide {
            bits: u128::from(numbers.bits),
        }
    }

    // The numbers whose bits are set.
    pub(crate) fn of_bits(bits: u128) -> Self
        ensures { (n : ℕ) → has_wide result n ≡ set.contains (numbers_of_bits bits) n }
    {
        Wide { bits }
    }

    /// The same numbers as a bit set, where they are few enough.
    pub fn few(self) -> BitSet
        requires { (n : ℕ) → has_wide self n ≡ true → n < bit_set_size }
        ensures { (n : ℕ) → has result n ≡ has_wide self n }
    {
        BitSet {
            bits: self.bits as u16,
        }
    }

    /// The set and this number.
    pub fn with(self, n: u8) -> Self
        requires { n < most }
        ensures { (m : ℕ) → has_wide result m ≡ (m == n || has_wide self m) }
    {
        Wide {
            bits: self.bits | 1 << n,
        }
    }

    /// What either set has.
    pub fn or(self, other: Wide) -> Self
        ensures { (m : ℕ) → has_wide result m ≡ (has_wide self m || has_wide other m) }
    {
        Wide {
            bits: self.bits | other.bits,
        }
    }

    /// What the other set does not have.
    pub fn except(self, other: Wide) -> Self
        ensures { (m : ℕ) → has_wide result m ≡ (has_wide self m && not (has_wide other m)) }
    {
        Wide {
            bits: self.bits & !other.bits,
        }
    }

    /// Whether the number is in the set.
    pub fn has(self, n: u8) -> bool
        requires { n < most }
        ensures { result ≡ has_wide self n }
    {
        self.bits >> n & 1 == 1
    }

    /// Whether the set has no number.
    pub fn is_empty(self) -> bool
        ensures empty { IsTrue result → (m : ℕ) → has_wide self m ≡ false }
        ensures filled { result ≡ false → (m : ℕ) × IsTrue (has_wide self m) }
    {
        self.bits == 0
    }
}
