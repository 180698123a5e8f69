//! A set of numbers below 16, as the bits of a word.

ghost use Rattle.std.specs.Prelude.{◌≡◌, ◌<◌, ◌≤◌, ℕ, false, ◌==◌, ◌&&◌, ◌||◌, not, nat_lt, IfSome, IfNone, IsTrue};
ghost use Rattle.pr_sets.specs.BitSets.{has, IsLeast, bit_set_size};

/// The bound of a bit set: its numbers are below it.
pub const BIT_SET_SIZE: u8 = 16;

/// A set of numbers below 16, for reckoning with whole sets at a time.
#[derive(Clone, Copy, PartialEq, Eq)]
pub struct BitSet {
    pub(crate) bits: u16,
}

impl BitSet {
    /// No number.
    pub fn none() -> Self
        ensures { (n : ℕ) → has result n ≡ false }
    {
        BitSet { bits: 0 }
    }

    /// Every number below the size.
    pub fn below(size: u8) -> Self
        requires { size ≤ bit_set_size }
        ensures { (n : ℕ) → has result n ≡ nat_lt n size }
    {
        if size == 0 {
            return BitSet { bits: 0 };
        }
        BitSet {
            bits: u16::MAX >> (BIT_SET_SIZE - size),
        }
    }

    /// This number alone.
    pub fn only(n: u8) -> Self
        requires { n < bit_set_size }
        ensures { (m : ℕ) → has result m ≡ (m == n) }
    {
        BitSet { bits: 1 << n }
    }

    /// The set and this number.
    pub fn with(self, n: u8) -> Self
        requires { n < bit_set_size }
        ensures { (m : ℕ) → has result m ≡ (m == n || has self m) }
    {
        BitSet {
            bits: self.bits | 1 << n,
        }
    }

    /// The set without this number.
    pub fn without(self, n: u8) -> Self
        requires { n < bit_set_size }
        ensures { (m : ℕ) → has result m ≡ (not (m == n) && has self m) }
    {
        BitSet {
            bits: self.bits & !(1 << n),
        }
    }

    /// What both sets have.
    pub fn and(self, other: BitSet) -> Self
        ensures { (m : ℕ) → has result m ≡ (has self m && has other m) }
    {
        BitSet {
            bits: self.bits & other.bits,
        }
    }

    /// What either set has.
    pub fn or(self, other: BitSet) -> Self
        ensures { (m : ℕ) → has result m ≡ (has self m || has other m) }
    {
        BitSet {
            bits: self.bits | other.bits,
        }
    }

    /// What the other set does not have.
    pub fn except(self, other: BitSet) -> Self
        ensures { (m : ℕ) → has result m ≡ (has self m && not (has other m)) }
    {
        BitSet {
            bits: self.bits & !other.bits,
        }
    }

    /// Whether the number is in the set.
    pub fn has(self, n: u8) -> bool
        requires { n < bit_set_size }
        ensures { result ≡ has self n }
    {
        self.bits >> n & 1 == 1
    }

    /// Whether the set has no number.
    pub fn is_empty(self) -> bool
        ensures empty { IsTrue result → (m : ℕ) → has self m ≡ false }
        ensures filled { result ≡ false → (m : ℕ) × IsTrue (has self m) }
    {
        self.bits == 0
    }

    /// The least number in the set.
    pub fn least(self) -> Option<u8>
        ensures some { IfSome result (IsLeast self) }
        ensures none { IfNone result ((m : ℕ) → has self m ≡ false) }
    {
        if self.bits == 0 {
            return None;
        }
        Some(self.bits.trailing_zeros() as u8)
    }
}
