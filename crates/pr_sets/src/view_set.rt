//! What a view asks of a set of possibilities.

ghost use Rattle.std.specs.Prelude.{◌≡◌, ◌<◌, ◌≤◌, ◌↔◌, ℕ, true, IsTrue, IfOk, OnOk, OnErr, IfSome, IfNone};
ghost use Rattle.std.specs.FinSet as set;
ghost use Rattle.pr_sets.specs.Numbers.{Numbers, most, AllBelow, Within, IsNext, HasNoneFrom};
ghost use Rattle.pr_sets.specs.Wides.{has_wide};

use crate::wide::Wide;
use std::alloc::{AllocError, Global};

/// The bound of every set: its members are below it.
pub const MOST: u8 = 128;

/// A set of numbers below a size, which is at most [`MOST`].
pub trait ViewSet: Sized + Drop {
    ghost members: { Self → Numbers };

    ghost room: { Self → ℕ };

    /// The empty set of numbers below `size`. It takes no memory yet.
    fn none(alloc: Global, size: u8) -> Self
        requires few { size ≤ most }
        ensures members { members result ≡ set.empty }
        ensures room { room result ≡ size };

    /// The set of a wide word's numbers, which are below `size`.
    fn of_wide(alloc: Global, size: u8, word: Wide) -> Result<Self, AllocError>
        requires few { size ≤ most }
        requires below { (n : ℕ) → has_wide word n ≡ true → n < size }
        ensures room { IfOk result (λ s. room s ≡ size) }
        ensures members { IfOk result (λ s. (n : ℕ)
            → set.contains (members s) n ≡ has_wide word n) };

    /// The bound below which the members are.
    fn size(&self) -> u8
        ensures room { result ≡ room self.now }
        ensures few { result ≤ most };

    /// Adds a number. Where memory is refused, the set stays as it was.
    fn add(&mut self, n: u8) -> Result<(), AllocError>
        requires below { n < room self.old }
        ensures room { room self.new ≡ room self.old }
        ensures ok { OnOk result (members self.new ≡ set.insert (members self.old) n) }
        ensures err { OnErr result (members self.new ≡ members self.old) };

    /// Whether the number is a member.
    fn has(&self, n: u8) -> bool
        ensures { result ≡ set.contains (members self.now) n };

    /// Adds all members of another set. Where memory is refused, the set stays as it was.
    fn join(&mut self, other: &Self) -> Result<(), AllocError>
        requires alike { room other.now ≡ room self.old }
        ensures room { room self.new ≡ room self.old }
        ensures ok { OnOk result (members self.new
            ≡ set.union (members self.old) (members other.now)) }
        ensures err { OnErr result (members self.new ≡ members self.old) };

    /// Whether each member is one of the other set's.
    fn within(&self, other: &Self) -> bool
        requires alike { room other.now ≡ room self.now }
        ensures { IsTrue result ↔ Within (members self.now) (members other.now) };

    /// Whether there is no member.
    fn is_empty(&self) -> bool
        ensures { IsTrue result ↔ (members self.now ≡ set.empty) };

    /// The least member that is not below `from`.
    fn next(&self, from: u8) -> Option<u8>
        ensures some { IfSome result (IsNext (members self.now) from) }
        ensures none { IfNone result (HasNoneFrom (members self.now) from) };

    /// The members as a wide word.
    fn wide(&self) -> Wide
        ensures { (n : ℕ) → has_wide result n ≡ set.contains (members self.now) n };

    ghost below: { (s : Self) → AllBelow (room s) (members s) };

    ghost few: { (s : Self) → room s ≤ most };
}
