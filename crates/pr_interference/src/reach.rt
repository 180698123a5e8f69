//! What a command gives, removes and tells at most.

ghost use Rattle.std.specs.Prelude.{◌≡◌, ◌<◌, ◌≤◌, ℕ, true, false, IsTrue};
ghost use Rattle.pr_cdb.specs.declared.codes.TheConstants.{MOST_NEXUSES};
ghost use Rattle.pr_roles.specs.declared.limits.TheConstants.{MOST_KEYS};
ghost use Rattle.pr_sets.specs.BitSets.{has};
ghost use Rattle.pr_sets.specs.Wides.{has_wide};
ghost use Rattle.pr_views.specs.Portions.{has_at};
ghost use Rattle.pr_interference.specs.inside.Reaching.{HasEveryKey, HasEveryKeyBut};

use pr_regions::every_key;
use pr_sets::{BitSet, Wide};
use pr_views::Possibilities;

/// What a command gives, removes and tells at most.
#[derive(Clone, Copy)]
pub(crate) struct Reach {
    /// The registrations that its sender may get.
    pub(crate) given: BitSet,
    /// The registrations that others may lose.
    pub(crate) removed: BitSet,
    /// The reservations that may come of it.
    pub(crate) reservations: Wide,
    /// With which registrations others may be told that reservations were preempted.
    pub(crate) told_03: BitSet,
    /// With which registrations others may be told that reservations were released.
    pub(crate) told_04: BitSet,
    /// With which registrations others may be told that registrations were preempted.
    pub(crate) told_05: BitSet,
}

impl Reach {
    /// Nothing.
    pub(crate) fn none() -> Reach {
        let none = BitSet::none();
        Reach {
            given: none,
            removed: none,
            reservations: Wide::none(),
            told_03: none,
            told_04: none,
            told_05: none,
        }
    }
}

/// No registration, if this is so.
pub(crate) fn free_if(is: bool) -> BitSet
    ensures { IsTrue is → has result 0 ≡ true }
{
    if is { BitSet::only(0) } else { BitSet::none() }
}

/// No reservation, if this is so.
pub(crate) fn unreserved_if(is: bool) -> Wide
    ensures { IsTrue is → has_wide result 0 ≡ true }
{
    if is { Wide::only(0) } else { Wide::none() }
}

/// The registrations by a key, if this is so.
pub(crate) fn keys_if(is: bool) -> BitSet
    ensures { IsTrue is → HasEveryKey result }
{
    if is { every_key() } else { BitSet::none() }
}

/// The same without the key of this number.
pub(crate) fn keys_but_if(is: bool, key: u8) -> BitSet
    requires { key ≤ MOST_KEYS }
    ensures { IsTrue is → HasEveryKeyBut key result }
{
    keys_if(is).without(key)
}

/// Whether a number is in both sets.
pub(crate) fn meet(one: BitSet, other: BitSet) -> bool
    ensures { (n : ℕ) → has one n ≡ true → has other n ≡ true → IsTrue result }
{
    !one.and(other).is_empty()
}

/// Whether the answer is without one of these.
pub(crate) fn lacks(answer: BitSet, these: BitSet) -> bool
    ensures { result ≡ false → (n : ℕ) → has these n ≡ true → has answer n ≡ true }
{
    !these.except(answer).is_empty()
}

/// Whether the answer is without one of these registrations of a nexus.
pub(crate) fn lacks_at(answer: &Possibilities, host: u8, these: BitSet) -> bool
    requires { host < MOST_NEXUSES }
    ensures { result ≡ false → (n : ℕ) → has these n ≡ true
        → has_at answer.now.registrations host n ≡ true }
{
    lacks(answer.registrations[usize::from(host)], these)
}

/// Whether the answer is without one of these reservations.
pub(crate) fn lacks_wide(answer: Wide, these: Wide) -> bool
    ensures { result ≡ false → (n : ℕ) → has_wide these n ≡ true → has_wide answer n ≡ true }
{
    !these.except(answer).is_empty()
}
