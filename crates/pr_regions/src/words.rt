//! Words of registrations: 0 for none, and 1 to 12 for the declared keys.

ghost use Rattle.std.specs.Prelude.{◌≡◌, ◌≤◌, ◌==◌, ◌&&◌, ℕ, true, false, not};
ghost use Rattle.pr_sets.specs.BitSets.{has};
ghost use Rattle.pr_roles.specs.declared.limits.TheConstants.{MOST_KEYS};
ghost use Rattle.pr_regions.specs.Transitions.{HasThose, never};
ghost use Rattle.pr_regions.specs.inside.Parts.{any, but, another, free_or};

use pr_sets::BitSet;
use pr_views::MOST_REGISTRATIONS;

// Every registration.
pub(crate) fn every_registration() -> BitSet
    ensures { HasThose result any }
{
    BitSet::below(MOST_REGISTRATIONS)
}

/// The registrations by a key.
pub fn every_key() -> BitSet
    ensures keys { (r : ℕ) → 1 ≤ r → r ≤ MOST_KEYS → has result r ≡ true }
    ensures none { has result 0 ≡ false }
{
    BitSet::below(MOST_REGISTRATIONS).without(0)
}

// Every registration but this one.
pub(crate) fn anything_but(registration: u8) -> BitSet
    requires { registration ≤ MOST_KEYS }
    ensures { HasThose result (but registration) }
{
    BitSet::below(MOST_REGISTRATIONS).without(registration)
}

// Every key but the one of this number.
#[tactic(auto, using(crate::proofs::lemmas::Parts::Keys::keys_those))]
pub(crate) fn another_than(key: u8) -> BitSet
    requires { key ≤ MOST_KEYS }
    ensures { HasThose result (another key) }
{
    every_key().without(key)
}

// None, or the key of this number.
pub(crate) fn free_or(key: u8) -> BitSet
    requires { key ≤ MOST_KEYS }
    ensures { HasThose result (free_or key) }
{
    BitSet::only(0).with(key)
}
