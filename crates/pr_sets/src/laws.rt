//! Laws of the sets of numbers, each the contract of a function with nothing to do.

ghost use Rattle.std.specs.Prelude.{◌≡◌};
ghost use Rattle.pr_sets.specs.Numbers.{most};
ghost use Rattle.pr_sets.specs.BitSets.{bit_set_size};
ghost use Rattle.pr_sets.specs.Laws.{InclusionIsAnOrder, UnionIsTheLeastAbove, UnionKeepsWhatHasIt, EmptyIsTheLeast, InsertAddsOne};

use crate::{BIT_SET_SIZE, MOST};

/// Inclusion is reflexive and transitive, and sets within each other are equal.
pub fn inclusion_is_an_order()
    ensures { InclusionIsAnOrder }
{}

/// What a join makes has both sets' members, and is within each set that has.
pub fn union_is_the_least_above()
    ensures { UnionIsTheLeastAbove }
{}

/// A join leaves a set as it was exactly where the other is within it.
pub fn union_keeps_what_has_it()
    ensures { UnionKeepsWhatHasIt }
{}

/// The empty set is within each, and a set is empty exactly where it has no member.
pub fn empty_is_the_least()
    ensures { EmptyIsTheLeast }
{}

/// After an insert the new number is a member, and besides it just those from before.
pub fn insert_adds_one()
    ensures { InsertAddsOne }
{}

/// The code's bounds of a set and of a bit set are those that the definitions name.
pub fn bounds_agree()
    ensures set { MOST ≡ most }
    ensures bit_set { BIT_SET_SIZE ≡ bit_set_size }
{}
