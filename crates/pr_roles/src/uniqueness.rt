//! Lists without repetition.

ghost use Rattle.std.specs.Prelude.{◌≡◌};
ghost use Rattle.pr_roles.specs.Fitting.{are_distinct, is_same_reservation};

use pr_registry::Held;

/// Whether no two items are equal.
pub fn are_distinct<T: PartialEq>(items: &[T]) -> bool
    ensures { result ≡ are_distinct T.eq items.now }
{
    let mut rest = items;
    while let Some((first, others)) = rest.split_first() {
        if others.contains(first) {
            return false;
        }
        rest = others;
    }
    true
}

/// Whether no two reservations are equal: they differ in type or holder.
pub fn are_held_apart(reservations: &[Option<Held>]) -> bool
    ensures { result ≡ are_distinct is_same_reservation reservations.now }
{
    are_distinct(reservations)
}
