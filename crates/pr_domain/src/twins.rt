//! Reservations that have the same holders, and differ in type alone.

ghost use Rattle.std.specs.Prelude.{◌<◌, IsTrue, IfSome};
ghost use Rattle.pr_domain.specs.inside.Twins.{AreTwins, IsTwin};

use pr_regions::Place;
use pr_registry::Held;
use pr_views::{Possibilities, reservation_at};

/// The first reservation of the view that has the same holders as that of the place, if it comes before it.
pub(crate) fn twin_of(place: &Place, view: &Possibilities) -> Option<u8>
    ensures { IfSome result (IsTwin view.now place.now) }
{
    for reservation in 0..place.reservation {
        if view.reservations.has(reservation) {
            let held = reservation_at(place.hosts, reservation);
            if have_same_holders(held, place.held) {
                return Some(reservation);
            }
        }
    }
    None
}

// Whether the same host holds both alone, or all registrants hold both.
fn have_same_holders(held: Option<Held>, other: Option<Held>) -> bool
    ensures { IsTrue result → AreTwins held other }
{
    match (held, other) {
        (Some(Held::One(_, holder)), Some(Held::One(_, other))) => holder == other,
        (Some(Held::All(_)), Some(Held::All(_))) => true,
        _ => false,
    }
}
