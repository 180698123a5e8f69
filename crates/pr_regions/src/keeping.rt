//! What of a view's possibilities is so in some state that it shows.

ghost use Rattle.std.specs.Prelude.{◌≡◌, ◌≤◌, ℕ, true, None, IfSome, IfNone};
ghost use Rattle.pr_cdb.specs.declared.codes.TheConstants.{MOST_NEXUSES};
ghost use Rattle.pr_roles.specs.declared.limits.TheConstants.{MOST_KEYS};
ghost use Rattle.pr_sets.specs.BitSets.{has};
ghost use Rattle.pr_views.specs.Possibilities.{count_of_reservations};
ghost use Rattle.pr_regions.specs.Keeping.{IsKeptOf};
ghost use Rattle.pr_regions.specs.inside.Showing.{AddsShown, IsShownOf, ShowsNone};

use crate::place::Place;
use crate::region::Region;
use crate::words::every_key;
use pr_sets::{BitSet, Wide};
use pr_views::{MOST_REGISTRATIONS, Possibilities, count_of_reservations};

/// The view without the possibilities that none of the states that it shows has.
pub fn kept(hosts: u8, view: &Possibilities) -> Possibilities
    requires hosts { (1 ≤ hosts) × (hosts ≤ MOST_NEXUSES) }
    ensures { IsKeptOf hosts view.now result }
{
    let mut kept = Possibilities::none();
    for reservation in 0..count_of_reservations(hosts) {
        if view.reservations.has(reservation) {
            let place = Place::of(hosts, 0, reservation);
            place.add_kept(&mut kept, view, BitSet::only(0));
            place.add_kept(&mut kept, view, every_key());
        }
    }
    kept
}

impl Place {
    // Adds what is so in some state of the place in which the sender has one of these registrations.
    fn add_kept(&self, kept: &mut Possibilities, view: &Possibilities, senders: BitSet)
        ensures { AddsShown view.now self.now senders kept.old kept.new }
    {
        if let Some(shown) = self.shown(view, senders) {
            kept.join(&shown);
        }
    }

    // What is so in those states, if there are any.
    fn shown(&self, view: &Possibilities, senders: BitSet) -> Option<Possibilities>
        ensures some { IfSome result (IsShownOf view.now self.now senders) }
        ensures none { IfNone result (ShowsNone view.now self.now senders) }
    {
        if view.pending.is_empty() {
            return None;
        }
        let Some(registrations) = self.gather(view, senders, &region_of_all()) else {
            return None;
        };
        Some(Possibilities {
            registrations,
            reservations: Wide::only(self.reservation),
            pending: view.pending,
        })
    }
}

// The region of every state.
fn region_of_all() -> Region
    ensures holder { (r : ℕ) → r ≤ MOST_KEYS → has result.holder r ≡ true }
    ensures others { (r : ℕ) → r ≤ MOST_KEYS → has result.others r ≡ true }
    ensures somebody { result.somebody ≡ None }
{
    let all = BitSet::below(MOST_REGISTRATIONS);
    Region {
        holder: all,
        others: all,
        somebody: None,
    }
}
