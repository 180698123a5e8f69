//! How a command ends by which its sender is registered no more.

ghost use Rattle.std.specs.Prelude.{◌≡◌, ◌&&◌, Some, None, false, true, if◌then◌else◌};
ghost use Rattle.pr_registry.specs.Registrations.{holds_alone};
ghost use Rattle.pr_registry.specs.Changes.{is_held_by_all, is_told_of_loss};
ghost use Rattle.pr_views.specs.Possibilities.{number_of};
ghost use Rattle.pr_regions.specs.Regions.{HasRoom};
ghost use Rattle.pr_regions.specs.Transitions.{Does, never};
ghost use Rattle.pr_regions.specs.inside.Parts.{TellFor, told_if, tells_of_loss, is_unregistered};

use crate::branching::{ending_everywhere, two};
use crate::endings::{change_to_reservation, no_change, release_change};
use crate::initiator::Initiator;
use crate::region::{Branch, Ending, Region, Transition};
use crate::words::every_key;
use arrayvec::ArrayVec;
use pr_registry::{Held, is_held_by_all};
use pr_sets::BitSet;
use pr_unit::Demand;

// What unregistering changes where not all registrants hold: a single holder's reservation ends.
fn unregister_change(sender: Initiator) -> Transition
    ensures change { Does result (Some 0) never
        (number_of sender.hosts (if holds_alone sender.held
        sender.number then None else sender.held))
        (tells_of_loss (told_if (holds_alone sender.held sender.number
        && is_told_of_loss sender.held))) }
    ensures room { HasRoom sender.hosts (Ending.Good result) }
{
    let left = match sender.held {
        Some(Held::One(kind, holder)) if holder == sender.number => release_change(kind),
        _ => no_change(sender),
    };
    Transition {
        sender: Some(0),
        ..left
    }
}

// Where all registrants hold, the reservation ends with the last of them.
fn unregistering_registrant(sender: Initiator) -> ArrayVec<Branch, 3>
    requires all { is_held_by_all sender.held ≡ true }
    requires registered { is_unregistered sender.standing ≡ false }
    ensures { TellFor sender Demand.Unregister result.items }
{
    let others_stay = Branch {
        region: Region {
            somebody: Some(every_key()),
            ..Region::whole()
        },
        ending: Ending::Good(Transition {
            sender: Some(0),
            ..no_change(sender)
        }),
    };
    let nobody_stays = Branch {
        region: Region {
            others: BitSet::only(0),
            ..Region::whole()
        },
        ending: Ending::Good(Transition {
            sender: Some(0),
            ..change_to_reservation(0)
        }),
    };
    two(others_stay, nobody_stays)
}

/// To be registered no more.
pub(crate) fn unregister_branches(sender: Initiator) -> ArrayVec<Branch, 3>
    ensures { TellFor sender Demand.Unregister result.items }
{
    if sender.standing.is_unregistered() {
        ending_everywhere(Ending::Good(no_change(sender)))
    } else if is_held_by_all(sender.held) {
        unregistering_registrant(sender)
    } else {
        ending_everywhere(Ending::Good(unregister_change(sender)))
    }
}
