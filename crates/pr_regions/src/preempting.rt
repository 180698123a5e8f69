//! How a command ends that preempts a key.

ghost use Rattle.std.specs.Prelude.{◌≡◌, ◌≢◌, ◌≤◌, Some, None, false, true, not};
ghost use Rattle.pr_registry.specs.Registrations.{new_reservation};
ghost use Rattle.pr_registry.specs.Changes.{is_kind, is_held_by_all};
ghost use Rattle.pr_roles.specs.declared.limits.TheConstants.{MOST_KEYS};
ghost use Rattle.pr_views.specs.Possibilities.{number_of};
ghost use Rattle.pr_regions.specs.Regions.{HasRoom};
ghost use Rattle.pr_regions.specs.Transitions.{Does};
ghost use Rattle.pr_regions.specs.inside.Parts.{TellPreempted, only, is_named, told_but, tells_of_removal, tells_of_replacement, lost_if, IsNotAnothers};

use crate::branching::{ending_everywhere, three, two};
use crate::endings::{change_to_reservation, new_change};
use crate::initiator::Preemption;
use crate::region::{Branch, Ending, Region, Transition};
use crate::words::{another_than, anything_but, free_or};
use arrayvec::ArrayVec;
use pr_cdb::Kind;
use pr_registry::{Held, is_kind};
use pr_sets::BitSet;
use pr_views::reservation_number;

// What changes where the key is the single holder's, which holds by this type: the reservation is replaced.
fn replacement_change(asked: Preemption, old: Kind) -> Transition
    ensures change { Does result None (only asked.key)
        (number_of asked.sender.hosts (Some (new_reservation asked.kind asked.sender.number)))
        (tells_of_replacement (told_but (not (is_kind old asked.kind)) asked.key)
        (only asked.key)) }
    ensures room { HasRoom asked.sender.hosts (Ending.Good result) }
{
    let mut change = Transition {
        removed: BitSet::only(asked.key),
        told_05: BitSet::only(asked.key),
        ..new_change(asked.sender, asked.kind)
    };
    if !is_kind(old, asked.kind) {
        change.told_04 = another_than(asked.key);
    }
    change
}

// What changes where the key is another's: those with the key go, the sender among them if it is its own.
fn removal_change(key: u8, is_own: bool, reservation: u8) -> Transition
    requires { key ≤ MOST_KEYS }
    ensures { Does result (lost_if is_own) (only key) reservation (tells_of_removal (only key)) }
{
    let mut change = Transition {
        removed: BitSet::only(key),
        told_05: BitSet::only(key),
        ..change_to_reservation(reservation)
    };
    if is_own {
        change.sender = Some(0);
    }
    change
}

// Another's key, which no single holder but the sender has: there is a conflict where nobody has it.
fn preempting_others(asked: Preemption) -> ArrayVec<Branch, 3>
    requires other { is_named asked.sender.standing ≡ false }
    requires own { IsNotAnothers asked.sender.held asked.sender.number }
    ensures { TellPreempted asked result.items }
{
    let sender = asked.sender;
    let number = reservation_number(sender.hosts, sender.held);
    let somebody_has = Branch {
        region: Region {
            somebody: Some(BitSet::only(asked.key)),
            ..Region::whole()
        },
        ending: Ending::Good(removal_change(asked.key, false, number)),
    };
    let nobody_has = Branch {
        region: Region {
            others: anything_but(asked.key),
            ..Region::whole()
        },
        ending: Ending::Conflict,
    };
    two(somebody_has, nobody_has)
}

// The key where no reservation stands.
fn preempting_unheld(asked: Preemption) -> ArrayVec<Branch, 3>
    requires { asked.sender.held ≡ None }
    ensures { TellPreempted asked result.items }
{
    if asked.sender.standing.is_named() {
        ending_everywhere(Ending::Good(removal_change(asked.key, true, 0)))
    } else {
        preempting_others(asked)
    }
}

// The sender's own key where all registrants hold: the reservation ends with the last of them.
fn preempting_own(asked: Preemption) -> ArrayVec<Branch, 3>
    requires all { is_held_by_all asked.sender.held ≡ true }
    requires own { is_named asked.sender.standing ≡ true }
    ensures { TellPreempted asked result.items }
{
    let sender = asked.sender;
    let number = reservation_number(sender.hosts, sender.held);
    let another_stays = Branch {
        region: Region {
            somebody: Some(another_than(asked.key)),
            ..Region::whole()
        },
        ending: Ending::Good(removal_change(asked.key, true, number)),
    };
    let nobody_stays = Branch {
        region: Region {
            others: free_or(asked.key),
            ..Region::whole()
        },
        ending: Ending::Good(removal_change(asked.key, true, 0)),
    };
    two(another_stays, nobody_stays)
}

// The key where another host holds the reservation alone, by this type: it may be the holder's.
fn preempting_holder(asked: Preemption, old: Kind, holder: u8) -> ArrayVec<Branch, 3>
    requires held { asked.sender.held ≡ Some (Held.One old holder) }
    requires apart { holder ≢ asked.sender.number }
    ensures { TellPreempted asked result.items }
{
    let sender = asked.sender;
    let number = reservation_number(sender.hosts, sender.held);
    let holder_has = Branch {
        region: Region {
            holder: BitSet::only(asked.key),
            ..Region::whole()
        },
        ending: Ending::Good(replacement_change(asked, old)),
    };
    let another = Region {
        holder: another_than(asked.key),
        ..Region::whole()
    };
    if sender.standing.is_named() {
        let sender_has = Branch {
            region: another,
            ending: Ending::Good(removal_change(asked.key, true, number)),
        };
        return two(holder_has, sender_has);
    }
    let somebody_has = Branch {
        region: Region {
            somebody: Some(BitSet::only(asked.key)),
            ..another
        },
        ending: Ending::Good(removal_change(asked.key, false, number)),
    };
    let nobody_has = Branch {
        region: Region {
            others: anything_but(asked.key),
            ..another
        },
        ending: Ending::Conflict,
    };
    three(holder_has, somebody_has, nobody_has)
}

// The key where a single host holds the reservation by this type.
fn preempting_single(asked: Preemption, old: Kind, holder: u8) -> ArrayVec<Branch, 3>
    requires { asked.sender.held ≡ Some (Held.One old holder) }
    ensures { TellPreempted asked result.items }
{
    if holder != asked.sender.number {
        preempting_holder(asked, old, holder)
    } else if asked.sender.standing.is_named() {
        ending_everywhere(Ending::Good(replacement_change(asked, old)))
    } else {
        preempting_others(asked)
    }
}

// The key where all registrants hold.
fn preempting_registrants(asked: Preemption, old: Kind) -> ArrayVec<Branch, 3>
    requires { asked.sender.held ≡ Some (Held.All old) }
    ensures { TellPreempted asked result.items }
{
    if asked.sender.standing.is_named() {
        preempting_own(asked)
    } else {
        preempting_others(asked)
    }
}

/// To preempt a key.
pub(crate) fn preempt_branches(asked: Preemption) -> ArrayVec<Branch, 3>
    ensures { TellPreempted asked result.items }
{
    match asked.sender.held {
        None => preempting_unheld(asked),
        Some(Held::One(old, holder)) => preempting_single(asked, old, holder),
        Some(Held::All(old)) => preempting_registrants(asked, old),
    }
}
