//! How the commands end whose ending does not depend on who else is registered.

ghost use Rattle.std.specs.Prelude.{◌≡◌, ℕ, None, Option, Some};
ghost use Rattle.pr_registry.specs.declared.held.Held.{Held as HeldOf};
ghost use Rattle.pr_registry.specs.Registrations.{is_for_registrants, new_reservation};
ghost use Rattle.pr_views.specs.Possibilities.{number_of};
ghost use Rattle.pr_regions.specs.Purposes.{HasNumber};
ghost use Rattle.pr_regions.specs.Regions.{HasRoom};
ghost use Rattle.pr_regions.specs.Transitions.{Does, never, tells_nobody};
ghost use Rattle.pr_regions.specs.inside.Parts.{AlwaysEnds, EndsFor, told_if, tells_of_loss, holds, keeps_from_reading, keeps_from_writing, is_kept_from};

use crate::conditions::is_holder_as;
use crate::initiator::Initiator;
use crate::purpose::Standing;
use crate::region::{Ending, Transition};
use crate::words::every_key;
use pr_cdb::Kind;
use pr_cdb::codes::{
    INVALID_FIELD_IN_PARAMETER_LIST, INVALID_RELEASE_OF_PERSISTENT_RESERVATION,
    LOGICAL_BLOCK_ADDRESS_OUT_OF_RANGE,
};
use pr_registry::{Held, is_for_registrants, is_held_by_all, is_kind, kind_of, new_reservation};
use pr_sets::BitSet;
use pr_unit::{Demand, illegal};
use pr_views::reservation_number;

// Whether a sender whose registration matches so holds the reservation.
fn holds(held: Held, sender: u8, standing: Standing) -> bool
    ensures { result ≡ holds held sender standing }
{
    is_holder_as(Some(held), sender, standing != Standing::Unregistered)
}

/// A change that leaves every registration as it is, tells nobody, and leaves the reservation of this number.
pub fn change_to_reservation(reservation: u8) -> Transition
    ensures { Does result None never reservation tells_nobody }
{
    let none = BitSet::none();
    Transition {
        sender: None,
        removed: none,
        reservation,
        told_03: none,
        told_04: none,
        told_05: none,
    }
}

// A change to the reservation of this type that the sender comes to hold.
pub(crate) fn new_change(sender: Initiator, kind: Kind) -> Transition
    ensures change { Does result None never
        (number_of sender.hosts (Some (new_reservation kind sender.number))) tells_nobody }
    ensures room { HasRoom sender.hosts (Ending.Good result) }
{
    let held = new_reservation(kind, sender.number);
    change_to_reservation(reservation_number(sender.hosts, Some(held)))
}

// No change.
pub(crate) fn no_change(sender: Initiator) -> Transition
    ensures change { Does result None never (number_of sender.hosts sender.held) tells_nobody }
    ensures room { HasRoom sender.hosts (Ending.Good result) }
{
    change_to_reservation(reservation_number(sender.hosts, sender.held))
}

/// To look.
pub(crate) fn look_ending(sender: Initiator) -> Ending
    ensures { EndsFor sender Demand.Look result }
{
    Ending::Good(no_change(sender))
}

/// Whether the reservation keeps the sender from reading.
pub(crate) fn keeps_from_reading(sender: Initiator) -> bool
    ensures { result ≡ is_kept_from keeps_from_reading sender.held sender.number sender.standing }
{
    let Some(held) = sender.held else {
        return false;
    };
    match kind_of(held) {
        Kind::WriteExclusive
        | Kind::WriteExclusiveRegistrantsOnly
        | Kind::WriteExclusiveAllRegistrants => false,
        Kind::ExclusiveAccess => !holds(held, sender.number, sender.standing),
        Kind::ExclusiveAccessRegistrantsOnly | Kind::ExclusiveAccessAllRegistrants => {
            sender.standing == Standing::Unregistered
        }
    }
}

/// Whether the reservation keeps the sender from writing.
pub(crate) fn keeps_from_writing(sender: Initiator) -> bool
    ensures { result ≡ is_kept_from keeps_from_writing sender.held sender.number sender.standing }
{
    let Some(held) = sender.held else {
        return false;
    };
    if is_for_registrants(kind_of(held)) {
        sender.standing == Standing::Unregistered
    } else {
        !holds(held, sender.number, sender.standing)
    }
}

/// To read or to write blocks, from which the reservation keeps the sender or not.
pub(crate) fn transfer_ending(sender: Initiator, is_kept: bool, in_range: bool) -> Ending
    ensures reading { is_kept ≡ is_kept_from keeps_from_reading sender.held sender.number
        sender.standing → EndsFor sender (Demand.Read in_range) result }
    ensures writing { is_kept ≡ is_kept_from keeps_from_writing sender.held sender.number
        sender.standing → EndsFor sender (Demand.Write in_range) result }
{
    if is_kept {
        Ending::Conflict
    } else if in_range {
        Ending::Good(no_change(sender))
    } else {
        Ending::Fault(illegal(LOGICAL_BLOCK_ADDRESS_OUT_OF_RANGE, 0))
    }
}

/// To be registered with the key of this number.
pub(crate) fn register_ending(sender: Initiator, key: u8) -> Ending
    requires { HasNumber (Demand.Register key) }
    ensures { EndsFor sender (Demand.Register key) result }
{
    Ending::Good(Transition {
        sender: Some(key),
        ..no_change(sender)
    })
}

/// To establish a reservation of this type.
pub(crate) fn reserve_ending(sender: Initiator, kind: Kind) -> Ending
    ensures { EndsFor sender (Demand.Reserve kind) result }
{
    let Some(held) = sender.held else {
        return Ending::Good(new_change(sender, kind));
    };
    if holds(held, sender.number, sender.standing) && is_kind(kind_of(held), kind) {
        Ending::Good(no_change(sender))
    } else {
        Ending::Conflict
    }
}

// What ending a reservation of this type changes: registrants who lose their access are told.
#[tactic(auto, using(crate::proofs::lemmas::Parts::Keys::keys_those))]
pub(crate) fn release_change(kind: Kind) -> Transition
    ensures { Does result None never 0 (tells_of_loss (told_if (is_for_registrants kind))) }
{
    let mut change = change_to_reservation(0);
    if is_for_registrants(kind) {
        change.told_04 = every_key();
    }
    change
}

/// To release a reservation of this type.
pub(crate) fn release_ending(sender: Initiator, kind: Kind) -> Ending
    ensures { EndsFor sender (Demand.Release kind) result }
{
    let Some(held) = sender.held else {
        return Ending::Good(no_change(sender));
    };
    if !holds(held, sender.number, sender.standing) {
        Ending::Good(no_change(sender))
    } else if is_kind(kind_of(held), kind) {
        Ending::Good(release_change(kind_of(held)))
    } else {
        Ending::Fault(illegal(
            INVALID_FIELD_IN_PARAMETER_LIST,
            INVALID_RELEASE_OF_PERSISTENT_RESERVATION,
        ))
    }
}

/// To remove the reservation and every registration.
pub(crate) fn clear_ending() -> Ending
    ensures { (hosts : ℕ) (held : Option HeldOf) (sender : ℕ) (standing : Standing)
        → AlwaysEnds hosts Demand.Clear held sender standing result }
{
    Ending::Good(Transition {
        sender: Some(0),
        removed: every_key(),
        told_03: every_key(),
        ..change_to_reservation(0)
    })
}

/// To preempt all other registrations.
pub(crate) fn preempt_all_ending(sender: Initiator, kind: Kind) -> Ending
    ensures { EndsFor sender (Demand.PreemptAll kind) result }
{
    if !is_held_by_all(sender.held) {
        return Ending::Fault(illegal(INVALID_FIELD_IN_PARAMETER_LIST, 0));
    }
    Ending::Good(Transition {
        removed: every_key(),
        told_05: every_key(),
        ..new_change(sender, kind)
    })
}
