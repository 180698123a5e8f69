//! The lists of a view.

use crate::circumstance::Circumstance;
use pr_roles::key_at;
use pr_sets::{BIT_SET_SIZE, BitSet, MOST, Wide};
use pr_views::{Possibilities, View, count_of_reservations, reservation_at};

/// A list of what may be so of one thing, each item by its number in a view.
#[derive(Clone, Copy)]
pub(crate) enum List {
    /// What this nexus may have.
    Nexus(u8),
    Reservation,
    /// What may be pending for the owner of the view.
    Pending,
}

impl List {
    /// The possibilities without this item of the list.
    pub(crate) fn without(self, possible: &Possibilities, number: u8) -> Possibilities {
        let mut left = *possible;
        match self {
            List::Nexus(nexus) => {
                if let Some(numbers) = left.registrations.get_mut(usize::from(nexus)) {
                    *numbers = without(*numbers, number);
                }
            }
            List::Reservation => {
                if number < MOST {
                    left.reservations = left.reservations.except(Wide::only(number));
                }
            }
            List::Pending => left.pending = without(left.pending, number),
        }
        left
    }

    /// What this item of the list says.
    pub(crate) fn fact(self, view: &View, number: u8) -> Option<Circumstance> {
        match self {
            List::Nexus(nexus) => Some(Circumstance::Key {
                nexus,
                key: key_at(&view.keys, number),
            }),
            List::Reservation => {
                if number < count_of_reservations(view.hosts) {
                    Some(Circumstance::Reserved(reservation_at(view.hosts, number)))
                } else {
                    None
                }
            }
            List::Pending => Some(Circumstance::Pending(number)),
        }
    }
}

fn without(numbers: BitSet, number: u8) -> BitSet {
    if number < BIT_SET_SIZE {
        numbers.without(number)
    } else {
        numbers
    }
}
