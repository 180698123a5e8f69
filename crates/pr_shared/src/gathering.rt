//! What the seats have, gathered when all turns are taken.

ghost use Rattle.std.specs.Prelude.{◌≡◌, ◌+◌, vec_len};
ghost use Rattle.pr_shared.specs.Histories.{lists_of};
ghost use Rattle.pr_shared.specs.Seats.{kept_by, number_kept};
ghost use Rattle.pr_shared.specs.inside.Seating.{HasRoomFor};

use crate::round::Round;
use crate::seat::Seat;
use pr_roles::Entry;
use std::sync::ledger::Share;

/// The list of each seat, in order. The seats' parts come to the share, and with them what they count.
pub(crate) fn gathered<C: Round>(
    seats: Vec<Seat<C>>,
    mut lists: Vec<Vec<Entry>>,
    all: &mut Share<C>,
) -> Vec<Vec<Entry>>
    requires { HasRoomFor (vec_len seats) lists }
    ensures mine { lists_of result.items ≡ kept_by seats.items }
    ensures parts { all.new.parts ≡ all.old.parts + vec_len seats }
    ensures amount { all.new.amount ≡ all.old.amount + number_kept seats.items }
{
    for seat in seats {
        let Seat {
            host: _,
            ended: _,
            mine,
            share,
        } = seat;
        all.merge(share);
        lists.push_reserved(mine);
    }
    lists
}
