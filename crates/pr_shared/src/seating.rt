//! A seat for each nexus.

ghost use Rattle.std.specs.Prelude.{◌≡◌, ◌≤◌, [], length, IfOk, OnOk, false};
ghost use Rattle.std.specs.List.{All};
ghost use Rattle.pr_cdb.specs.declared.codes.TheConstants.{MOST_NEXUSES};
ghost use Rattle.pr_script.specs.declared.limits.TheConstants.{MOST_BUDGET};
ghost use Rattle.pr_roles.specs.Scenarios.{task_of};
ghost use Rattle.pr_world.specs.Rooms.{room_of};
ghost use Rattle.pr_shared.specs.Seats.{AreInOrder};
ghost use Rattle.pr_shared.specs.inside.Seating.{HaveRoomAt};

use crate::round::Round;
use crate::seat::Seat;
use pr_roles::Nexus;
use std::alloc::{AllocError, Global};
use std::sync::ledger::Share;

/// A seat for each nexus, in order, with one part each of the share.
pub(crate) fn seats_for<C: Round>(
    alloc: Global,
    nexuses: &[Nexus],
    all: &mut Share<C>,
) -> Result<Vec<Seat<C>>, AllocError>
    requires few { length nexuses.now ≤ MOST_NEXUSES }
    requires short { All (λ n. room_of (task_of n.task) ≤ MOST_BUDGET) nexuses.now }
    requires known { length nexuses.now ≡ length C.guests }
    requires parts { all.old.parts ≡ length nexuses.now }
    requires amount { all.old.amount ≡ 0 }
    ensures in_order { IfOk result (λ seats. AreInOrder (length nexuses.now) seats.items) }
    ensures going { IfOk result (λ seats. All (λ s. s.ended ≡ false) seats.items) }
    ensures empty { IfOk result (λ seats. All (λ s. s.mine.items ≡ []) seats.items) }
    ensures room { IfOk result (λ seats. HaveRoomAt nexuses.now seats.items) }
    ensures parts { OnOk result (all.new.parts ≡ 0) }
    ensures amount { OnOk result (all.new.amount ≡ 0) }
{
    let mut seats = Vec::with_capacity(alloc, nexuses.len())?;
    for (host, nexus) in nexuses.iter().enumerate() {
        let share = all.split_off(1, 0);
        seats.push(Seat::new(alloc, host as u8, &nexus.task, share)?)?;
    }
    Ok(seats)
}
