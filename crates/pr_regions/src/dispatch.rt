//! How each command ends.

ghost use Rattle.std.specs.Prelude.{◌≡◌, ◌≤◌, ◌<◌, IsTrue};
ghost use Rattle.std.specs.List.{All};
ghost use Rattle.pr_cdb.specs.declared.codes.TheConstants.{MOST_NEXUSES};
ghost use Rattle.pr_roles.specs.Fitting.{is_reservation};
ghost use Rattle.pr_regions.specs.Purposes.{HasNumber};
ghost use Rattle.pr_regions.specs.Regions.{AreBranches, IsProper, HasRoom};
ghost use Rattle.pr_regions.specs.inside.Parts.{TellFor};

use crate::branching::ending_everywhere;
use crate::endings::{
    clear_ending, keeps_from_reading, keeps_from_writing, look_ending, preempt_all_ending,
    register_ending, release_ending, reserve_ending, transfer_ending,
};
use crate::initiator::{Initiator, Preemption};
use crate::preempting::preempt_branches;
use crate::purpose::{Purpose, Standing};
use crate::region::Branch;
use crate::unregistering::unregister_branches;
use arrayvec::ArrayVec;
use pr_registry::Held;

/// How a command of the sender ends, region by region: once its reservation key is accepted, nothing is pending for
/// the sender, this reservation stands, and the sender stands so to what the command asks for.
pub fn branches(
    hosts: u8,
    purpose: Purpose,
    held: Option<Held>,
    sender: u8,
    standing: Standing,
) -> ArrayVec<Branch, 3>
    requires few { hosts ≤ MOST_NEXUSES }
    requires there { sender < hosts }
    requires number { HasNumber purpose }
    requires reservation { IsTrue (is_reservation hosts held) }
    ensures right { AreBranches hosts purpose held sender standing result.items }
    ensures proper { All IsProper result.items }
    ensures fits { All (λ b. HasRoom hosts b.ending) result.items }
{
    branches_for(
        Initiator {
            hosts,
            held,
            number: sender,
            standing,
        },
        purpose,
    )
}

fn branches_for(sender: Initiator, purpose: Purpose) -> ArrayVec<Branch, 3>
    requires { HasNumber purpose }
    ensures { TellFor sender purpose result.items }
{
    match purpose {
        Purpose::Look => ending_everywhere(look_ending(sender)),
        Purpose::Read(in_range) => {
            let is_kept = keeps_from_reading(sender);
            ending_everywhere(transfer_ending(sender, is_kept, in_range))
        }
        Purpose::Write(in_range) => {
            let is_kept = keeps_from_writing(sender);
            ending_everywhere(transfer_ending(sender, is_kept, in_range))
        }
        Purpose::Register(key) => ending_everywhere(register_ending(sender, key)),
        Purpose::Unregister => unregister_branches(sender),
        Purpose::Reserve(kind) => ending_everywhere(reserve_ending(sender, kind)),
        Purpose::Release(kind) => ending_everywhere(release_ending(sender, kind)),
        Purpose::Clear => ending_everywhere(clear_ending()),
        Purpose::PreemptAll(kind) => ending_everywhere(preempt_all_ending(sender, kind)),
        Purpose::Preempt(key, kind) => preempt_branches(Preemption { sender, key, kind }),
    }
}
