//! The seats of nexuses.

ghost use Rattle.std.specs.Prelude.{◌≡◌, ◌↔◌, ◌+◌, ◌<◌, ◌≤◌, ◌^◌, [], IsTrue, IfOk, false, length, vec_len, vec_capacity};
ghost use Rattle.pr_script.specs.declared.limits.TheConstants.{MOST_BUDGET};
ghost use Rattle.pr_roles.specs.Scenarios.{task_of};
ghost use Rattle.pr_world.specs.Rooms.{room_of};
ghost use Rattle.pr_shared.specs.TurnAnswers.{MayTurn};

use crate::round::Round;
use pr_roles::{Entry, Task};
use pr_world::room_of;
use std::alloc::{AllocError, Global};
use std::sync::ledger::Share;

/// The seat of one nexus. Whoever has it may take its turns, and it keeps the entries that they answered.
///
/// It has one part of the ledger, in which those entries are counted.
#[derive(Drop)]
pub struct Seat<C: Round> {
    pub(crate) host: u8,
    pub(crate) ended: bool,
    pub(crate) mine: Vec<Entry>,
    pub(crate) share: Share<C>,
    ghost known: { host < length C.guests },
    ghost one_part: { share.parts ≡ 1 },
    ghost counted: { share.amount ≡ vec_len mine },
    ghost short: { vec_capacity mine < 2 ^ 32 },
}

impl<C: Round> Seat<C> {
    /// The seat of a nexus that has sent nothing, with room for one entry more than it can send.
    pub(crate) fn new(
        alloc: Global,
        host: u8,
        task: &Task,
        share: Share<C>,
    ) -> Result<Seat<C>, AllocError>
        requires known { host < length C.guests }
        requires short { room_of (task_of task.now) ≤ MOST_BUDGET }
        requires one_part { share.parts ≡ 1 }
        requires nothing { share.amount ≡ 0 }
        ensures host { IfOk result (λ seat. seat.host ≡ host) }
        ensures going { IfOk result (λ seat. seat.ended ≡ false) }
        ensures empty { IfOk result (λ seat. seat.mine.items ≡ []) }
        ensures room { IfOk result (λ seat. vec_capacity seat.mine
            ≡ room_of (task_of task.now) + 1) }
    {
        let mine = Vec::with_capacity(alloc, room_of(task) + 1)?;
        Ok(Seat {
            host,
            ended: false,
            mine,
            share,
        })
    }

    /// The number of its nexus.
    pub fn host(&self) -> u8
        ensures { result ≡ self.now.host }
    {
        self.host
    }

    /// How many entries its turns answered.
    pub fn sent(&self) -> u32
        ensures { result ≡ vec_len self.now.mine }
    {
        self.mine.len() as u32
    }

    /// Whether its host's script is stopped, or its guest's plan is done.
    pub fn ended(&self) -> bool
        ensures { result ≡ self.now.ended }
    {
        self.ended
    }

    /// The entries that its turns answered, in order.
    pub fn mine(&self) -> &[Entry]
        ensures { result.now ≡ self.now.mine.items }
    {
        &self.mine
    }

    /// Whether it may take a turn: it has not ended, and there is room for an entry.
    pub fn may_turn(&self) -> bool
        ensures { IsTrue result ↔ MayTurn self.now.ended self.now.mine }
    {
        !self.ended && self.mine.len() < self.mine.capacity()
    }

    /// How many turns there is room for.
    pub(crate) fn room(&self) -> u32
        ensures { result ≡ vec_capacity self.now.mine }
    {
        self.mine.capacity() as u32
    }
}
