//! What stands behind the lock.

ghost use Rattle.std.specs.Prelude.{◌≡◌, ◌++◌, true, Some, length, vec_len, vec_capacity};
ghost use Rattle.std.specs.List.{slice_get};
ghost use Rattle.pr_roles.specs.declared.step.Step.{Step};
ghost use Rattle.pr_roles.specs.Scenarios.{scenario_of};
ghost use Rattle.pr_world.specs.Progress.{IsStoppedIn, PassesCommand, SendsEntry, TakesStep, has_reset_left};
ghost use Rattle.pr_world.specs.StepAnswers.{IfSent, IfStopped, IfHeld};
ghost use Rattle.pr_shared.specs.Guests.{guests_of};
ghost use Rattle.pr_shared.specs.Histories.{EndsLegally, lists_of, sent_so_far};
ghost use Rattle.pr_shared.specs.Seats.{kept_by, number_kept};
ghost use Rattle.pr_shared.specs.TurnAnswers.{MayTurn, added_by, is_stopped};
ghost use Rattle.pr_shared.specs.inside.Seating.{HasRoomFor};

use crate::gathering::gathered;
use crate::round::Round;
use crate::seat::Seat;
use pr_world::{Entry, How, Turn, World};
use std::sync::ledger::{Book, Share};

/// What stands behind the lock: the world with its history, and the book that counts the history's entries.
///
/// By the type of a world its history is that of a run of a safe scenario from its first start, and leads to just its unit
/// and its scripts. What is left of the ledger's share, when each seat has its part, has no part and no amount.
#[derive(Drop)]
pub(crate) struct Locked<C: Round> {
    pub(crate) world: World,
    pub(crate) calls: Book<C>,
    pub(crate) rest: Share<C>,
    ghost guests: { guests_of (scenario_of world.scenario) ≡ C.guests },
    ghost counted: { sent_so_far world ≡ calls.total },
    ghost no_part: { rest.parts ≡ 0 },
    ghost no_amount: { rest.amount ≡ 0 },
}

impl<C: Round> Locked<C> {
    /// The turn of the seat's nexus, answered so where that may come, which adds its entry to the world and to the seat.
    pub(crate) fn turn(&mut self, seat: &mut Seat<C>, how: How) -> Turn
        requires { MayTurn seat.old.ended seat.old.mine }
        ensures host { seat.new.host ≡ seat.old.host }
        ensures room { vec_capacity seat.new.mine ≡ vec_capacity seat.old.mine }
        ensures mine { seat.new.mine.items ≡ seat.old.mine.items ++ added_by result }
        ensures ended { seat.new.ended ≡ is_stopped result }
        ensures scenario { self.new.world.scenario ≡ self.old.world.scenario }
        ensures turn { TakesStep (Step.Of seat.old.host how) self.old.world self.new.world }
        ensures sent { IfSent result (SendsEntry seat.old.host self.old.world self.new.world) }
        ensures legal { IfSent result (λ entry. EndsLegally C.guests entry) }
        ensures stopped { IfStopped result (IsStoppedIn self.old.world seat.old.host) }
        ensures rests { IfStopped result (λ word. self.new.world.schedule
            ≡ self.old.world.schedule) }
        ensures held { IfHeld result (PassesCommand seat.old.host self.old.world self.new.world) }
        ensures guest { IfHeld result (slice_get C.guests seat.old.host ≡ Some true) }
    {
        let turn = self.world.step_as(seat.host, how);
        // By these readers a proof knows that the world is safe, and its history legal.
        let _safe = self.world.scenario();
        let _legal = self.world.history();
        match &turn {
            Turn::Sent(entry) => {
                self.calls.add(&mut seat.share, 1);
                seat.mine.push_reserved(entry.copy());
            }
            Turn::Stopped(_) => seat.ended = true,
            Turn::Held => {}
        }
        turn
    }

    /// Resets the unit where the scenario has one more reset, and says whether it did. No seat counts it.
    #[tactic(auto, using(crate::proofs::lemmas::Histories::Resets::counted_still))]
    pub(crate) fn reset(&mut self) -> bool
        ensures scenario { self.new.world.scenario ≡ self.old.world.scenario }
        ensures made { result ≡ has_reset_left self.old.world }
        ensures turn { TakesStep Step.Reset self.old.world self.new.world }
    {
        self.world.reset()
    }

    /// The world, and the list of each seat. The ledger shows that the history has as many entries as the lists.
    pub(crate) fn finish(
        self,
        seats: Vec<Seat<C>>,
        lists: Vec<Vec<Entry>>,
    ) -> (World, Vec<Vec<Entry>>)
        requires parts { C.parts ≡ length C.guests }
        requires one_each { vec_len seats ≡ length C.guests }
        requires room { HasRoomFor (vec_len seats) lists }
        ensures guests { guests_of (scenario_of result.0.scenario) ≡ C.guests }
        ensures mine { lists_of result.1.items ≡ kept_by seats.items }
        ensures counted { sent_so_far result.0 ≡ number_kept seats.items }
    {
        let Locked {
            world,
            mut calls,
            mut rest,
        } = self;
        let lists = gathered(seats, lists, &mut rest);
        calls.audit(&mut rest);
        (world, lists)
    }
}
