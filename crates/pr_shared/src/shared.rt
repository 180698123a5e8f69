//! A verified scenario under a lock.

ghost use Rattle.std.specs.Prelude.{◌≡◌, ◌≤◌, ◌++◌, [], true, false, Some, length, IfOk, IfErr, OnOk, vec_len, vec_capacity};
ghost use Rattle.std.specs.List.{All, slice_get};
ghost use Rattle.pr_roles.specs.Scenarios.{scenario_of};
ghost use Rattle.pr_world.specs.Progress.{IsLegalProgress};
ghost use Rattle.pr_world.specs.StepAnswers.{IfSent, IfHeld};
ghost use Rattle.pr_shared.specs.Guests.{guests_of};
ghost use Rattle.pr_shared.specs.Histories.{EndsLegally, lists_of, sent_in, sent_so_far};
ghost use Rattle.pr_shared.specs.Outcomes.{DiffersFrom, IsHalted, IsNotHaltedBy, IsOutcome};
ghost use Rattle.pr_shared.specs.Seats.{AreInOrder, HaveRoom, HaveKept, kept_by, number_kept};
ghost use Rattle.pr_shared.specs.TurnAnswers.{MayTurn, added_by, is_stopped};

use crate::closing::{ends_of, is_closed, is_halted, outcome_of};
use crate::gathering::gathered;
use crate::kept::Kept;
use crate::locked::Locked;
use crate::outcome::{Differs, Outcome};
use crate::round::Round;
use crate::seat::Seat;
use crate::seating::seats_for;
use pr_roles::{Item, Scenario, Verified};
use pr_world::{How, Turn, World};
use std::alloc::{AllocError, Global};
use std::sync::ledger::{Blank, Share};
use std::sync::{Mutex, Wait};

/// A verified scenario whose world stands under a lock, so that any number of threads may take its turns, each by the seats
/// that it has.
///
/// What stands under the lock is always a world with its history. By its type that history is that of a run of a safe
/// scenario from its first start, and it has as many entries as all seats have.
#[derive(Drop)]
pub struct SharedWorld<C: Round> {
    lock: Mutex<Locked<C>>,
    kept: Kept,
    ghost guests: { guests_of (scenario_of kept.scenario) ≡ C.guests },
}

impl<C: Round> SharedWorld<C> {
    /// The scenario at its first start, and a seat for each nexus, in order. All memory is taken here: a seat has
    /// room for one entry more than its host's budget or its guest's plan. Where memory is refused the scenario is handed
    /// back.
    pub fn begin(
        alloc: Global,
        verified: Verified,
        blank: Blank,
    ) -> Result<(SharedWorld<C>, Vec<Seat<C>>), (Verified, AllocError)>
        requires name { blank.name ≡ C.name }
        requires parts { blank.parts ≡ C.parts }
        requires guests { guests_of (scenario_of verified) ≡ C.guests }
        requires one_each { blank.parts ≡ length C.guests }
        ensures scenario { IfOk result (λ made. scenario_of made.0.kept.scenario
            ≡ scenario_of verified) }
        ensures in_order { IfOk result (λ made. AreInOrder (length C.guests) made.1.items) }
        ensures going { IfOk result (λ made. All (λ s. s.ended ≡ false) made.1.items) }
        ensures empty { IfOk result (λ made. All (λ s. s.mine.items ≡ []) made.1.items) }
        ensures room { IfOk result (λ made. HaveRoom (scenario_of verified) made.1.items) }
        ensures back { IfErr result (λ refused. refused.0 ≡ verified) }
    {
        let (calls, mut rest) = blank.open::<C>();
        let (kept, seats) = match furnished(alloc, verified.scenario(), &mut rest) {
            Ok(both) => both,
            Err(refused) => return Err((verified, refused)),
        };
        let world = World::begin(alloc, verified)?;
        let lock = Mutex::new(Locked { world, calls, rest });
        Ok((SharedWorld { lock, kept }, seats))
    }

    /// The turn of the seat's nexus, in which the unit answers. It waits for the lock, and takes no memory.
    ///
    /// An entry that it answers stands last in the seat's list. A turn that answers `Stopped` ends the seat.
    pub fn turn<R: Wait>(&self, rt: &R, seat: &mut Seat<C>) -> Turn
        requires { MayTurn seat.old.ended seat.old.mine }
        ensures host { seat.new.host ≡ seat.old.host }
        ensures room { vec_capacity seat.new.mine ≡ vec_capacity seat.old.mine }
        ensures mine { seat.new.mine.items ≡ seat.old.mine.items ++ added_by result }
        ensures ended { seat.new.ended ≡ is_stopped result }
        ensures sender { IfSent result (λ entry. entry.host ≡ seat.old.host) }
        ensures legal { IfSent result (λ entry. EndsLegally C.guests entry) }
        ensures guest { IfHeld result (slice_get C.guests seat.old.host ≡ Some true) }
    {
        self.turn_as(rt, seat, How::Plain)
    }

    /// The same, with the command answered so, where that is a refusal of which the scenario has one left for the nexus, or a
    /// report before the reservation is looked at, where the scenario has those and the unit may make one; else by the unit. It
    /// waits for the lock, and takes no memory.
    pub fn turn_as<R: Wait>(&self, rt: &R, seat: &mut Seat<C>, how: How) -> Turn
        requires { MayTurn seat.old.ended seat.old.mine }
        ensures host { seat.new.host ≡ seat.old.host }
        ensures room { vec_capacity seat.new.mine ≡ vec_capacity seat.old.mine }
        ensures mine { seat.new.mine.items ≡ seat.old.mine.items ++ added_by result }
        ensures ended { seat.new.ended ≡ is_stopped result }
        ensures sender { IfSent result (λ entry. entry.host ≡ seat.old.host) }
        ensures legal { IfSent result (λ entry. EndsLegally C.guests entry) }
        ensures guest { IfHeld result (slice_get C.guests seat.old.host ≡ Some true) }
    {
        self.lock.lock(rt).turn(seat, how)
    }

    /// Resets the unit (SAM-5, 'Logical unit reset'), if the scenario has one more reset left, and says whether it did. Else
    /// nothing changes. It waits for the lock, and takes no memory.
    pub fn reset<R: Wait>(&self, rt: &R) -> bool {
        self.lock.lock(rt).reset()
    }

    /// What the run came to, once each seat has ended. It takes no memory.
    ///
    /// It compares: the world has to be one of the scenario that `begin` was given, each seat's list has to be what its host
    /// or guest sent, each script has to be stopped and each plan done. Where one of these doesn't hold, the world and the
    /// lists are handed out. That the history has as many entries as all lists together rests on no comparison: the ledger
    /// counts them.
    pub fn close(self, seats: Vec<Seat<C>>) -> Result<Outcome, Differs>
        requires parts { C.parts ≡ length C.guests }
        requires in_order { AreInOrder (length C.guests) seats.items }
        requires ended { All (λ s. s.ended ≡ true) seats.items }
        ensures outcome { IfOk result (IsOutcome (scenario_of self.kept.scenario)) }
        ensures own { IfOk result (λ outcome. HaveKept (length C.guests) seats.items
            outcome.history.items) }
        ensures counted { IfOk result (λ outcome. sent_in outcome.history.items
            ≡ number_kept seats.items) }
        ensures cause { IfErr result (DiffersFrom (scenario_of self.kept.scenario)) }
        ensures mine { IfErr result (λ differs. lists_of differs.mine.items ≡ kept_by seats.items) }
        ensures legal { IfErr result (λ differs. IsLegalProgress differs.world) }
        ensures total { IfErr result (λ differs. sent_so_far differs.world
            ≡ number_kept seats.items) }
    {
        self.settle(seats)
    }

    /// The same, whether or not each seat has ended.
    pub(crate) fn settle(self, seats: Vec<Seat<C>>) -> Result<Outcome, Differs>
        requires parts { C.parts ≡ length C.guests }
        requires in_order { AreInOrder (length C.guests) seats.items }
        ensures outcome { IfOk result (IsOutcome (scenario_of self.kept.scenario)) }
        ensures own { IfOk result (λ outcome. HaveKept (length C.guests) seats.items
            outcome.history.items) }
        ensures counted { IfOk result (λ outcome. sent_in outcome.history.items
            ≡ number_kept seats.items) }
        ensures cause { IfErr result (DiffersFrom (scenario_of self.kept.scenario)) }
        ensures mine { IfErr result (λ differs. lists_of differs.mine.items ≡ kept_by seats.items) }
        ensures legal { IfErr result (λ differs. IsLegalProgress differs.world) }
        ensures total { IfErr result (λ differs. sent_so_far differs.world
            ≡ number_kept seats.items) }
    {
        let SharedWorld { lock, kept } = self;
        let Kept {
            scenario,
            mine,
            ends,
        } = kept;
        let (world, mine) = lock.into_inner().finish(seats, mine);
        // By this reader a proof knows that the history is legal.
        let _legal = world.history();
        let ends = ends_of(&world, ends);
        if !is_closed(&scenario, &world, &mine, &ends) {
            return Err(Differs { world, mine });
        }
        Ok(outcome_of(world, ends))
    }

    /// The history, where only these seats, the first ones, took turns. Where the world and the lists don't belong together, they
    /// are handed out.
    pub(crate) fn halt(self, seats: Vec<Seat<C>>) -> Result<Vec<Item>, Differs>
        requires { vec_len seats ≤ length C.guests }
        ensures halted { IfOk result (λ history. IsHalted (scenario_of self.kept.scenario)
            (vec_len seats) history.items) }
        ensures own { IfOk result (λ history. HaveKept (vec_len seats) seats.items history.items) }
        ensures cause { IfErr result (IsNotHaltedBy (scenario_of self.kept.scenario)) }
        ensures mine { IfErr result (λ differs. lists_of differs.mine.items ≡ kept_by seats.items) }
    {
        let SharedWorld { lock, kept } = self;
        let Kept {
            scenario,
            mine,
            ends: _,
        } = kept;
        let Locked {
            world,
            calls: _,
            mut rest,
        } = lock.into_inner();
        let mine = gathered(seats, mine, &mut rest);
        // By this reader a proof knows that the history is legal.
        let _legal = world.history();
        if !is_halted(&scenario, &world, &mine) {
            return Err(Differs { world, mine });
        }
        let (history, _) = world.into_parts();
        Ok(history)
    }
}

// What is kept beside the lock, and the seats, which take all parts of the share.
fn furnished<C: Round>(
    alloc: Global,
    scenario: &Scenario,
    all: &mut Share<C>,
) -> Result<(Kept, Vec<Seat<C>>), AllocError>
    requires guests { guests_of (scenario_of scenario.now) ≡ C.guests }
    requires parts { all.old.parts ≡ length C.guests }
    requires amount { all.old.amount ≡ 0 }
    ensures scenario { IfOk result (λ made. scenario_of made.0.scenario
        ≡ scenario_of scenario.now) }
    ensures in_order { IfOk result (λ made. AreInOrder (length C.guests) made.1.items) }
    ensures going { IfOk result (λ made. All (λ s. s.ended ≡ false) made.1.items) }
    ensures empty { IfOk result (λ made. All (λ s. s.mine.items ≡ []) made.1.items) }
    ensures room { IfOk result (λ made. HaveRoom (scenario_of scenario.now) made.1.items) }
    ensures parts { OnOk result (all.new.parts ≡ 0) }
    ensures amount { OnOk result (all.new.amount ≡ 0) }
{
    let kept = Kept::of(alloc, scenario)?;
    let seats = seats_for(alloc, &scenario.parts().nexuses, all)?;
    Ok((kept, seats))
}
