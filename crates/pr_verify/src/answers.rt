//! What the sends of a script come to in the views of an outline, where equal questions are asked once.

ghost use Rattle.std.specs.Prelude.{◌≡◌, ◌<◌, true, length, map};
ghost use Rattle.pr_script.specs.Grammar.{rise_above};
ghost use Rattle.pr_roles.specs.Scenarios.{scenario_of};
ghost use Rattle.pr_verify.specs.Rooms.{IsMadeFor};
ghost use Rattle.pr_verify.specs.inside.Listing.{AreWritten, HasEachLine};

use crate::known::{Answer, ask_the_same};
use crate::nexus::refusals_in;
use crate::places::Spot;
use pr_domain::outcomes;
use pr_roles::Scenario;
use pr_views::Outline;
use std::alloc::{AllocError, Global};

/// The sends of a host's script, which can stand in a text with the scenario's keys, and an outline of
/// the scenario that has a view for each.
#[derive(Drop)]
pub(crate) struct Questions<'a> {
    pub(crate) scenario: &'a Scenario,
    pub(crate) outline: &'a Outline,
    pub(crate) spots: &'a [Spot],
    ghost declared: { outline.now.host < length (scenario_of scenario.now).nexuses },
    ghost written: { AreWritten (scenario_of scenario.now).keys spots.now },
    ghost listed: { HasEachLine outline.now.views.items spots.now },
    ghost rise: { rise_above 0 (map (λ e. e.0) outline.now.views.items) ≡ true },
    ghost made: { IsMadeFor (scenario_of scenario.now) outline.now },
}

impl Questions<'_> {
    ghost use Rattle.std.specs.Prelude.{IsTrue, IfOk, IfSome, OnOk};
    ghost use Rattle.std.specs.List.{All};
    ghost use Rattle.pr_verify.specs.inside.Asked.{asker_of};
    ghost use Rattle.pr_verify.specs.inside.Known.{StandsAt, IsSameQuestion, AreAnswers, IsAnswerAt};

    // Whether the two places ask the same in views with the same possibilities. Few sends are of one command, so commands
    // are compared first.
    fn are_same(&self, place: usize, other: usize) -> bool
        requires place { place < length self.now.spots.now }
        requires other { other < length self.now.spots.now }
        ensures { IsTrue result → IsSameQuestion (asker_of self.now) place other }
    {
        if !ask_the_same(&self.spots[place], &self.spots[other]) {
            return false;
        }
        let view = &self.outline.views[place].1;
        let another = &self.outline.views[other].1;
        view.within(another) && another.within(view)
    }

    // Where an equal question was answered.
    fn place_of(&self, known: &[Answer], place: usize) -> Option<usize>
        requires there { place < length self.now.spots.now }
        requires known { All (λ a. a.spot < length self.now.spots.now) known.now }
        ensures { IfSome result (StandsAt (λ a. IsSameQuestion (asker_of self.now) a.spot place)
            known.now) }
    {
        for (number, answer) in known.iter().enumerate() {
            if self.are_same(answer.spot, place) {
                return Some(number);
            }
        }
        None
    }

    /// What the send of this place comes to in the view there: where the answer stands.
    pub(crate) fn answer(
        &self,
        alloc: Global,
        known: &mut Vec<Answer>,
        place: usize,
    ) -> Result<usize, AllocError>
        requires there { place < length self.now.spots.now }
        requires known { AreAnswers (asker_of self.now) known.old.items }
        ensures known { OnOk result (AreAnswers (asker_of self.now) known.new.items) }
        ensures answer { IfOk result (IsAnswerAt (asker_of self.now) place known.new.items) }
    {
        if let Some(number) = self.place_of(known, place) {
            return Ok(number);
        }
        let spot = &self.spots[place];
        let view = &self.outline.views[place].1;
        let host = self.outline.host;
        let refusals = refusals_in(self.scenario, host);
        let outcomes = outcomes(alloc, view, host, &spot.command, &spot.tests, refusals)?;
        let number = known.len();
        known.push(Answer {
            spot: place,
            outcomes,
        })?;
        Ok(number)
    }
}
