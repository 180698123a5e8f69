//! What others may make of the states that a view shows.

ghost use Rattle.std.specs.Prelude.{◌≡◌, ◌≢◌, ◌<◌, ℕ, true, false, IsTrue, IfOk, Some};
ghost use Rattle.pr_roles.specs.Fitting.{is_action, is_role};
ghost use Rattle.pr_sets.specs.BitSets.{has};
ghost use Rattle.pr_views.specs.Possibilities.{Scope, count_of_reservations};
ghost use Rattle.pr_views.specs.Portions.{view_in};
ghost use Rattle.pr_views.specs.Rooms.{scope_of, view_of, AreAlike, AreInRange};
ghost use Rattle.pr_regions.specs.Purposes.{HasNumber};
ghost use Rattle.pr_interference.specs.inside.Interfering.{IsOnlooking, IsWatched, ClauseLeaves};
ghost use Rattle.pr_regions.specs.inside.Adding.{Adds};
ghost use Rattle.pr_interference.specs.Interference.{IsInterference};
ghost use Rattle.pr_interference.specs.inside.Reaching.{AreHolders, HasShown, MayHave};
ghost use Rattle.pr_interference.specs.inside.Closing.{Interferes, Widens};
ghost use Rattle.pr_interference.specs.inside.Clauses.{purpose_for, StandingLeads, AddsRole, AddsClause, AddsPlace};

use crate::clauses::{may_send, senders};
use crate::holders::Holders;
use crate::onlooker::Onlooker;
use pr_regions::{Place, Purpose, Standing, branches, count_of_reservations, kept};
use pr_roles::{Clause, Role};
use pr_sets::{BitSet, ViewSet};
use pr_views::{Possibilities, ViewOf};
use std::alloc::{AllocError, Global};

impl Onlooker<'_> {
    /// What is possible after any request of the other that ends GOOD and that its role permits.
    pub(crate) fn interfered(&self) -> Possibilities
        ensures { Interferes self.now result }
    {
        let mut answer = kept(self.hosts, &self.view);
        self.add_role(&mut answer);
        answer
    }

    /// What is possible, and what is possible after any request of the other that ends GOOD and that its role permits.
    pub(crate) fn widened(&self) -> Possibilities
        ensures { Widens self.now result }
    {
        let mut answer = self.view;
        self.add_role(&mut answer);
        answer
    }

    // Adds what is possible after a command of one of the clauses, where the answer has what is shown.
    fn add_role(&self, answer: &mut Possibilities)
        requires shown { (s : Scope) → IsOnlooking s self.now
            → HasShown s self.now.view answer.old }
        ensures { AddsRole self.now answer.old answer.new }
    {
        let holders = Holders::of(self.hosts, self.view.reservations);
        for clause in self.clauses {
            self.add_clause(answer, &holders, clause);
        }
    }

    // Adds what is possible after a command of this clause, until the answer has the most that it can leave.
    fn add_clause(&self, answer: &mut Possibilities, holders: &Holders, clause: &Clause)
        requires held { AreHolders self.now.hosts self.now.view.reservations holders.now }
        requires shown { (s : Scope) → IsOnlooking s self.now
            → HasShown s self.now.view answer.old }
        requires action { is_action self.now.keys.now clause.now.action ≡ true }
        ensures { AddsClause self.now clause.now answer.old answer.new }
    {
        let reach = self.reach(holders, clause);
        if !self.may_gain(answer, &reach) {
            return;
        }
        for reservation in 0..count_of_reservations(self.hosts) {
            if self.view.reservations.has(reservation) {
                if !self.may_gain(answer, &reach) {
                    return;
                }
                let place = Place::of(self.hosts, self.other, reservation);
                self.add_place(answer, &place, clause);
            }
        }
    }

    // Under one reservation.
    fn add_place(&self, answer: &mut Possibilities, place: &Place, clause: &Clause)
        requires action { is_action self.now.keys.now clause.now.action ≡ true }
        ensures { AddsPlace self.now place.now clause.now answer.old answer.new }
    {
        if let Some(purpose) = self.purpose_for(clause.action, place.held) {
            self.add_standing(answer, place, clause, purpose, Standing::Unregistered);
            self.add_standing(answer, place, clause, purpose, Standing::Named);
            self.add_standing(answer, place, clause, purpose, Standing::Other);
        }
    }

    // Adds what a sender leaves whose registration matches the purpose so.
    fn add_standing(
        &self,
        answer: &mut Possibilities,
        place: &Place,
        clause: &Clause,
        purpose: Purpose,
        standing: Standing,
    )
        requires { HasNumber purpose }
        ensures { (s : Scope) → IsWatched s self.now place.now
            → is_action s.keys clause.now.action ≡ true
            → purpose_for s.keys clause.now.action place.now.held ≡ Some purpose
            → Adds s answer.old answer.new
            (StandingLeads (view_in s self.now.view) clause.now place.now.sender
            place.now.reservation purpose standing)
            (ClauseLeaves (view_in s self.now.view) clause.now place.now.sender) }
    {
        let senders = senders(purpose, standing);
        if !self.may_be_among(place, senders) {
            return;
        }
        if may_send(clause.condition, purpose, place, standing) {
            let branches = branches(place.hosts, purpose, place.held, place.sender, standing);
            self.add_branches(answer, place, senders, &branches);
        }
    }

    // Whether the sender may have one of these registrations.
    fn may_be_among(&self, place: &Place, registrations: BitSet) -> bool
        ensures { result ≡ false → (r : ℕ)
            → MayHave self.now.view place.now.sender r
            → has registrations r ≡ false }
    {
        !self.view.registrations[usize::from(place.sender)]
            .and(registrations)
            .is_empty()
    }
}

/// The view of the states that a request of another leads to from a shown one, where it ends GOOD and the other's role
/// permits it. What is pending for the other is unknown, and so such a request may always be one that changes nothing.
pub fn interfere<S: ViewSet>(
    alloc: Global,
    view: &ViewOf<S>,
    own: u8,
    other: u8,
    role: &Role,
) -> Result<ViewOf<S>, AllocError>
    requires own { own < view.now.hosts }
    requires other { other < view.now.hosts }
    requires apart { own ≢ other }
    requires role { IsTrue (is_role view.now.keys.items role.now.clauses.items) }
    ensures alike { IfOk result (AreAlike view.now) }
    ensures interference { IfOk result (λ w. IsInterference (view_of own view.now)
        role.now.clauses.items other (view_of own w)) }
{
    let left = left_by(view, own, other, role);
    ViewOf::of(alloc, &view.keys, view.hosts, &left)
}

// What is possible after such a request.
fn left_by<S: ViewSet>(view: &ViewOf<S>, own: u8, other: u8, role: &Role) -> Possibilities
    requires own { own < view.now.hosts }
    requires other { other < view.now.hosts }
    requires apart { own ≢ other }
    requires role { IsTrue (is_role view.now.keys.items role.now.clauses.items) }
    ensures range { AreInRange view.now.hosts view.now.keys.items result }
    ensures interference { IsInterference (view_of own view.now) role.now.clauses.items
        other (view_in (scope_of own view.now) result) }
{
    let onlooker = Onlooker {
        hosts: view.hosts,
        own,
        other,
        view: view.possibilities(),
        clauses: &role.clauses,
        keys: &view.keys,
    };
    onlooker.interfered()
}
