//! One who watches another's commands, and what is known of both.

ghost use Rattle.std.specs.Prelude.{◌≡◌, ◌<◌, ◌≤◌, true, length, IfSome, IfNone};
ghost use Rattle.std.specs.List.{All};
ghost use Rattle.pr_cdb.specs.declared.codes.TheConstants.{MOST_NEXUSES};
ghost use Rattle.pr_roles.specs.declared.limits.TheConstants.{MOST_KEYS};
ghost use Rattle.pr_roles.specs.Fitting.{is_action};

use crate::marking::attentions_after;
use pr_regions::{Branch, Ending, Place, Region, Transition, registrations_after};
use pr_roles::Clause;
use pr_sets::{BitSet, Wide};
use pr_views::Possibilities;

/// The owner of a view, who looks on while another sends commands.
#[derive(Clone, Copy)]
pub(crate) struct Onlooker<'a> {
    /// How many nexuses there are.
    pub(crate) hosts: u8,
    pub(crate) own: u8,
    /// Who sends commands.
    pub(crate) other: u8,
    pub(crate) view: Possibilities,
    /// The declared keys.
    pub(crate) keys: &'a [u64],
    /// The role of who sends.
    pub(crate) clauses: &'a [Clause],
    ghost some: { 1 ≤ hosts },
    ghost few: { hosts ≤ MOST_NEXUSES },
    ghost own_there: { own < hosts },
    ghost other_there: { other < hosts },
    ghost few_keys: { length keys.now ≤ MOST_KEYS },
    ghost declared: { All (λ clause. is_action keys.now clause.action ≡ true) clauses.now },
}

impl Onlooker<'_> {
    ghost use Rattle.pr_unit.specs.UnitStates.{UnitState};
    ghost use Rattle.pr_views.specs.Possibilities.{Scope};
    ghost use Rattle.pr_views.specs.Portions.{view_in};
    ghost use Rattle.pr_regions.specs.Regions.{HasRoom};
    ghost use Rattle.pr_regions.specs.declared.region.Ending.TheVariants as ending;
    ghost use Rattle.pr_regions.specs.Gathering.{IsUniform, IsProper, IsAt};
    ghost use Rattle.pr_interference.specs.inside.Interfering.{IsWatched, IsAfter, AddsBranch, AddsBranches};

    /// What is possible once a command has this effect in the states of the region in which its sender has one of
    /// these registrations; none where the view shows no such state.
    pub(crate) fn after(
        &self,
        place: &Place,
        senders: BitSet,
        region: &Region,
        change: &Transition,
    ) -> Option<Possibilities>
        requires room { HasRoom place.now.hosts (ending.Good change.now) }
        ensures some { IfSome result (λ p. (s : Scope) → IsWatched s self.now place.now
            → IsUniform senders → IsProper region.now
            → IsAfter s self.now.view place.now senders region.now change.now p) }
        ensures none { IfNone result ((s : Scope) → IsWatched s self.now place.now
            → IsUniform senders → IsProper region.now → (u : UnitState)
            → IsAt (view_in s self.now.view) place.now senders region.now u → ⊥) }
    {
        if self.view.pending.is_empty() {
            return None;
        }
        let words = place.gather(&self.view, senders, region)?;
        let owners = words[usize::from(self.own)];
        Some(Possibilities {
            registrations: registrations_after(&words, place.sender, change),
            reservations: Wide::only(change.reservation),
            pending: attentions_after(owners, self.view.pending, change),
        })
    }

    /// Adds what is possible after the branches that end GOOD, of those in which the sender has one of these
    /// registrations.
    pub(crate) fn add_branches(
        &self,
        answer: &mut Possibilities,
        place: &Place,
        senders: BitSet,
        branches: &[Branch],
    )
        requires room { All (λ b. HasRoom place.now.hosts b.ending) branches.now }
        ensures { AddsBranches self.now place.now senders branches.now answer.old answer.new }
    {
        for branch in branches {
            self.add_branch(answer, place, senders, branch);
        }
    }

    fn add_branch(
        &self,
        answer: &mut Possibilities,
        place: &Place,
        senders: BitSet,
        branch: &Branch,
    )
        requires room { HasRoom place.now.hosts branch.now.ending }
        ensures { AddsBranch self.now place.now senders branch.now answer.old answer.new }
    {
        if let Ending::Good(change) = branch.ending {
            if let Some(after) = self.after(place, senders, &branch.region, &change) {
                answer.join(&after);
            }
        }
    }
}
