//! A reservation of a view, with who sends under it, and what each nexus has there.

ghost use Rattle.std.specs.Prelude.{◌≡◌, ◌≢◌, ◌⊎◌, ◌<◌, ◌≤◌, ℕ, true, false, ◌&&◌, IfSome, IfNone};
ghost use Rattle.pr_cdb.specs.declared.codes.TheConstants.{MOST_NEXUSES};
ghost use Rattle.pr_roles.specs.Fitting.{is_reservation};
ghost use Rattle.pr_views.specs.Possibilities.{number_of, count_of_reservations};

use crate::region::Region;
use crate::words::every_key;
use pr_cdb::codes::MOST_NEXUSES;
use pr_registry::Held;
use pr_sets::BitSet;
use pr_views::{Portion, Possibilities, reservation_at};

/// One reservation of a view, and who sends a command under it.
///
/// What holds of every place is said once, here, so that no function that is given one has to ask for it.
#[derive(Clone, Copy)]
pub struct Place {
    /// How many nexuses there are.
    pub hosts: u8,
    pub sender: u8,
    /// The reservation, by its number.
    pub reservation: u8,
    pub held: Option<Held>,
    pub ghost some: { 1 ≤ hosts },
    pub ghost few: { hosts ≤ MOST_NEXUSES },
    pub ghost there: { sender < hosts },
    pub ghost below: { reservation < count_of_reservations hosts },
    pub ghost number: { reservation ≡ number_of hosts held },
    pub ghost fits: { is_reservation hosts held ≡ true },
}

impl Place {
    ghost use Rattle.pr_registry.specs.Registrations.{holds_alone};
    ghost use Rattle.pr_registry.specs.Changes.{is_held_by_all};
    ghost use Rattle.pr_sets.specs.BitSets.{has};
    ghost use Rattle.pr_regions.specs.Gathering.{HasAll, HasNone, HasNoneBeyond, IsGatheredIn};
    ghost use Rattle.pr_regions.specs.inside.Portions.{passes, IsLeftAt, IsLeftTo, IsSameAt, HasTest};

    /// The place of this reservation.
    pub fn of(hosts: u8, sender: u8, reservation: u8) -> Place
        requires hosts { (1 ≤ hosts) × (hosts ≤ MOST_NEXUSES) }
        requires sender { sender < hosts }
        requires below { reservation < count_of_reservations hosts }
        ensures hosts { result.hosts ≡ hosts }
        ensures sender { result.sender ≡ sender }
        ensures reservation { result.reservation ≡ reservation }
    {
        Place {
            hosts,
            sender,
            reservation,
            held: reservation_at(hosts, reservation),
        }
    }

    /// What each nexus has in the states of this region in which the sender has one of these
    /// registrations; none where the view shows no such state.
    pub fn gather(
        &self,
        view: &Possibilities,
        senders: BitSet,
        region: &Region,
    ) -> Option<[BitSet; MOST_NEXUSES]>
        ensures some { IfSome result (IsGatheredIn view.now self.now senders region.now) }
        ensures beyond { IfSome result (HasNoneBeyond self.now.hosts) }
        ensures none { IfNone result (HasNone view.now self.now senders region.now) }
    {
        self.portion(view, senders, region).projected(self.hosts)
    }

    /// What each nexus has at most in those states: [`gather`](Place::gather) leaves out what none of them has, and takes longer.
    pub fn gathered_at_most(
        &self,
        view: &Possibilities,
        senders: BitSet,
        region: &Region,
    ) -> [BitSet; MOST_NEXUSES]
        ensures { HasAll view.now self.now senders region.now result }
    {
        self.portion(view, senders, region).registrations
    }

    // The portion of the view that those states are.
    fn portion(&self, view: &Possibilities, senders: BitSet, region: &Region) -> Portion
        ensures sender { result.sender ≡ self.now.sender }
        ensures reservation { result.reservation ≡ self.now.reservation }
        ensures left { IsLeftTo view.now self.now senders region.now result }
        ensures beyond { HasNoneBeyond self.now.hosts result.registrations }
        ensures tested { HasTest self.now senders region.now.somebody result.somebody }
    {
        Portion {
            sender: self.sender,
            reservation: self.reservation,
            registrations: self.left(view, senders, region),
            somebody: self.somebody(senders, region.somebody),
        }
    }

    // What the portion leaves to each: one rule for all, but for the sender and for who holds alone.
    fn left(&self, view: &Possibilities, senders: BitSet, region: &Region) -> [BitSet; MOST_NEXUSES]
        ensures left { (g r : ℕ) → g < self.now.hosts
            → IsLeftAt view.now self.now senders region.now result g r }
        ensures beyond { HasNoneBeyond self.now.hosts result }
    {
        let mut words = [BitSet::none(); MOST_NEXUSES];
        for host in 0..usize::from(self.hosts) {
            words[host] = view.registrations[host].and(region.others);
        }
        self.leave_to_holder(&mut words, view, senders, region);
        self.leave_to(&mut words, self.sender, view, senders, region);
        words
    }

    // Puts what the portion leaves to who holds alone, if one does, into its place.
    fn leave_to_holder(
        &self,
        words: &mut [BitSet; MOST_NEXUSES],
        view: &Possibilities,
        senders: BitSet,
        region: &Region,
    )
        ensures holder { (g r : ℕ) → g < self.now.hosts → holds_alone self.now.held g ≡ true
            → IsLeftAt view.now self.now senders region.now words.new g r }
        ensures others { (g r : ℕ) → (holds_alone self.now.held g ≡ false) ⊎ (self.now.hosts ≤ g)
            → IsSameAt words.old words.new g r }
    {
        if let Some(Held::One(_, holder)) = self.held {
            self.leave_to(words, holder, view, senders, region);
        }
    }

    // Puts what the portion leaves to one of them into its place.
    fn leave_to(
        &self,
        words: &mut [BitSet; MOST_NEXUSES],
        g: u8,
        view: &Possibilities,
        senders: BitSet,
        region: &Region,
    )
        ensures here { g < self.now.hosts → (r : ℕ)
            → IsLeftAt view.now self.now senders region.now words.new g r }
        ensures others { (h r : ℕ) → (h ≢ g) ⊎ (self.now.hosts ≤ g)
            → IsSameAt words.old words.new h r }
    {
        if g < self.hosts {
            let i = usize::from(g);
            words[i] = self.left_to(g, view.registrations[i], senders, region);
        }
    }

    // What it leaves to one of them.
    fn left_to(&self, g: u8, word: BitSet, senders: BitSet, region: &Region) -> BitSet
        ensures { (r : ℕ) → has result r ≡ (has word r && passes self.now senders region.now g r) }
    {
        let alone = matches!(self.held, Some(Held::One(_, holder)) if holder == g);
        let passing = if g == self.sender {
            senders
        } else if alone {
            region.holder
        } else {
            region.others
        };
        let left = word.and(passing);
        if alone { left.without(0) } else { left }
    }

    // Under types 7 and 8 all registrants hold the reservation. So where the sender is none, somebody else is registered.
    fn somebody(&self, senders: BitSet, somebody: Option<BitSet>) -> Option<BitSet>
        ensures { HasTest self.now senders somebody result }
    {
        match somebody {
            Some(passing) => Some(passing),
            None if self.needs_another(senders) => Some(every_key()),
            None => None,
        }
    }

    fn needs_another(&self, senders: BitSet) -> bool
        ensures { result ≡ (is_held_by_all self.now.held && has senders 0) }
    {
        matches!(self.held, Some(Held::All(_))) && senders.has(0)
    }
}
