//! What is found of each way in which a command can end.

ghost use Rattle.std.specs.Prelude.{◌≡◌, ◌<◌, ◌≤◌, ℕ, false, IsTrue, ◌==◌, ◌&&◌, ◌||◌, Some};
ghost use Rattle.std.specs.List.{slice_get};
ghost use Rattle.pr_cdb.specs.declared.codes.TheConstants.{MOST_NEXUSES};
ghost use Rattle.pr_sets.specs.Numbers.{most};
ghost use Rattle.pr_sets.specs.BitSets.{has};
ghost use Rattle.pr_sets.specs.Wides.{has_wide};
ghost use Rattle.pr_views.specs.Possibilities.{Item};
ghost use Rattle.pr_domain.specs.declared.tally.TheConstants.{WAYS};
ghost use Rattle.pr_domain.specs.inside.Tallies.{has_part, has_tallied, HasFound};
ghost use Rattle.pr_domain.specs.inside.Twins.{has_with_twin};

use pr_regions::gains;
use pr_script::limits::MOST_ARMS;
use pr_views::Possibilities;

/// How many ways there are: in a conflict, without one, at fault, and GOOD with the data taken by no arm or by each.
pub(crate) const WAYS: usize = MOST_ARMS + 4;

/// The possible registrations and reservations after each kind of ending: in a conflict, without a conflict, at fault, and GOOD
/// with the data taken by no arm or by each of 16.
#[derive(Clone, Copy, PartialEq, Eq)]
pub(crate) struct Tally {
    pub(crate) ways: [Possibilities; WAYS],
}

impl Tally {
    /// Nothing is found yet.
    pub(crate) fn none() -> Self
        ensures { (way : ℕ) (i : Item) → has_tallied result way i ≡ false }
    {
        Tally {
            ways: [Possibilities::none(); WAYS],
        }
    }

    /// What is so of registrations and reservation where the command ends in this way.
    pub(crate) fn way(&self, way: usize) -> Possibilities
        requires { way < WAYS }
        ensures { slice_get self.now.ways way ≡ Some result }
    {
        self.ways[way]
    }

    /// Adds what is found of this way.
    pub(crate) fn add(&mut self, way: usize, found: &Possibilities)
        requires { way < WAYS }
        ensures { (w : ℕ) (i : Item) → has_tallied self.new w i
            ≡ (has_tallied self.old w i || (w == way && has_part found.now i)) }
    {
        let mut joined = self.ways[way];
        joined.join(found);
        self.ways[way] = joined;
    }

    /// Whether all that is found of this way, of so many nexuses, was added before.
    pub(crate) fn has(&self, way: usize, hosts: u8, found: &Possibilities) -> bool
        requires way { way < WAYS }
        requires hosts { hosts ≤ MOST_NEXUSES }
        ensures { IsTrue result → HasFound self.now way hosts found.now }
    {
        !gains(hosts, &self.ways[way], found)
    }

    /// Adds a reservation to each way that has this other one.
    pub(crate) fn add_twin(&mut self, twin: u8, reservation: u8)
        requires twin { twin < most }
        requires reservation { reservation < most }
        ensures { (way : ℕ) (i : Item) → has_tallied self.new way i
            ≡ has_with_twin self.old twin reservation way i }
    {
        for way in 0..WAYS {
            self.ways[way] = with_twin(&self.ways[way], twin, reservation);
        }
    }
}

// The same, and this reservation where the other one is.
fn with_twin(found: &Possibilities, twin: u8, reservation: u8) -> Possibilities
    requires twin { twin < most }
    requires reservation { reservation < most }
    ensures registrations { result.registrations ≡ found.now.registrations }
    ensures reservations { (x : ℕ) → has_wide result.reservations x
        ≡ (has_wide found.now.reservations x
        || (x == reservation && has_wide found.now.reservations twin)) }
{
    let mut joined = *found;
    if found.reservations.has(twin) {
        joined.reservations = found.reservations.with(reservation);
    }
    joined
}
