//! Who may hold the reservation.

ghost use Rattle.std.specs.Prelude.{◌≡◌, ◌<◌, ◌≤◌, ℕ, Option, true, false, Some, IsTrue};
ghost use Rattle.pr_cdb.specs.declared.codes.TheConstants.{MOST_NEXUSES};
ghost use Rattle.pr_cdb.specs.declared.command.Kind.{Kind as KindOf};
ghost use Rattle.pr_registry.specs.declared.held.Held.{Held as HeldAs};
ghost use Rattle.pr_registry.specs.declared.held.Held.TheVariants.{One, All};
ghost use Rattle.pr_registry.specs.Registrations.{is_all, is_for_registrants};
ghost use Rattle.pr_registry.specs.Changes.{is_kind};
ghost use Rattle.pr_sets.specs.BitSets.{has};
ghost use Rattle.pr_sets.specs.Wides.{has_wide};
ghost use Rattle.pr_views.specs.Possibilities.{number_of};
ghost use Rattle.pr_regions.specs.Conditions.{holds_as, is_holder_as};
ghost use Rattle.pr_interference.specs.inside.Reaching.{AreHolders, HasReservation, IsHeldAmong};

use pr_cdb::Kind;
use pr_registry::Held;
use pr_roles::Condition;
use pr_sets::{BitSet, Wide};
use pr_views::reservation_number;

/// Who may hold the reservation: by it, what is asked of all reservations of a form is asked of a word.
#[derive(Clone, Copy)]
pub(crate) struct Holders {
    /// Whether there may be no reservation.
    pub(crate) nobody: bool,
    /// Who may hold one of type 1.
    pub(crate) write: BitSet,
    /// Who may hold one of type 3.
    pub(crate) exclusive: BitSet,
    /// Who may hold one of type 5.
    pub(crate) write_registrants: BitSet,
    /// Who may hold one of type 6.
    pub(crate) exclusive_registrants: BitSet,
    /// Whether all registrants may hold one.
    pub(crate) everybody: bool,
}

impl Holders {
    /// Who may hold one of these reservations.
    pub(crate) fn of(hosts: u8, possible: Wide) -> Holders
        requires { (1 ≤ hosts) × (hosts ≤ MOST_NEXUSES) }
        ensures { AreHolders hosts possible result }
    {
        Holders {
            nobody: possible.has(0),
            write: alone(hosts, possible, Kind::WriteExclusive),
            exclusive: alone(hosts, possible, Kind::ExclusiveAccess),
            write_registrants: alone(hosts, possible, Kind::WriteExclusiveRegistrantsOnly),
            exclusive_registrants: alone(hosts, possible, Kind::ExclusiveAccessRegistrantsOnly),
            everybody: everybody(hosts, possible),
        }
    }

    /// Of these, the ones under which this sender meets the condition once it is registered.
    pub(crate) fn meeting(&self, condition: Option<Condition>, sender: u8) -> Holders
        requires { sender < MOST_NEXUSES }
        ensures { (held : Option HeldAs) → IsHeldAmong self.now held
            → holds_as condition held sender true ≡ true → IsHeldAmong result held }
    {
        match condition {
            None | Some(Condition::Registered) => *self,
            Some(Condition::Holder) => self.by(sender),
            Some(Condition::Reserved) => Holders {
                nobody: false,
                ..*self
            },
        }
    }

    // Those that this one holds, alone or as a registrant.
    fn by(&self, sender: u8) -> Holders
        requires { sender < MOST_NEXUSES }
        ensures { (held : Option HeldAs) → IsHeldAmong self.now held
            → is_holder_as held sender true ≡ true → IsHeldAmong result held }
    {
        let sender = BitSet::only(sender);
        Holders {
            nobody: false,
            write: self.write.and(sender),
            exclusive: self.exclusive.and(sender),
            write_registrants: self.write_registrants.and(sender),
            exclusive_registrants: self.exclusive_registrants.and(sender),
            everybody: self.everybody,
        }
    }

    /// Whether there is none.
    pub(crate) fn are_none(&self) -> bool
        ensures { IsTrue result → (held : Option HeldAs) → ¬ IsHeldAmong self.now held }
    {
        !self.nobody && !self.everybody && self.alone().is_empty()
    }

    /// Who may hold alone.
    pub(crate) fn alone(&self) -> BitSet
        ensures { (kind : KindOf) (holder : ℕ) → IsHeldAmong self.now (Some (One kind holder))
            → has result holder ≡ true }
    {
        self.write.or(self.exclusive).or(self.alone_told())
    }

    /// Who may hold alone, by a type whose loss registrants are told.
    pub(crate) fn alone_told(&self) -> BitSet
        ensures { (kind : KindOf) (holder : ℕ) → IsHeldAmong self.now (Some (One kind holder))
            → is_for_registrants kind ≡ true → has result holder ≡ true }
    {
        self.write_registrants.or(self.exclusive_registrants)
    }

    /// Who may hold alone, by another type than this one.
    pub(crate) fn alone_but(&self, kind: Kind) -> BitSet
        ensures { (old : KindOf) (holder : ℕ) → IsHeldAmong self.now (Some (One old holder))
            → is_kind old kind ≡ false → has result holder ≡ true }
    {
        match kind {
            Kind::WriteExclusive => self.exclusive.or(self.alone_told()),
            Kind::ExclusiveAccess => self.write.or(self.alone_told()),
            Kind::WriteExclusiveRegistrantsOnly => {
                self.write.or(self.exclusive).or(self.exclusive_registrants)
            }
            Kind::ExclusiveAccessRegistrantsOnly => {
                self.write.or(self.exclusive).or(self.write_registrants)
            }
            Kind::WriteExclusiveAllRegistrants | Kind::ExclusiveAccessAllRegistrants => {
                self.alone()
            }
        }
    }
}

// Who may hold a reservation of this type alone.
fn alone(hosts: u8, possible: Wide, kind: Kind) -> BitSet
    requires hosts { (1 ≤ hosts) × (hosts ≤ MOST_NEXUSES) }
    requires single { is_all kind ≡ false }
    ensures { (holder : ℕ) → holder < hosts → HasReservation possible hosts (One kind holder)
        → has result holder ≡ true }
{
    let first = reservation_number(hosts, Some(Held::One(kind, 0)));
    let mut holders = BitSet::none();
    for holder in 0..hosts {
        if possible.has(first + holder) {
            holders = holders.with(holder);
        }
    }
    holders
}

// Whether all registrants may hold one.
fn everybody(hosts: u8, possible: Wide) -> bool
    requires { hosts ≤ MOST_NEXUSES }
    ensures { (kind : KindOf) → is_all kind ≡ true → HasReservation possible hosts (All kind)
        → IsTrue result }
{
    may_share(hosts, possible, Kind::WriteExclusiveAllRegistrants)
        || may_share(hosts, possible, Kind::ExclusiveAccessAllRegistrants)
}

fn may_share(hosts: u8, possible: Wide, kind: Kind) -> bool
    requires hosts { hosts ≤ MOST_NEXUSES }
    requires shared { is_all kind ≡ true }
    ensures { result ≡ has_wide possible (number_of hosts (Some (All kind))) }
{
    possible.has(reservation_number(hosts, Some(Held::All(kind))))
}
