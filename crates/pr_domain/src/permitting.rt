//! Whether a role permits a command of its host in each state of the host's view in which the command ends GOOD.

ghost use Rattle.std.specs.Prelude.{◌≡◌, ◌<◌, ◌↔◌, ℕ, Bool, List, true, false, ◌==◌, ◌&&◌, ◌||◌, not, IsTrue};
ghost use Rattle.pr_script.specs.Grammar.{is_written};
ghost use Rattle.pr_sets.specs.BitSets.{has};
ghost use Rattle.pr_sets.specs.Wides.{has_wide};
ghost use Rattle.pr_views.specs.Rooms.{view_of};
ghost use Rattle.pr_domain.specs.Permission.{IsPermittedIn, IsRefusedIn};
ghost use Rattle.pr_roles.specs.declared.role.Clause.{Clause};
ghost use Rattle.pr_regions.specs.Conditions.{holds_as};
ghost use Rattle.pr_regions.specs.declared.place.Place.{Place};
ghost use Rattle.pr_domain.specs.inside.Permitting.{IsAsking, PermitsAll, PermitsAt, RefusesAt, RefusesOne, IsNaming, naming_permits};

use crate::tally::Tally;
use crate::tallying::add_senders;
use crate::tested::TestedCommand;
use pr_cdb::{Command, in_range};
use pr_regions::Place;
use pr_roles::{Clause, Condition, Role, is_always_permitted, names};
use pr_sets::{BitSet, ViewSet};
use pr_views::{Possibilities, ViewOf, count_of_reservations, reservation_at};

/// Whether the role permits this command of the host in each state that the host's view shows and in which the
/// command ends GOOD. It takes no memory.
pub fn permitted<S: ViewSet>(view: &ViewOf<S>, role: &Role, host: u8, command: &Command) -> bool
    requires host { host < view.now.hosts }
    requires written { IsTrue (is_written view.now.keys.items command.now) }
    ensures permitted { IsTrue result → IsPermittedIn (view_of host view.now)
        role.now.clauses.items command.now }
    ensures refused { result ≡ false → IsRefusedIn (view_of host view.now)
        role.now.clauses.items command.now }
{
    if is_always_permitted(*command) {
        return true;
    }
    let possible = view.possibilities();
    // Where something is sure to be pending, no other command ends GOOD.
    if !possible.pending.has(0) {
        return true;
    }
    in_range(*command);
    let asked = TestedCommand {
        keys: &view.keys,
        command: *command,
        tests: &[],
    };
    is_permitted_under_each(&possible, view.hosts, host, &role.clauses, &asked)
}

// Whether some clause permits the command under each reservation under which it can end GOOD.
fn is_permitted_under_each(
    view: &Possibilities,
    hosts: u8,
    sender: u8,
    clauses: &[Clause],
    asked: &TestedCommand,
) -> bool
    requires asking { IsAsking asked.now hosts sender view.now }
    ensures permitted { IsTrue result → PermitsAll asked.now hosts sender view.now clauses.now }
    ensures refused { result ≡ false → RefusesOne asked.now hosts sender view.now clauses.now }
{
    let naming = Naming::of(clauses, asked.command);
    for reservation in 0..count_of_reservations(hosts) {
        if view.reservations.has(reservation) {
            let place = Place {
                hosts,
                sender,
                reservation,
                held: reservation_at(hosts, reservation),
            };
            if !is_permitted_at(view, place, naming, asked) {
                return false;
            }
        }
    }
    true
}

// Whether some clause that is named so permits it in each state under this reservation in which it can end GOOD: with the
// registrations with which none does, it ends GOOD in none.
fn is_permitted_at(
    view: &Possibilities,
    place: Place,
    naming: Naming,
    asked: &TestedCommand,
) -> bool
    requires asking { IsAsking asked.now place.hosts place.sender view.now }
    requires possible { has_wide view.now.reservations place.reservation ≡ true }
    ensures permitted { IsTrue result → (clauses : List Clause)
        → IsNaming clauses asked.now.command naming → PermitsAt asked.now place view.now clauses }
    ensures refused { result ≡ false → (clauses : List Clause)
        → IsNaming clauses asked.now.command naming → RefusesAt asked.now place view.now clauses }
{
    let possible = view.registrations[usize::from(place.sender)];
    let senders = unpermitted(possible, place, naming);
    if senders.is_empty() {
        // (as for most commands, so that nothing has to be tallied)
        return true;
    }
    let mut tally = Tally::none();
    add_senders(&mut tally, view, place, asked, senders);
    // Way 3 is GOOD whose data no arm takes, and here are no arms.
    tally.way(3).reservations.is_empty()
}

// Of these registrations of the place's sender those with which nothing permits the command.
fn unpermitted(possible: BitSet, place: Place, naming: Naming) -> BitSet
    ensures { (r : ℕ) → has result r ≡ (has possible r
        && not (naming_permits naming place (not (r == 0)))) }
{
    let unregistered = naming.permits_at(place, false);
    let registered = naming.permits_at(place, true);
    match (unregistered, registered) {
        (true, true) => BitSet::none(),
        (true, false) => possible.without(0),
        (false, true) => possible.and(BitSet::only(0)),
        (false, false) => possible,
    }
}

/// Under which conditions the clauses of a role permit a command. They are asked once which of them name it, since that is the same
/// under each of up to 67 reservations.
#[derive(Clone, Copy)]
struct Naming {
    freely: bool,
    if_registered: bool,
    if_holder: bool,
    if_reserved: bool,
}

impl Naming {
    // Under none.
    const NONE: Naming = Naming {
        freely: false,
        if_registered: false,
        if_holder: false,
        if_reserved: false,
    };

    fn of(clauses: &[Clause], command: Command) -> Naming
        ensures { IsNaming clauses.now command result }
    {
        let mut naming = Naming::NONE;
        for clause in clauses {
            if names(clause.action, command) {
                naming = naming.with(clause.condition);
            }
        }
        naming
    }

    // Under this condition, too.
    fn with(self, condition: Option<Condition>) -> Naming
        ensures { (place : Place) (registered : Bool) → naming_permits result place registered
            ≡ (naming_permits self place registered
            || holds_as condition place.held place.sender registered) }
    {
        let mut naming = self;
        match condition {
            None => naming.freely = true,
            Some(Condition::Registered) => naming.if_registered = true,
            Some(Condition::Holder) => naming.if_holder = true,
            Some(Condition::Reserved) => naming.if_reserved = true,
        }
        naming
    }

    // Whether the sender of the place, registered or not, meets one of the conditions.
    fn permits_at(self, place: Place, registered: bool) -> bool
        ensures { result ≡ naming_permits self place registered }
    {
        self.freely
            || (self.if_registered && registered)
            || (self.if_holder && place.meets(Some(Condition::Holder), registered))
            || (self.if_reserved && place.held.is_some())
    }
}
