//! The numbers of reservations.

ghost use Rattle.std.specs.Prelude.{true, false, ◌≡◌, ◌≤◌, ◌<◌, ◌+◌, ◌*◌, IsTrue, IfSome, Some, None};
ghost use Rattle.pr_cdb.specs.declared.codes.TheConstants.{MOST_NEXUSES};
ghost use Rattle.pr_registry.specs.Registrations.{is_all};
ghost use Rattle.pr_roles.specs.Fitting.{is_reservation};
ghost use Rattle.pr_views.specs.Possibilities.{place_of, number_of, count_of_reservations};

use pr_cdb::Kind;
use pr_registry::Held;

// The place of a type among those with one holder (1, 3, 5, 6), and among those of all registrants (7, 8).
fn place_of(kind: Kind) -> u8
    ensures place { result ≡ place_of kind }
    ensures few { result ≤ 3 }
{
    match kind {
        Kind::WriteExclusive | Kind::WriteExclusiveAllRegistrants => 0,
        Kind::ExclusiveAccess | Kind::ExclusiveAccessAllRegistrants => 1,
        Kind::WriteExclusiveRegistrantsOnly => 2,
        Kind::ExclusiveAccessRegistrantsOnly => 3,
    }
}

/// The number of a reservation: 0 for none, then types 1, 3, 5 and 6, each by its holder, then 7 and 8.
pub fn reservation_number(hosts: u8, held: Option<Held>) -> u8
    requires few { hosts ≤ MOST_NEXUSES }
    requires fits { IsTrue (is_reservation hosts held) }
    ensures number { result ≡ number_of hosts held }
    ensures below { result < count_of_reservations hosts }
{
    match held {
        None => 0,
        Some(Held::One(kind, holder)) => 1 + (hosts * place_of(kind) + holder),
        Some(Held::All(kind)) => 1 + (hosts * 4 + place_of(kind)),
    }
}

// The type with one holder at this place.
fn single_kind(place: u8) -> Kind
    requires { place < 4 }
    ensures place { place_of result ≡ place }
    ensures single { is_all result ≡ false }
{
    match place {
        0 => Kind::WriteExclusive,
        1 => Kind::ExclusiveAccess,
        2 => Kind::WriteExclusiveRegistrantsOnly,
        _ => Kind::ExclusiveAccessRegistrantsOnly,
    }
}

// The type of all registrants at this place.
fn shared_kind(place: u8) -> Kind
    requires { place < 2 }
    ensures place { place_of result ≡ place }
    ensures shared { is_all result ≡ true }
{
    if place == 0 {
        Kind::WriteExclusiveAllRegistrants
    } else {
        Kind::ExclusiveAccessAllRegistrants
    }
}

/// The reservation of this number.
pub fn reservation_at(hosts: u8, number: u8) -> Option<Held>
    requires some { 1 ≤ hosts }
    requires few { hosts ≤ MOST_NEXUSES }
    requires below { number < count_of_reservations hosts }
    ensures number { number ≡ number_of hosts result }
    ensures fits { IsTrue (is_reservation hosts result) }
{
    if number == 0 {
        return None;
    }
    let place = number - 1;
    let first_shared = hosts * 4;
    if place < first_shared {
        Some(Held::One(single_kind(place / hosts), place % hosts))
    } else {
        Some(Held::All(shared_kind(place - first_shared)))
    }
}
