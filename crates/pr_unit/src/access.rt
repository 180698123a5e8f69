//! To whom a reservation leaves an access.

ghost use Rattle.std.specs.Prelude.{◌≡◌, ◌<◌};
ghost use Rattle.pr_unit.specs.Conduct.{read_access, write_access, is_denied, access_conflicts};

use pr_cdb::Kind;
use pr_registry::{Registry, kind_of};

/// To whom a reservation leaves an access to the medium (SPC-4, 'Reservations').
#[derive(Clone, Copy, PartialEq, Eq)]
pub(crate) enum Access {
    Everybody,
    Registrants,
    Holder,
}

/// Who may read the medium under a reservation of this type.
fn read_access(kind: Kind) -> Access
    ensures { result ≡ read_access kind }
{
    match kind {
        Kind::WriteExclusive => Access::Everybody,
        Kind::ExclusiveAccess => Access::Holder,
        Kind::WriteExclusiveRegistrantsOnly => Access::Everybody,
        Kind::ExclusiveAccessRegistrantsOnly => Access::Registrants,
        Kind::WriteExclusiveAllRegistrants => Access::Everybody,
        Kind::ExclusiveAccessAllRegistrants => Access::Registrants,
    }
}

/// Who may write it.
fn write_access(kind: Kind) -> Access
    ensures { result ≡ write_access kind }
{
    match kind {
        Kind::WriteExclusive | Kind::ExclusiveAccess => Access::Holder,
        Kind::WriteExclusiveRegistrantsOnly
        | Kind::ExclusiveAccessRegistrantsOnly
        | Kind::WriteExclusiveAllRegistrants
        | Kind::ExclusiveAccessAllRegistrants => Access::Registrants,
    }
}

fn is_denied(registry: &Registry, host: u8, access: Access) -> bool
    requires { host < registry.now.hosts }
    ensures { result ≡ is_denied registry.now host access }
{
    match access {
        Access::Everybody => false,
        Access::Registrants => !registry.is_registered(host),
        Access::Holder => !registry.is_holder(host),
    }
}

/// Whether the reservation keeps the host from reading the medium.
pub(crate) fn reading_conflicts(registry: &Registry, host: u8) -> bool
    requires { host < registry.now.hosts }
    ensures { result ≡ access_conflicts registry.now host registry.now.held read_access }
{
    match registry.held() {
        None => false,
        Some(held) => is_denied(registry, host, read_access(kind_of(held))),
    }
}

/// Whether the reservation keeps the host from writing it.
pub(crate) fn writing_conflicts(registry: &Registry, host: u8) -> bool
    requires { host < registry.now.hosts }
    ensures { result ≡ access_conflicts registry.now host registry.now.held write_access }
{
    match registry.held() {
        None => false,
        Some(held) => is_denied(registry, host, write_access(kind_of(held))),
    }
}
