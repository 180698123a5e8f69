//! Alternatives of a scenario's start that no state has from which it starts.

use crate::lint::Lint;
use pr_registry::Held;
use pr_roles::{Nexus, Parts};
use std::alloc::AllocError;

/// Adds each alternative of the reservation that no such state has, and each nexus that is registered in all of them though it may
/// start free: who holds is registered, and where all registrants hold, somebody is.
pub(crate) fn add_of_beginnings(lints: &mut Vec<Lint>, parts: &Parts) -> Result<(), AllocError> {
    for (alternative, held) in parts.reservations.iter().enumerate() {
        if !may_be_held(&parts.nexuses, *held) {
            lints.push(Lint::NoSuchReservation { alternative })?;
        }
    }
    for (host, nexus) in (0..u8::MAX).zip(&parts.nexuses) {
        if nexus.start.alternatives.contains(&None) && !may_be_free(parts, host) {
            lints.push(Lint::NoSuchStart { host })?;
        }
    }
    Ok(())
}

// Whether some state has this reservation.
fn may_be_held(nexuses: &[Nexus], held: Option<Held>) -> bool {
    match held {
        None => true,
        Some(Held::One(_, host)) => nexuses
            .get(usize::from(host))
            .is_some_and(may_be_registered),
        Some(Held::All(_)) => nexuses.iter().any(may_be_registered),
    }
}

fn may_be_registered(nexus: &Nexus) -> bool {
    nexus.start.alternatives.iter().any(|key| key.is_some())
}

// Whether some state has the nexus not registered.
fn may_be_free(parts: &Parts, host: u8) -> bool {
    parts.reservations.iter().any(|held| may_be_held(&parts.nexuses, *held)
        && !needs(&parts.nexuses, *held, host))
}

// Whether there is such a reservation only where the nexus is registered.
fn needs(nexuses: &[Nexus], held: Option<Held>, host: u8) -> bool {
    match held {
        None => false,
        Some(Held::One(_, holder)) => holder == host,
        Some(Held::All(_)) => !nexuses.iter().enumerate().any(|(number, nexus)| number
            != usize::from(host)
            && may_be_registered(nexus)),
    }
}
