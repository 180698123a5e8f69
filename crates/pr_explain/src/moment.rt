//! Why at the end of a run that is so, or isn't, for which `fence never` was asked.

use crate::stepping::go_past;
use pr_cdb::Kind;
use pr_explore::{Fact, Sight};
use pr_registry::{Held, Registry, kind_of};
use pr_roles::Item;
use pr_unit::Unit;

/// From when on something has been so.
#[derive(Clone, Copy, Debug, PartialEq, Eq)]
pub(crate) enum Since {
    /// It was so at the start, and at all times of the run.
    Start,
    /// The command at this place of the run, from 0, and of this nexus, made it so.
    Command { place: usize, by: u8 },
}

/// Why that is so of a nexus, or isn't, which a fact says.
#[derive(Clone, Copy, Debug, PartialEq, Eq)]
pub(crate) enum Grounds {
    /// Nothing is reserved.
    Unreserved(Since),
    /// It holds a reservation of this type, and nobody else does.
    Holds {
        kind: Kind,
        since: Since,
    },
    /// This reservation leaves that to everybody.
    Everybody {
        held: Held,
    },
    /// It is registered, and this reservation leaves that to every registrant.
    Registrant {
        held: Held,
        key: u64,
        since: Since,
    },
    /// Another holds, and a reservation of this type leaves that to its holder.
    Another {
        kind: Kind,
        holder: u8,
        since: Since,
    },
    /// It isn't registered, and this reservation leaves that to registrants.
    NoRegistrant {
        held: Held,
        since: Since,
    },
    /// It is registered with this key.
    Registered {
        key: u64,
        since: Since,
    },
    /// It isn't registered.
    NotRegistered(Since),
}

/// What the end of a run shows of a nexus.
#[derive(Clone, Copy, Debug, PartialEq, Eq)]
pub(crate) struct FactShown {
    /// Whether that is so which the fact speaks of, whatever it says of it.
    pub is_so: bool,
    pub reason: Grounds,
}

// To whom a reservation leaves something (SPC-4, 'Reservations').
#[derive(Clone, Copy, PartialEq, Eq)]
enum Circle {
    Everybody,
    Registrants,
    Holder,
}

// The end of a run, and since when its registration of a nexus and its reservation are as they are there.
#[derive(Drop)]
struct Finish {
    unit: Unit,
    registration: Since,
    reservation: Since,
}

/// Why that which the fact speaks of is so at the end of the run, or why it isn't; nothing where there is no such nexus.
pub(crate) fn shown_by(start: &Unit, history: &[Item], fact: Fact) -> Option<FactShown> {
    let finish = finish_of(start, history, fact.nexus);
    let holds = fact.is_so_of(&finish.unit)?;
    Some(FactShown {
        is_so: holds == fact.is_so,
        reason: finish.reason(fact),
    })
}

fn finish_of(start: &Unit, history: &[Item], nexus: u8) -> Finish {
    let mut finish = Finish {
        unit: start.copy(),
        registration: Since::Start,
        reservation: Since::Start,
    };
    for (place, item) in history.iter().enumerate() {
        finish.go_past(place, item, nexus);
    }
    finish
}

impl Finish {
    fn go_past(&mut self, place: usize, item: &Item, nexus: u8) {
        let key = key_in(self.unit.registry(), nexus);
        let held = self.unit.registry().held();
        go_past(&mut self.unit, item);
        // (a reset changes neither)
        let Item::Sent(entry) = item else {
            return;
        };
        let now = Since::Command {
            place,
            by: entry.host,
        };
        if key_in(self.unit.registry(), nexus) != key {
            self.registration = now;
        }
        if self.unit.registry().held() != held {
            self.reservation = now;
        }
    }

    fn reason(&self, fact: Fact) -> Grounds {
        let nexus = fact.nexus;
        match (fact.sight, self.unit.registry().held()) {
            (Sight::Registered, _) => self.registered(nexus),
            (Sight::Write | Sight::Read | Sight::Holder, None) => {
                Grounds::Unreserved(self.reservation)
            }
            (Sight::Write, Some(held)) => self.reserved(nexus, held, writers(kind_of(held))),
            (Sight::Read, Some(held)) => self.reserved(nexus, held, readers(kind_of(held))),
            (Sight::Holder, Some(held)) => self.reserved(nexus, held, holders(kind_of(held))),
        }
    }

    fn registered(&self, nexus: u8) -> Grounds {
        let since = self.registration;
        match key_in(self.unit.registry(), nexus) {
            Some(key) => Grounds::Registered { key, since },
            None => Grounds::NotRegistered(since),
        }
    }

    // Why it has what this reservation leaves to these, or hasn't.
    fn reserved(&self, nexus: u8, held: Held, circle: Circle) -> Grounds {
        let since = self.reservation;
        if circle == Circle::Everybody {
            return Grounds::Everybody { held };
        }
        if let Some((kind, holder)) = alone(held) {
            if holder == nexus {
                return Grounds::Holds { kind, since };
            }
            if circle == Circle::Holder {
                return Grounds::Another {
                    kind,
                    holder,
                    since,
                };
            }
        }
        self.among_registrants(nexus, held)
    }

    // The same of what this reservation leaves to registrants.
    fn among_registrants(&self, nexus: u8, held: Held) -> Grounds {
        let since = self.registration;
        match key_in(self.unit.registry(), nexus) {
            Some(key) => Grounds::Registrant { held, key, since },
            None => Grounds::NoRegistrant { held, since },
        }
    }
}

// The key that the nexus is registered with, if it is.
fn key_in(registry: &Registry, nexus: u8) -> Option<u64> {
    if nexus < registry.hosts() {
        registry.key(nexus)
    } else {
        None
    }
}

// The type, and the nexus that holds alone, if one does.
fn alone(held: Held) -> Option<(Kind, u8)> {
    match held {
        Held::One(kind, holder) => Some((kind, holder)),
        Held::All(_) => None,
    }
}

// Who may write.
fn writers(kind: Kind) -> Circle {
    match kind {
        Kind::WriteExclusive | Kind::ExclusiveAccess => Circle::Holder,
        Kind::WriteExclusiveRegistrantsOnly
        | Kind::ExclusiveAccessRegistrantsOnly
        | Kind::WriteExclusiveAllRegistrants
        | Kind::ExclusiveAccessAllRegistrants => Circle::Registrants,
    }
}

// Who may read.
fn readers(kind: Kind) -> Circle {
    match kind {
        Kind::WriteExclusive
        | Kind::WriteExclusiveRegistrantsOnly
        | Kind::WriteExclusiveAllRegistrants => Circle::Everybody,
        Kind::ExclusiveAccess => Circle::Holder,
        Kind::ExclusiveAccessRegistrantsOnly | Kind::ExclusiveAccessAllRegistrants => {
            Circle::Registrants
        }
    }
}

// Who holds it.
fn holders(kind: Kind) -> Circle {
    match kind {
        Kind::WriteExclusive
        | Kind::ExclusiveAccess
        | Kind::WriteExclusiveRegistrantsOnly
        | Kind::ExclusiveAccessRegistrantsOnly => Circle::Holder,
        Kind::WriteExclusiveAllRegistrants | Kind::ExclusiveAccessAllRegistrants => {
            Circle::Registrants
        }
    }
}
