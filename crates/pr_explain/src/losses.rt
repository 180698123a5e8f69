//! What in a run took away what a clause of a role asks for.

use crate::stepping::{go_past, is_met};
use pr_cdb::codes::UNIT_ATTENTION;
use pr_cdb::{Command, Reply, Request, Status, decode};
use pr_registry::Held;
use pr_roles::{Condition, Entry, Item};
use pr_unit::Unit;
use pr_witness::Breach;

// The additional sense code of what the standard calls RESERVATIONS PREEMPTED, RESERVATIONS RELEASED and REGISTRATIONS PREEMPTED.
const PREEMPTED: u8 = 0x2a;

/// The last command of a run behind which a condition no longer held.
#[derive(Clone, Copy)]
pub(crate) struct Loss {
    /// The place of the command in the run, from 0.
    pub index: usize,
    /// What was reserved before it, and what behind it.
    pub before: Option<Held>,
    pub after: Option<Held>,
}

/// The unit before the last command of the run.
pub(crate) fn unit_before_last(breach: &Breach) -> Unit {
    let mut unit = breach.run.start.copy();
    for item in before_last(breach) {
        go_past(&mut unit, item);
    }
    unit
}

// The run without its last command.
fn before_last(breach: &Breach) -> &[Item] {
    match breach.run.history.split_last() {
        Some((_, before)) => before,
        None => &[],
    }
}

/// The last command, before the last of the run, behind which this no longer held of the nexus.
pub(crate) fn loss_of(breach: &Breach, host: u8, condition: Condition) -> Option<Loss> {
    let mut unit = breach.run.start.copy();
    let mut loss = None;
    for (index, item) in before_last(breach).iter().enumerate() {
        let before = unit.registry().held();
        let was_met = is_met(condition, &unit, host);
        go_past(&mut unit, item);
        if was_met && !is_met(condition, &unit, host) {
            loss = Some(Loss {
                index,
                before,
                after: unit.registry().held(),
            });
        }
    }
    loss
}

/// The first command of the nexus behind this one, and before the last of the run, that was told of what another did: it ended in
/// RESERVATION CONFLICT, or in an attention that a command of another leaves.
pub(crate) fn told_behind(breach: &Breach, host: u8, index: usize) -> Option<(usize, &Entry)> {
    for (later, item) in before_last(breach).iter().enumerate() {
        if let Item::Sent(entry) = item
            && later > index
            && entry.host == host
            && tells(&entry.reply)
        {
            return Some((later, entry));
        }
    }
    None
}

fn tells(reply: &Reply) -> bool {
    reply.status == Status::Conflict
        || reply.sense.is_some_and(|sense| sense.key == UNIT_ATTENTION && sense.asc == PREEMPTED)
}

/// Who sent this item of the run, and which command it is.
pub(crate) fn command_at(history: &[Item], index: usize) -> Option<(u8, Command)> {
    let entry = history.get(index)?.entry()?;
    Some((entry.host, command_of(entry)?))
}

/// Which command was sent, if its bytes are one.
pub(crate) fn command_of(entry: &Entry) -> Option<Command> {
    match decode(&entry.wire.cdb, &entry.wire.params) {
        Ok(Request::Plain(command)) => Some(command),
        Ok(Request::Faulty(_)) | Err(_) => None,
    }
}
