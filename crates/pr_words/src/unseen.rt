//! What a reply shows of what no script is told: that somebody else on the path was told of an attention, or that the disk reports
//! an attention before it looks at the reservation.

ghost use Rattle.std.specs.Prelude.{◌<◌};

use pr_attention::{Attention, Pending};
use pr_cdb::{Command, Request, Sense, decode, decode_sense};
use pr_roles::Entry;
use pr_unit::Unit;

/// What was pending for the sender before its command, and was gone when the unit answered that, since somebody else was told
/// of it.
pub(crate) fn fetched_before(before: &Unit, after: &Unit, entry: &Entry) -> Pending
    requires before { entry.now.host < before.now.registry.hosts }
    requires after { entry.now.host < after.now.registry.hosts }
{
    let told = attention_told(entry);
    let mut fetched = Pending::new();
    for attention in Attention::ALL {
        if before.pending(entry.host).has(attention)
            && !after.pending(entry.host).has(attention)
            && told != Some(attention)
        {
            fetched.add(attention);
        }
    }
    fetched
}

// The attention that the reply tells, if it tells one.
fn attention_told(entry: &Entry) -> Option<Attention> {
    let sense = sense_told(entry)?;
    Attention::ALL.into_iter().find(|it| it.sense() == sense)
}

// The sense of the reply, which is the data of a REQUEST SENSE.
fn sense_told(entry: &Entry) -> Option<Sense> {
    match decode(&entry.wire.cdb, &entry.wire.params) {
        Ok(Request::Plain(Command::RequestSense { .. })) => decode_sense(&entry.reply.bytes),
        Ok(_) | Err(_) => entry.reply.sense,
    }
}

/// Whether the reply is a report that came before the unit looked at the reservation, from this state of it.
pub(crate) fn is_early(before: &Unit, entry: &Entry) -> bool
    requires { entry.now.host < before.now.registry.hosts }
{
    match attention_told(entry) {
        None | Some(Attention::PowerOn) => false,
        Some(_) => is_conflict(before, entry),
    }
}

// Whether the reservation forbids the command.
fn is_conflict(before: &Unit, entry: &Entry) -> bool
    requires { entry.now.host < before.now.registry.hosts }
{
    match decode(&entry.wire.cdb, &entry.wire.params) {
        Ok(Request::Plain(command)) => before.conflicts(entry.host, &command),
        Ok(_) | Err(_) => false,
    }
}
