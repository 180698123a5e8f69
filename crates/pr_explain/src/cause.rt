//! Why a command that is out of its role ended GOOD in a run, in words.

use crate::losses::{Loss, command_at, loss_of, told_behind, unit_before_last};
use crate::refused_send::RefusedSend;
use crate::senders::{SentBy, SentItem, sent_by};
use crate::sheet::{Sheet, command_number};
use crate::stepping::is_met;
use pr_cdb::{Command, Kind};
use pr_output::{Token, WriteFault};
use pr_registry::{Held, kind_of};
use pr_roles::{Condition, names};
use pr_unit::Unit;
use pr_witness::Breach;
use pr_words::put_reply;
use std::io::Write;

/// What a clause may ask for.
const CONDITIONS: [Condition; 3] = [
    Condition::Registered,
    Condition::Holder,
    Condition::Reserved,
];

// Whether one of the clauses that name the command asks for this.
fn asks_for(send: RefusedSend<'_>, condition: Condition) -> bool {
    send.nexus.role.clauses.iter().any(|clause| names(clause.action, send.row.command)
        && clause.condition == Some(condition))
}

/// What a clause that names the command asks for.
pub(crate) fn asked_of(send: RefusedSend<'_>) -> Option<Condition> {
    CONDITIONS
        .into_iter()
        .find(|condition| asks_for(send, *condition))
}

/// The command of the run that took away what the role asks for, if one did: the registration first, if that is gone.
pub(crate) fn loss_in(breach: &Breach, send: RefusedSend<'_>) -> Option<Loss> {
    CONDITIONS
        .into_iter()
        .filter(|condition| asks_for(send, *condition))
        .find_map(|condition| loss_of(breach, send.host, condition))
}

/// Writes which commands of the run took away what the role of the last sender asks for, and what let its command end GOOD then.
pub(crate) fn put_cause<W: Write>(
    sheet: &mut Sheet<'_, W>,
    breach: &Breach,
    send: RefusedSend<'_>,
) -> Result<(), WriteFault> {
    let mut told = None;
    for condition in CONDITIONS {
        if asks_for(send, condition) {
            told = put_lost(sheet, breach, send, condition, told)?;
        }
    }
    put_opening(sheet, breach, send, told)
}

// Which command took this away, if that is not told already. Answers the last that is told.
fn put_lost<W: Write>(
    sheet: &mut Sheet<'_, W>,
    breach: &Breach,
    send: RefusedSend<'_>,
    condition: Condition,
    told: Option<usize>,
) -> Result<Option<usize>, WriteFault> {
    match loss_of(breach, send.host, condition) {
        Some(loss) if told == Some(loss.index) => Ok(told),
        Some(loss) => {
            put_loss(sheet, breach, send.host, condition, loss)?;
            Ok(Some(loss.index))
        }
        // (it is said below that nothing is reserved)
        None if condition == Condition::Reserved && who_may(send.row.command).is_some() => Ok(told),
        None => {
            put_never(sheet, send.host, condition)?;
            Ok(told)
        }
    }
}

// That a condition never held in the run.
fn put_never<W: Write>(
    sheet: &mut Sheet<'_, W>,
    host: u8,
    condition: Condition,
) -> Result<(), WriteFault> {
    let said: &[u8] = match condition {
        Condition::Registered => b" is registered at no time of this run.\n",
        Condition::Holder => b" holds the reservation at no time of this run.\n",
        Condition::Reserved => {
            return sheet.put(b"Nothing is reserved at any time of this run.\n");
        }
    };
    sheet.put(sheet.name_of(host))?;
    sheet.put(said)
}

// Which command took something away, and by whom.
fn put_loss<W: Write>(
    sheet: &mut Sheet<'_, W>,
    breach: &Breach,
    host: u8,
    condition: Condition,
    loss: Loss,
) -> Result<(), WriteFault> {
    let Some((sender, command)) = command_at(&breach.run.history, loss.index) else {
        return Ok(());
    };
    sheet.say(
        b"Command {}, by {}{}",
        &[
            command_number(loss.index),
            Token::Text(sheet.name_of(sender)),
            Token::Text(if sender == host { b" itself, " } else { b", " }),
        ],
    )?;
    put_deed(sheet, host, condition, loss, command)?;
    sheet.put(b".\n")
}

// What the command did to the nexus, which it took something away from.
fn put_deed<W: Write>(
    sheet: &mut Sheet<'_, W>,
    host: u8,
    condition: Condition,
    loss: Loss,
    command: Command,
) -> Result<(), WriteFault> {
    match command {
        Command::Register { .. } | Command::RegisterIgnore { .. } => {
            sheet.put(unregistering(condition, loss))
        }
        Command::Release { .. } => sheet.put(b"released the reservation"),
        Command::Clear { .. } => sheet.put(clearing(loss)),
        Command::Preempt { .. } | Command::PreemptAbort { .. } => {
            put_preempting(sheet, host, condition, loss)
        }
        Command::TestUnitReady
        | Command::RequestSense
        | Command::Read { .. }
        | Command::Write { .. }
        | Command::ReadKeys { .. }
        | Command::ReadReservation { .. }
        | Command::ReportCapabilities { .. }
        | Command::Reserve { .. } => sheet.put(b"changed that"),
    }
}

// What a command did that ended its sender's registration.
fn unregistering(condition: Condition, loss: Loss) -> &'static [u8] {
    match (condition, loss.before, loss.after) {
        (Condition::Holder | Condition::Reserved, Some(Held::One(..)), None) => {
            b"released the reservation (its holder unregistered)"
        }
        (Condition::Holder | Condition::Reserved, Some(Held::All(_)), None) => {
            b"released the reservation (the last registrant unregistered)"
        }
        (Condition::Registered | Condition::Holder | Condition::Reserved, _, _) => {
            b"ended its registration"
        }
    }
}

// What a CLEAR did.
fn clearing(loss: Loss) -> &'static [u8] {
    if loss.before.is_some() {
        b"cleared the reservation and all registrations"
    } else {
        b"cleared all registrations"
    }
}

// What a PREEMPT did to the nexus.
fn put_preempting<W: Write>(
    sheet: &mut Sheet<'_, W>,
    host: u8,
    condition: Condition,
    loss: Loss,
) -> Result<(), WriteFault> {
    let host = Token::Text(sheet.name_of(host));
    match condition {
        Condition::Holder if loss.before != loss.after && loss.after.is_some() => {
            sheet.say(b"took the reservation from {}", &[host])
        }
        Condition::Reserved => sheet.put(b"ended the reservation"),
        Condition::Registered | Condition::Holder => sheet.say(
            b"took the registration of {} away",
            &[host],
        ),
    }
}

// What lets the command end GOOD, where that hangs on the reservation.
fn put_opening<W: Write>(
    sheet: &mut Sheet<'_, W>,
    breach: &Breach,
    send: RefusedSend<'_>,
    told: Option<usize>,
) -> Result<(), WriteFault> {
    let command = send.row.command;
    let Some(may) = who_may(command) else {
        return Ok(());
    };
    let unit = unit_before_last(breach);
    let Some(held) = unit.registry().held() else {
        return put_unreserved(sheet, breach, send.host, may, told);
    };
    let Some(whom) = whom_it_lets(held, command, &unit, send.host) else {
        return Ok(());
    };
    sheet.say(
        b"Type {}",
        &[Token::Number(u64::from(kind_of(held).code()))],
    )?;
    if let Held::One(_, holder) = held {
        sheet.say(b" of {}", &[Token::Text(sheet.name_of(holder))])?;
    }
    sheet.put(whom)
}

// Who may send the command with success where nothing is reserved, if that hangs on the reservation.
fn who_may(command: Command) -> Option<&'static [u8]> {
    match command {
        Command::Read { .. } => Some(b"anybody may read"),
        Command::Write { .. } => Some(b"anybody may write"),
        Command::Reserve { .. } => Some(b"each registrant may reserve"),
        _ => None,
    }
}

// Whom the reservation lets read or write, of whom the nexus is one.
fn whom_it_lets(held: Held, command: Command, unit: &Unit, host: u8) -> Option<&'static [u8]> {
    let is_holder = is_met(Condition::Holder, unit, host);
    match command {
        Command::Read { .. } if is_holder => Some(b" lets its holder read.\n"),
        Command::Read { .. } if excludes_writes_alone(kind_of(held)) => {
            Some(b" lets anybody read.\n")
        }
        Command::Read { .. } => Some(b" lets each registrant read.\n"),
        Command::Write { .. } if is_holder => Some(b" lets its holder write.\n"),
        Command::Write { .. } => Some(b" lets each registrant write.\n"),
        _ => None,
    }
}

// Whether anybody may read under a reservation of this type.
fn excludes_writes_alone(kind: Kind) -> bool {
    match kind {
        Kind::WriteExclusive
        | Kind::WriteExclusiveRegistrantsOnly
        | Kind::WriteExclusiveAllRegistrants => true,
        Kind::ExclusiveAccess
        | Kind::ExclusiveAccessRegistrantsOnly
        | Kind::ExclusiveAccessAllRegistrants => false,
    }
}

// That nothing is reserved, and since when.
fn put_unreserved<W: Write>(
    sheet: &mut Sheet<'_, W>,
    breach: &Breach,
    host: u8,
    may: &[u8],
    told: Option<usize>,
) -> Result<(), WriteFault> {
    let condition = Condition::Reserved;
    let Some(loss) = loss_of(breach, host, condition) else {
        return sheet.say(b"Nothing is reserved then, so {}.\n", &[Token::Text(may)]);
    };
    if told != Some(loss.index) {
        put_loss(sheet, breach, host, condition, loss)?;
    }
    sheet.say(
        b"From command {} on nothing is reserved, and {}.\n",
        &[command_number(loss.index), Token::Text(may)],
    )
}

/// Writes by which command, and with which reply, the nexus was told what another did, if it was. Answers the line of that command.
pub(crate) fn put_told<W: Write>(
    sheet: &mut Sheet<'_, W>,
    breach: &Breach,
    senders: &[SentItem],
    host: u8,
    loss: Loss,
) -> Result<Option<u32>, WriteFault> {
    let Some((index, entry)) = told_behind(breach, host, loss.index) else {
        return Ok(None);
    };
    let Some(SentBy::Line(line)) = sent_by(senders, index) else {
        return Ok(None);
    };
    sheet.say(
        b"The reply to command {} told {} so: ",
        &[command_number(index), Token::Text(sheet.name_of(host))],
    )?;
    put_reply(&mut sheet.writer, &entry.wire, &entry.reply)?;
    sheet.put(b".\n")?;
    Ok(Some(line))
}
