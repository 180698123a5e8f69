//! What is worth a look, in words.

use crate::blocks::{arm_of, is_denied, sends_in_arm};
use crate::lint::Lint;
use crate::running::changes;
use crate::sheet::{Sheet, key};
use crate::source::{dropped_line, line_with};
use pr_output::{Token, WriteFault};
use pr_registry::Held;
use pr_roles::Parts;
use pr_words::saying::line_number;
use std::io::Write;

/// Writes the lint at this place: the line that it is of, and below it what that says.
pub(crate) fn put_lint<W: Write>(
    sheet: &mut Sheet<'_, W>,
    parts: &Parts,
    lints: &[Lint],
    place: usize,
) -> Result<(), WriteFault> {
    let Some(lint) = lints.get(place) else {
        return Ok(());
    };
    match *lint {
        Lint::NeverSent { line } => {
            sheet.put_line(index_of(line))?;
            sheet.put(b"    is never sent: the script does not come to it.\n")
        }
        Lint::NeverTaken { line, arm } => {
            sheet.put_line(arm_of(sheet.lines, index_of(line), arm))?;
            sheet.put(
                b"    no reply takes this arm; what it sends counts for the budget all the same.\n",
            )
        }
        Lint::Covered { line, arm, above } => put_covered(sheet, index_of(line), arm, above),
        Lint::NotNeeded { host, clause } => {
            let is_last = !is_alike(parts, lints.get(place.saturating_add(1)), host, clause);
            let above = place.checked_sub(1).and_then(|above| lints.get(above));
            let are_several = is_alike(parts, above, host, clause);
            let owner = sheet.name_of(host);
            sheet.put_line_of(b"role", owner, clause)?;
            if is_last {
                put_unused(sheet, owner, are_several, widens(parts, host, clause))
            } else {
                Ok(())
            }
        }
        Lint::NotUsed { key } => put_not_used(sheet, key),
        Lint::Keyless { line } => {
            sheet.put_line(index_of(line))?;
            sheet.put(
                b"    has the reservation key 0 (--param-rk), with which nobody is registered: it never ends GOOD.\n",
            )
        }
        Lint::NeverGood { host, line, key } => put_never_good(sheet, host, index_of(line), key),
        // (that is said of all of them in one sentence)
        Lint::HalfArmed { .. } => Ok(()),
        Lint::NoSuchReservation { alternative } => put_no_reservation(sheet, parts, alternative),
        Lint::NoSuchStart { host } => put_no_start(sheet, host),
    }
}

// That a command never ends GOOD, and why, if that is its key.
fn put_never_good<W: Write>(
    sheet: &mut Sheet<'_, W>,
    host: u8,
    send: usize,
    named: Option<u64>,
) -> Result<(), WriteFault> {
    sheet.put_line(send)?;
    match named {
        Some(named) => sheet.say(
            b"    never ends GOOD, though it has an arm for that: {} does not have the key {} (--param-rk) here.\n",
            &[Token::Text(sheet.name_of(host)), key(named)],
        ),
        None => sheet.put(b"    never ends GOOD here, though it has an arm for that.\n"),
    }
}

// The index of the line of the arm, if it is that no reply takes one.
fn never_taken(lines: &[&[u8]], lint: Lint) -> Option<usize> {
    if let Lint::NeverTaken { line, arm } = lint {
        Some(arm_of(lines, index_of(line), arm))
    } else {
        None
    }
}

/// Whether it says of itself that it is never taken: an arm that begins with a send without arms.
pub(crate) fn is_meant(lines: &[&[u8]], lint: Lint) -> bool {
    never_taken(lines, lint).is_some_and(|arm| is_denied(lines, arm))
}

/// Whether it is of an arm that no reply takes and in which nothing is sent: that costs nothing, and another disk may want it.
pub(crate) fn is_spare(lines: &[&[u8]], lint: Lint) -> bool {
    never_taken(lines, lint).is_some_and(|arm| !sends_in_arm(lines, arm))
}

/// The index of the line of the send, if it is that this lacks an arm that only another disk may want.
pub(crate) fn half_armed(lint: Lint) -> Option<usize> {
    if let Lint::HalfArmed { line } = lint {
        Some(index_of(line))
    } else {
        None
    }
}

/// Whether it is that no reply takes the arm with this number of the send on the line with this index.
pub(crate) fn is_of_arm(lint: Lint, send: usize, number: usize) -> bool {
    matches!(lint, Lint::NeverTaken { line, arm } if index_of(line) == send && arm == number)
}

fn put_covered<W: Write>(
    sheet: &mut Sheet<'_, W>,
    send: usize,
    arm: usize,
    above: usize,
) -> Result<(), WriteFault> {
    sheet.put_line(arm_of(sheet.lines, send, arm))?;
    sheet.say(
        b"    the arm above, on line {}, takes all that this one waits for.\n",
        &[line_number(arm_of(sheet.lines, send, above))],
    )
}

// Whether the clause lets the host change what others meet.
fn widens(parts: &Parts, host: u8, clause: usize) -> bool {
    match parts.nexuses.get(usize::from(host)) {
        Some(nexus) => {
            parts.nexuses.len() > 1 && nexus.role.clauses.get(clause).is_some_and(changes)
        }
        None => false,
    }
}

// Whether the lint is of another clause of this host, of which the same is said as of this one.
fn is_alike(parts: &Parts, lint: Option<&Lint>, of: u8, as_this: usize) -> bool {
    match lint {
        Some(Lint::NotNeeded { host, clause }) => {
            *host == of && widens(parts, of, *clause) == widens(parts, of, as_this)
        }
        Some(_) | None => false,
    }
}

/// Writes that the script of this name makes no use of a clause, or of several, and whether the others have to bear that.
pub(crate) fn put_unused<W: Write>(
    sheet: &mut Sheet<'_, W>,
    owner: &[u8],
    are_several: bool,
    widens: bool,
) -> Result<(), WriteFault> {
    sheet.say(b"    {}", &[Token::Text(owner)])?;
    sheet.put(match (widens, are_several) {
        (false, false) =>
            b"'s script never sends this. The clause changes nothing for anybody, and can go.\n".as_slice(),
        (false, true) =>
            b"'s script never sends these. The clauses change nothing for anybody, and can go.\n",
        (true, false) => b"'s script never sends this. Delete the clause: the checker assumes that",
        (true, true) =>
            b"'s script never sends these. Delete the clauses: the checker assumes that",
    })?;
    if widens {
        sheet.say(b" {} may.\n", &[Token::Text(owner)])?;
    }
    Ok(())
}

fn put_not_used<W: Write>(sheet: &mut Sheet<'_, W>, unused: u64) -> Result<(), WriteFault> {
    if let Some(index) = line_with(sheet.lines, "keys") {
        sheet.put_line(index)?;
    }
    match dropped_line(sheet.lines, unused) {
        Some(index) => sheet.say(
            b"    the key {} stands only in an option that its command does not use, as on line {}.\n",
            &[key(unused), line_number(index)],
        ),
        None => sheet.say(
            b"    no start, role, script or plan names the key {}.\n",
            &[key(unused)],
        ),
    }
}

// That nobody may be registered at the start who holds by this alternative of the reservation.
fn put_no_reservation<W: Write>(
    sheet: &mut Sheet<'_, W>,
    parts: &Parts,
    alternative: usize,
) -> Result<(), WriteFault> {
    if let Some(index) = line_with(sheet.lines, "reservation") {
        sheet.put_line(index)?;
    }
    match parts.reservations.get(alternative) {
        Some(Some(Held::One(kind, host))) => {
            let holder = sheet.name_of(*host);
            sheet.say(
                b"    {} can't be: at the start {} is not registered.\n",
                &[Token::Holder(*kind, holder), Token::Text(holder)],
            )
        }
        Some(Some(Held::All(kind))) => sheet.say(
            b"    {} can't be: at the start nobody is registered.\n",
            &[Token::Number(u64::from(kind.code()))],
        ),
        Some(None) | None => Ok(()),
    }
}

// That the nexus is registered in each state from which the scenario starts.
fn put_no_start<W: Write>(sheet: &mut Sheet<'_, W>, host: u8) -> Result<(), WriteFault> {
    let owner = sheet.name_of(host);
    sheet.put_line_of(b"start", owner, 0)?;
    sheet.say(
        b"    `free` can't be: each reservation that there may be at the start needs a key of {}.\n",
        &[Token::Text(owner)],
    )
}

/// The index of the line with this number.
pub(crate) fn index_of(line: u32) -> usize {
    (line as usize).saturating_sub(1)
}
