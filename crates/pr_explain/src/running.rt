//! The run that shows why a scenario is refused, in words, or that none was found.

use crate::lint_words::put_unused;
use crate::linting::is_needed;
use crate::plan::{Inquiry, RefusedPlan};
use crate::refused_send::{RefusedSend, table_of};
use crate::senders::{SentBy, SentItem, sent_by};
use crate::sheet::{Sheet, command_number};
use crate::source::{line_of, line_with};
use crate::together::{Alone, put_order, who_is_alone};
use crate::unseen::put_unseen;
use pr_audit::End;
use pr_output::{Token, WriteFault};
use pr_roles::{Action, Clause, Item, Nexus};
use pr_verify::Table;
use pr_witness::{Bound, Breach, Broken, Finding, USUAL_BOUNDS};
use pr_words::{put_item, put_over, put_start};
use std::io::Write;

/// Writes a run that shows why it is refused, or that none was found.
pub(crate) fn put_finding<W: Write>(
    sheet: &mut Sheet<'_, W>,
    refused: &RefusedPlan,
    inquiry: &Inquiry,
    send: Option<RefusedSend<'_>>,
) -> Result<(), WriteFault> {
    match &inquiry.finding {
        Finding::Found { breach, is_told } if *is_told || reaches_unarmed(breach.broken, send) => {
            sheet.put(b"\nIt comes to that, from this start:\n")?;
            put_run(sheet, breach, &inquiry.senders)
        }
        Finding::Found { breach, .. } => {
            sheet.put(
                b"\nNo run was found that shows just this, but from this start something else goes wrong:\n",
            )?;
            put_run(sheet, breach, &inquiry.senders)?;
            sheet.put(
                b"Mend this first: with these scripts and roles it does happen. What follows is for what `fence check`
tells now.\n",
            )
        }
        Finding::Safe { worlds } => {
            match inquiry.safe_in {
                // (that has been said before all else)
                Some(_) => sheet.put(b"\n")?,
                None => put_safe(sheet, *worlds)?,
            }
            put_unseen(sheet, send, inquiry.forgotten.as_deref())?;
            put_others(sheet, send, &refused.tables)
        }
        Finding::Nothing { worlds, bound } => {
            put_nothing(sheet, *worlds, *bound)?;
            put_others(sheet, send, &refused.tables)
        }
    }
}

// Whether the run comes to the send that the verdict tells, and that has no arm, so that it is never to be sent.
fn reaches_unarmed(broken: Broken, send: Option<RefusedSend<'_>>) -> bool {
    match (broken, send) {
        (Broken::NoArm { host, line }, Some(told)) => {
            host == told.host
                && line == told.line
                && told.unarmed.is_some()
                && told.row.tests.is_empty()
        }
        (Broken::NoArm { .. } | Broken::OutOfRole { .. } | Broken::OverBudget { .. }, _) => false,
    }
}

// What it rests on that a scenario is safe, where each host is alone on its path.
const UNSEEN_WHERE_SAFE: &[u8] =
    b"It rests on what `accepted` rests on, and on this besides: nothing but a script looks at the disk by its path. On Linux multipathd and the kernel do, and take unit attentions away (docs/VERDICTS.md).\n";

// And where some hosts are.
const UNSEEN_OF_SOME_WHERE_SAFE: &[u8] =
    b"It rests on what `accepted` rests on, and on this besides: nothing but its script looks at the disk by the path of a host that is said to be alone.\n";

/// Writes that it can be left so, which a search saw in so many worlds.
pub(crate) fn put_relief<W: Write>(
    sheet: &mut Sheet<'_, W>,
    worlds: usize,
) -> Result<(), WriteFault> {
    sheet.say(
        b"You can leave it so: `fence check --search` accepts this. All {} states of disk and scripts that can come up were looked at, and nothing goes wrong in any of them, also where somebody else looks at the disk by the hosts' paths and where the disk reports an attention before it looks at the reservation. That is proved, but for their number.\n",
        &[Token::Number(worlds as u64)],
    )?;
    sheet.put(b"Without `--search` it is refused, for the reason that follows.\n\n")
}

// That nothing goes wrong with these scripts and roles, what that rests on, and how CI lets it through.
fn put_safe<W: Write>(sheet: &mut Sheet<'_, W>, worlds: usize) -> Result<(), WriteFault> {
    sheet.say(
        b"\nYou can leave it so: this is safe all the same. All {} states of disk and scripts that can come up were looked at, and nothing goes wrong in any of them. That is proved, but for their number.\n",
        &[Token::Number(worlds as u64)],
    )?;
    sheet.put(match who_is_alone(sheet.nexuses) {
        Alone::Each => UNSEEN_WHERE_SAFE,
        Alone::Some => UNSEEN_OF_SOME_WHERE_SAFE,
        Alone::Nobody => b"It rests on what `accepted` rests on.\n",
    })?;
    put_order(sheet)?;
    sheet.put(
        b"In CI call `fence witness FILE` in place of `fence check FILE`: its status is 0 where the scenario is accepted, and where it is safe.\n",
    )
}

// What the search looked at, and what helps where a bound ended it.
fn put_nothing<W: Write>(
    sheet: &mut Sheet<'_, W>,
    worlds: usize,
    bound: Option<Bound>,
) -> Result<(), WriteFault> {
    sheet.say(
        b"\nNo run that shows it was found among {} states of disk and scripts.\n",
        &[Token::Number(worlds as u64)],
    )?;
    let Some(bound) = bound else {
        return Ok(());
    };
    put_bound(sheet, bound)?;
    put_help(sheet, bound)
}

// Which bound ended the search.
fn put_bound<W: Write>(sheet: &mut Sheet<'_, W>, bound: Bound) -> Result<(), WriteFault> {
    match bound {
        Bound::Worlds => sheet.put(b"The search looks at no more, and another may show it.\n"),
        Bound::Depth => sheet.say(
            b"The search follows no run beyond {} steps.\n",
            &[Token::Number(u64::from(USUAL_BOUNDS.depth))],
        ),
        Bound::Memory => {
            sheet.put(b"The search has no memory for more, and another may show it.\n")
        }
    }
}

// What lets a search come to its end. That a run is too long hangs on no guest.
fn put_help<W: Write>(sheet: &mut Sheet<'_, W>, bound: Bound) -> Result<(), WriteFault> {
    if line_with(sheet.lines, "repeat").is_some() {
        return sheet.put(
            b"To see more, give the repeats of a copy smaller counts, and explain that.\n",
        );
    }
    if bound == Bound::Depth {
        return Ok(());
    }
    if line_with(sheet.lines, "guest").is_some() {
        return sheet.put(
            b"To see more, give a copy fewer guests, their roles fewer clauses, or its lines start, pending and reservation fewer alternatives, and explain that.\n",
        );
    }
    sheet.put(
        b"To see more, give the lines start, pending and reservation of a copy fewer alternatives, and explain that.\n",
    )
}

// What the others may do at the disk at any time, by their roles, where a send is refused.
fn put_others<W: Write>(
    sheet: &mut Sheet<'_, W>,
    send: Option<RefusedSend<'_>>,
    tables: &[Table],
) -> Result<(), WriteFault> {
    let Some(send) = send else {
        return Ok(());
    };
    let mut is_first = true;
    for (host, nexus) in (0..u8::MAX).zip(sheet.nexuses) {
        if host == send.host || !nexus.role.clauses.iter().any(changes) {
            continue;
        }
        if is_first {
            sheet.put(b"What the others may do at any time, by their roles:\n")?;
            is_first = false;
        }
        put_changes(sheet, nexus, table_of(tables, host))?;
    }
    Ok(())
}

// The clauses by which the nexus may change what the disk has, and of which of them its script makes no use.
fn put_changes<W: Write>(
    sheet: &mut Sheet<'_, W>,
    nexus: &Nexus,
    table: Option<&Table>,
) -> Result<(), WriteFault> {
    let owner = nexus.name.as_str().as_bytes();
    for (number, clause) in nexus.role.clauses.iter().enumerate() {
        if !changes(clause) {
            continue;
        }
        sheet.put_line_of(b"role", owner, number)?;
        if let Some(table) = table
            && !is_needed(&table.rows, clause.action)
        {
            put_unused(sheet, owner, false, true)?;
        }
    }
    Ok(())
}

/// Whether the clause lets its owner change what the disk has.
pub(crate) fn changes(clause: &Clause) -> bool {
    clause.action != Action::Read && clause.action != Action::Write
}

/// Of a longer run only so many commands at its beginning and at its end are shown: nobody reads more.
const MOST_SHOWN: usize = 32;

// Writes the run: where it starts, each command with the line of the script that sends it, and what is broken then.
fn put_run<W: Write>(
    sheet: &mut Sheet<'_, W>,
    breach: &Breach,
    senders: &[SentItem],
) -> Result<(), WriteFault> {
    put_start(&mut sheet.writer, sheet.nexuses, &breach.run.start)?;
    let count = breach.run.history.len();
    for (place, item) in breach.run.history.iter().enumerate() {
        let behind = count.saturating_sub(place);
        if place >= MOST_SHOWN && behind > MOST_SHOWN {
            if place == MOST_SHOWN {
                put_left_out(sheet, behind.saturating_sub(MOST_SHOWN))?;
            }
            continue;
        }
        put_sent(sheet, senders, place, item)?;
        if behind == 1 {
            put_broken(sheet, breach.broken)?;
        }
        put_end_with(sheet, breach.broken, senders, place, item)?;
    }
    put_permissions(sheet, &breach.run.history, senders)
}

// Writes an item of the run.
fn put_sent<W: Write>(
    sheet: &mut Sheet<'_, W>,
    senders: &[SentItem],
    place: usize,
    item: &Item,
) -> Result<(), WriteFault> {
    let line = match sent_by(senders, place) {
        Some(SentBy::Line(line)) => Some(line),
        Some(SentBy::Clause(_) | SentBy::Nothing) | None => None,
    };
    let number = (place as u64).saturating_add(1);
    put_item(&mut sheet.writer, sheet.nexuses, number, item, line)
}

// Writes that the script of its sender is over with this item, if it is, and not that as what is broken.
fn put_end_with<W: Write>(
    sheet: &mut Sheet<'_, W>,
    broken: Broken,
    senders: &[SentItem],
    place: usize,
    item: &Item,
) -> Result<(), WriteFault> {
    let Item::Sent(entry) = item else {
        return Ok(());
    };
    let Some(end) = senders.get(place).and_then(|sending| sending.end) else {
        return Ok(());
    };
    if shows(broken, entry.host, &end) {
        return Ok(());
    }
    let name = sheet.name_of(entry.host);
    put_over(&mut sheet.writer, name, end)
}

// Whether it is broken that the script of this host is over so.
fn shows(broken: Broken, of: u8, end: &End) -> bool {
    match (broken, end) {
        (Broken::NoArm { host, line }, End::Trapped(at)) => host == of && line == *at,
        (Broken::NoArm { .. } | Broken::OutOfRole { .. } | Broken::OverBudget { .. }, _) => false,
    }
}

// That so many commands of the run come here that are not shown.
fn put_left_out<W: Write>(sheet: &mut Sheet<'_, W>, count: usize) -> Result<(), WriteFault> {
    sheet.say(
        b".. (here come {} more, which `fence witness` writes)\n",
        &[Token::Number(count as u64)],
    )
}

// What the last of the commands breaks.
fn put_broken<W: Write>(sheet: &mut Sheet<'_, W>, broken: Broken) -> Result<(), WriteFault> {
    match broken {
        Broken::NoArm { host, line } => sheet.say(
            b"Now {} is trapped at line {}: no arm takes this reply.\n",
            &[
                Token::Text(sheet.name_of(host)),
                Token::Number(u64::from(line)),
            ],
        ),
        Broken::OutOfRole { host, .. } => sheet.say(
            b"This ended GOOD, and the role of {} does not permit it now.\n",
            &[Token::Text(sheet.name_of(host))],
        ),
        Broken::OverBudget { host } => sheet.say(
            b"With this {} has sent more commands than its budget.\n",
            &[Token::Text(sheet.name_of(host))],
        ),
    }
}

// The clauses of guests' roles that permit what they did in the run.
fn put_permissions<W: Write>(
    sheet: &mut Sheet<'_, W>,
    history: &[Item],
    senders: &[SentItem],
) -> Result<(), WriteFault> {
    for (place, (item, sending)) in history.iter().zip(senders).enumerate() {
        let (Item::Sent(entry), SentBy::Clause(clause)) = (item, sending.by) else {
            continue;
        };
        let guest = sheet.name_of(entry.host);
        if let Some(index) = line_of(sheet.lines, b"role", guest, clause) {
            sheet.say(
                b"Command {} is one that the role of {} permits:\n",
                &[command_number(place), Token::Text(guest)],
            )?;
            sheet.put_line(index)?;
        }
    }
    Ok(())
}
