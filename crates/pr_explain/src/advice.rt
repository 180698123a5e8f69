//! What to write where a scenario is refused.

use crate::blocks::{end_of, statements_in};
use crate::keys::is_keyless;
use crate::lint_words::index_of;
use crate::out_of_role::put_out_of_role_advice;
use crate::plan::Inquiry;
use crate::refused_send::RefusedSend;
use crate::sheet::{Sheet, key};
use pr_cdb::codes::{ILLEGAL_REQUEST, UNIT_ATTENTION};
use pr_cdb::{Command, Kind, Sense};
use pr_output::{Token, WriteFault};
use pr_script::Class;
use pr_script::limits::{MOST_ARMS, MOST_BUDGET, MOST_STATEMENTS};
use pr_verify::{Refusal, Row};
use pr_witness::Finding;
use std::io::Write;

/// Writes what would mend it.
pub(crate) fn put_advice<W: Write>(
    sheet: &mut Sheet<'_, W>,
    refusal: Refusal,
    inquiry: &Inquiry,
    send: Option<RefusedSend<'_>>,
) -> Result<(), WriteFault> {
    if let Refusal::OverBudget { host, cost } = refusal {
        return put_budget(sheet, sheet.name_of(host), cost);
    }
    match send {
        Some(send) => match send.unarmed {
            Some(class) => put_arms(sheet, inquiry, send, class),
            None => put_out_of_role_advice(sheet, inquiry, send),
        },
        None => Ok(()),
    }
}

// The arms that are missing, and where they go. Where the scenario is safe, they are never taken.
fn put_arms<W: Write>(
    sheet: &mut Sheet<'_, W>,
    inquiry: &Inquiry,
    send: RefusedSend<'_>,
    class: Class,
) -> Result<(), WriteFault> {
    let row = send.row;
    if row.tests.is_empty() {
        return sheet.put(
            b"\nA send without an arm says that it is never to be sent. If that is meant, something else has to
change: what leads here, in the script or in the roles of the others.\n",
        );
    }
    let wanted = arms_wanted(&row.unarmed);
    if row.tests.len().saturating_add(wanted) > MOST_ARMS {
        put_crowded(sheet, row)?;
    } else {
        sheet.put(match inquiry.finding {
            Finding::Safe { .. } => b"\nTo have it accepted, too, write".as_slice(),
            Finding::Found { .. } | Finding::Nothing { .. } => b"\nTo mend it, write",
        })?;
        sheet.say(
            b" behind line {}, with a word of your own or with what is to be done then:\n",
            &[Token::Number(end_of(sheet.lines, index_of(send.line)) as u64)],
        )?;
        put_missing(sheet, &row.unarmed)?;
        let statements = statements_in(sheet.lines, send.nexus.name.as_str().as_bytes());
        put_statements(sheet, statements.saturating_add(wanted))?;
    }
    put_cause(sheet, row, class)
}

// How many arms are missing.
fn arms_wanted(unarmed: &[Class]) -> usize {
    unarmed
        .iter()
        .enumerate()
        .filter(|(place, class)| needs_arm(unarmed, *place, class))
        .count()
}

// Whether the class at this place needs an arm of its own: one takes all unit attentions.
fn needs_arm(unarmed: &[Class], place: usize, class: &Class) -> bool {
    !is_attention(class) || unarmed.iter().position(is_attention) == Some(place)
}

fn is_attention(class: &Class) -> bool {
    matches!(class, Class::Sense(sense) if sense.key == UNIT_ATTENTION)
}

// The arms that are missing, where the send can't have so many.
fn put_crowded<W: Write>(sheet: &mut Sheet<'_, W>, row: &Row) -> Result<(), WriteFault> {
    sheet.put(b"\nThese arms are missing:\n")?;
    put_missing(sheet, &row.unarmed)?;
    sheet.say(
        b"The send has {} arms, and can't have more than {}: let one arm take several replies, as `on attention` takes each 6/../.., or `on good` each GOOD.\n",
        &[
            Token::Number(row.tests.len() as u64),
            Token::Number(MOST_ARMS as u64),
        ],
    )
}

// That the script can't have so many statements, where it can't.
fn put_statements<W: Write>(sheet: &mut Sheet<'_, W>, statements: usize) -> Result<(), WriteFault> {
    if statements <= MOST_STATEMENTS as usize {
        return Ok(());
    }
    sheet.say(
        b"With that the script has {} statements, and can't have more than {}: make it shorter first.\n",
        &[
            Token::Number(statements as u64),
            Token::Number(u64::from(MOST_STATEMENTS)),
        ],
    )
}

// The arms that are missing.
fn put_missing<W: Write>(sheet: &mut Sheet<'_, W>, unarmed: &[Class]) -> Result<(), WriteFault> {
    for (place, class) in unarmed.iter().enumerate() {
        if needs_arm(unarmed, place, class) {
            let waits_for = if is_attention(class) {
                Token::Text(b"attention")
            } else {
                Token::Class(*class)
            };
            sheet.say(b"  on {}\n    stop gives-up\n", &[waits_for])?;
        }
    }
    Ok(())
}

// Where such a reply comes from.
fn put_cause<W: Write>(
    sheet: &mut Sheet<'_, W>,
    row: &Row,
    class: Class,
) -> Result<(), WriteFault> {
    sheet.put(match class {
        Class::Sense(
            Sense {
                key: ILLEGAL_REQUEST,
                ..
            },
        ) =>
            b"A sense 5/.. is a fault of the command itself: 5/26/04 is a RELEASE of another type than the one
that is held, 5/26/00 a PREEMPT of the key 0 where not all registrants hold.\n"
                .as_slice(),
        Class::Conflict if is_keyless(&row.command) =>
            b"Its reservation key is 0 (--param-rk), with which nobody is registered: it never ends GOOD.\n",
        _ =>
            b"If such a reply seems impossible, look at the roles of the others: one of them may permit more
than you think.\n",
    })
}

// The budget that would do.
fn put_budget<W: Write>(
    sheet: &mut Sheet<'_, W>,
    host: &[u8],
    cost: u64,
) -> Result<(), WriteFault> {
    if cost > u64::from(MOST_BUDGET) {
        return sheet.put(
            b"\nNo budget above 4096 can be written. To mend it, let a repeat run less often, or do what stands
in its most expensive arm behind it.\n",
        );
    }
    sheet.say(
        b"\nTo mend it, let a repeat run less often, do what stands in its most expensive arm behind it,
or write:\n  script {} budget {}\n",
        &[Token::Text(host), Token::Number(cost)],
    )
}

/// Writes the action of a clause that names the command, after a space.
pub(crate) fn put_action<W: Write>(
    sheet: &mut Sheet<'_, W>,
    command: &Command,
) -> Result<(), WriteFault> {
    match *command {
        Command::Register { sark: 0, .. } | Command::RegisterIgnore { sark: 0 } => {
            sheet.put(b" unregister")
        }
        Command::Register { sark, .. } | Command::RegisterIgnore { sark } => {
            sheet.say(b" register {}", &[key(sark)])
        }
        Command::Reserve { kind, .. } => sheet.say(b" reserve {}", &[type_word(kind)]),
        Command::Release { .. } => sheet.put(b" release"),
        Command::Clear { .. } => sheet.put(b" clear"),
        Command::Preempt { sark, kind, .. } | Command::PreemptAbort { sark, kind, .. } => {
            sheet.say(b" preempt {}", &[key(sark)])?;
            match kind {
                Some(kind) => sheet.say(b" {}", &[type_word(kind)]),
                None => Ok(()),
            }
        }
        Command::Read { .. } => sheet.put(b" read"),
        Command::Write { .. } => sheet.put(b" write"),
        Command::TestUnitReady
        | Command::RequestSense
        | Command::ReadKeys { .. }
        | Command::ReadReservation { .. }
        | Command::ReportCapabilities { .. } => Ok(()),
    }
}

fn type_word(kind: Kind) -> Token<'static> {
    Token::Number(u64::from(kind.code()))
}
