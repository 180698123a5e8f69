//! Why `fence check` can't see that a scenario is safe, in words.

use crate::circumstance::Circumstance;
use crate::possible::put_attentions;
use crate::refused_send::{RefusedSend, is_uncounted};
use crate::sheet::{Sheet, key};
use pr_output::{Token, WriteFault};
use pr_roles::{Nexus, Task};
use pr_script::Class;
use pr_words::{put_class, put_held};
use std::io::Write;

/// Writes why `fence check` can't see that it is safe.
pub(crate) fn put_unseen<W: Write>(
    sheet: &mut Sheet<'_, W>,
    send: Option<RefusedSend<'_>>,
    forgotten: Option<&[Circumstance]>,
) -> Result<(), WriteFault> {
    sheet.put(b"The checker can't see it: ")?;
    match send {
        Some(
            RefusedSend {
                unarmed: Some(class),
                ..
            },
        ) if is_uncounted(class) => {
            put_uncounted(sheet, class)?;
        }
        Some(send) => put_forgotten(sheet, send, forgotten)?,
        None => sheet.put(
            b"it adds up what the sends cost, and knows neither which arms are taken nor how often a repeat runs.",
        )?,
    }
    sheet.put(b" See 'Safe, and refused all the same' in docs/VERDICTS.md.\n")
}

// That it doesn't count how often the disk was busy.
fn put_uncounted<W: Write>(sheet: &mut Sheet<'_, W>, class: Class) -> Result<(), WriteFault> {
    sheet.put(
        b"it doesn't count how often the disk was busy, so it must assume that this command, too, may end in ",
    )?;
    put_class(&mut sheet.writer, class)?;
    sheet.put(b".")
}

// What never is so at this line, if that is known.
fn put_forgotten<W: Write>(
    sheet: &mut Sheet<'_, W>,
    send: RefusedSend<'_>,
    forgotten: Option<&[Circumstance]>,
) -> Result<(), WriteFault> {
    match forgotten {
        None => put_apart(sheet, send.line),
        Some([]) => put_no_send(sheet, send),
        Some([fact]) => put_never(sheet, send, *fact),
        Some(facts) => put_never_together(sheet, send, facts),
    }
}

// That a view has its lists apart.
fn put_apart<W: Write>(sheet: &mut Sheet<'_, W>, line: u32) -> Result<(), WriteFault> {
    sheet.say(
        b"it knows what may be so at line {}, each by itself, but not what comes together.",
        &[Token::Number(u64::from(line))],
    )
}

// That the host never comes to the line.
fn put_no_send<W: Write>(
    sheet: &mut Sheet<'_, W>,
    send: RefusedSend<'_>,
) -> Result<(), WriteFault> {
    put_unremembered(sheet, send.host)?;
    sheet.say(
        b" So it must assume that {} comes to line {}. It never does.",
        &[
            Token::Text(sheet.name_of(send.host)),
            Token::Number(u64::from(send.line)),
        ],
    )
}

// That this never is so at the line.
fn put_never<W: Write>(
    sheet: &mut Sheet<'_, W>,
    send: RefusedSend<'_>,
    fact: Circumstance,
) -> Result<(), WriteFault> {
    put_unremembered(sheet, send.host)?;
    sheet.say(
        b" So it must assume that this may be so at line {}:\n",
        &[Token::Number(u64::from(send.line))],
    )?;
    put_fact(sheet, send.host, fact)?;
    sheet.put(b"It never is so there.")
}

// That all this never is so at once at the line.
fn put_never_together<W: Write>(
    sheet: &mut Sheet<'_, W>,
    send: RefusedSend<'_>,
    facts: &[Circumstance],
) -> Result<(), WriteFault> {
    put_apart(sheet, send.line)?;
    sheet.put(b" So it must assume that all this may be so at once:\n")?;
    for fact in facts {
        put_fact(sheet, send.host, *fact)?;
    }
    sheet.put(b"Each of these comes up there, but never all at once.")
}

// What a view knows nothing of: what was before, and what other scripts send, where there are any.
fn put_unremembered<W: Write>(sheet: &mut Sheet<'_, W>, host: u8) -> Result<(), WriteFault> {
    sheet.put(b"it doesn't remember what was before")?;
    if has_other_script(sheet.nexuses, host) {
        sheet.put(b", and of the others it knows the roles, not the scripts")?;
    }
    sheet.put(b".")
}

fn has_other_script(nexuses: &[Nexus], host: u8) -> bool {
    nexuses.iter().enumerate().any(|(number, nexus)| number != usize::from(host)
        && matches!(nexus.task, Task::Scripted { .. }))
}

fn put_fact<W: Write>(
    sheet: &mut Sheet<'_, W>,
    host: u8,
    fact: Circumstance,
) -> Result<(), WriteFault> {
    sheet.put(b" ")?;
    match fact {
        Circumstance::Key { nexus, key: known } => {
            sheet.say(b" {}", &[Token::Text(sheet.name_of(nexus))])?;
            match known {
                Some(known) => sheet.say(b" has {}", &[key(known)])?,
                None => sheet.put(b" is not registered")?,
            }
        }
        Circumstance::Reserved(held) => {
            sheet.put(b" ")?;
            put_held(&mut sheet.writer, sheet.nexuses, held)?;
        }
        Circumstance::Pending(attentions) => {
            put_attentions(sheet, attentions)?;
            sheet.say(b" pending for {}", &[Token::Text(sheet.name_of(host))])?;
        }
    }
    sheet.put(b"\n")
}
