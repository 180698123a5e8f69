//! What to change where a command is out of its sender's role.

use crate::advice::put_action;
use crate::cause::{asked_of, loss_in, put_cause, put_told};
use crate::losses::{Loss, command_at};
use crate::plan::Inquiry;
use crate::refused_send::RefusedSend;
use crate::senders::{SentBy, SentItem, sent_by};
use crate::sheet::{Sheet, key};
use pr_output::{Token, WriteFault};
use pr_roles::limits::MOST_CLAUSES;
use pr_roles::{Action, Condition, Nexus, names};
use pr_witness::{Breach, Broken, Finding};
use std::io::Write;

/// Writes what the role asks for, what in the run took that away, what to change in the script, and last the wider role. Where the
/// scenario is safe, the command is never out of its role, and a wider one would permit what is not meant: so nothing is to be
/// changed.
pub(crate) fn put_out_of_role_advice<W: Write>(
    sheet: &mut Sheet<'_, W>,
    inquiry: &Inquiry,
    send: RefusedSend<'_>,
) -> Result<(), WriteFault> {
    put_asked(sheet, send)?;
    if let Finding::Safe { .. } = inquiry.finding {
        return sheet.put(if asked_of(send).is_some() {
            b"It holds whenever this command ends GOOD, so nothing is won by a wider role.\n".as_slice()
        } else {
            b"But it never ends GOOD, so nothing is won by a wider role.\n"
        });
    }
    match breach_in(&inquiry.finding, send) {
        Some(breach) => {
            put_cause(sheet, breach, send)?;
            put_mended_run(sheet, breach, &inquiry.senders, send)?;
        }
        None => put_mended_script(sheet, send)?,
    }
    put_wider(sheet, send)
}

// The run that shows just this, if there is one.
fn breach_in<'a>(finding: &'a Finding, send: RefusedSend<'_>) -> Option<&'a Breach> {
    let shown = Broken::OutOfRole {
        host: send.host,
        line: send.line,
    };
    match finding {
        Finding::Found { breach, .. } if breach.broken == shown => Some(breach),
        Finding::Found { .. } | Finding::Safe { .. } | Finding::Nothing { .. } => None,
    }
}

// The clauses that permit the command under a condition, or that there is none.
fn put_asked<W: Write>(sheet: &mut Sheet<'_, W>, send: RefusedSend<'_>) -> Result<(), WriteFault> {
    let owner = send.nexus.name.as_str().as_bytes();
    sheet.say(
        b"\nThe role of {}{}",
        &[
            Token::Text(owner),
            Token::Text(if asked_of(send).is_some() {
                b" permits this command only where a condition holds:\n".as_slice()
            } else {
                b" has no clause that names this command.\n"
            }),
        ],
    )?;
    for (number, clause) in send.nexus.role.clauses.iter().enumerate() {
        if names(clause.action, send.row.command) {
            sheet.put_line_of(b"role", owner, number)?;
        }
    }
    Ok(())
}

// What to change in the script, by the run.
fn put_mended_run<W: Write>(
    sheet: &mut Sheet<'_, W>,
    breach: &Breach,
    senders: &[SentItem],
    send: RefusedSend<'_>,
) -> Result<(), WriteFault> {
    let Some(loss) = loss_in(breach, send) else {
        return put_mended_script(sheet, send);
    };
    if let Some(own) = own_line(breach, senders, send.host, loss) {
        return put_own(sheet, send.nexus, own);
    }
    match put_told(sheet, breach, senders, send.host, loss)? {
        Some(told) => put_after(sheet, send, told),
        None => put_mended_script(sheet, send),
    }
}

// The line of the script by which the nexus itself gave up what its role asks for, if it did.
fn own_line(breach: &Breach, senders: &[SentItem], host: u8, loss: Loss) -> Option<u32> {
    let (sender, _) = command_at(&breach.run.history, loss.index)?;
    match sent_by(senders, loss.index) {
        Some(SentBy::Line(line)) if sender == host => Some(line),
        Some(SentBy::Line(_) | SentBy::Clause(_) | SentBy::Nothing) | None => None,
    }
}

fn put_own<W: Write>(sheet: &mut Sheet<'_, W>, nexus: &Nexus, own: u32) -> Result<(), WriteFault> {
    sheet.say(
        b"\nTo mend it, let the script send this before line {}, or not at all: there {} gives up what its role asks for.\n",
        &[
            Token::Number(u64::from(own)),
            Token::Text(nexus.name.as_str().as_bytes()),
        ],
    )
}

// What to do once the script was told.
fn put_after<W: Write>(
    sheet: &mut Sheet<'_, W>,
    send: RefusedSend<'_>,
    told: u32,
) -> Result<(), WriteFault> {
    sheet.say(
        b"\nTo mend it, change what the script does after that reply on line {}: stop in the arm that takes it, or ask there{} before it goes on to line {}.\n",
        &[
            Token::Number(u64::from(told)),
            Token::Text(question(asked_of(send))),
            Token::Number(u64::from(send.line)),
        ],
    )
}

// What to change in the script where no run says more.
fn put_mended_script<W: Write>(
    sheet: &mut Sheet<'_, W>,
    send: RefusedSend<'_>,
) -> Result<(), WriteFault> {
    let Some(condition) = asked_of(send) else {
        return sheet.put(
            b"\nTo mend it, take the send out of the script, or mend its key or its type. Where it is there to see
whether it fails, ask instead: --in --read-keys and --in --read-reservation need no clause.\n",
        );
    };
    sheet.say(
        b"\nTo mend it, ask before line {}{}, and send this only in an arm {} {}`. Where another may take that away in between, it is refused all the same.\n",
        &[
            Token::Number(u64::from(send.line)),
            Token::Text(question(Some(condition))),
            Token::Text(arm_word(condition)),
            own_key(send.nexus, condition),
        ],
    )
}

// What to ask.
fn question(condition: Option<Condition>) -> &'static [u8] {
    match condition {
        Some(Condition::Registered) | None => b" for the keys (--in --read-keys)",
        Some(Condition::Holder) => b" who holds the reservation (--in --read-reservation)",
        Some(Condition::Reserved) => b" for the reservation (--in --read-reservation)",
    }
}

// The arm of what is asked, up to the key.
fn arm_word(condition: Condition) -> &'static [u8] {
    match condition {
        Condition::Registered => b"`on good has",
        Condition::Holder | Condition::Reserved => b"`on good held",
    }
}

// The key that the arm looks for: of what is the nexus's own the first that its role or its start names.
fn own_key(nexus: &Nexus, condition: Condition) -> Token<'static> {
    let registered = nexus
        .role
        .clauses
        .iter()
        .find_map(|clause| registered_by(clause.action));
    match registered.or_else(|| nexus.start.alternatives.iter().find_map(|key| *key)) {
        Some(own) if condition != Condition::Reserved => key(own),
        Some(_) | None => Token::Text(b"KEY"),
    }
}

fn registered_by(action: Action) -> Option<u64> {
    if let Action::Register(key) = action {
        Some(key)
    } else {
        None
    }
}

// The clause that would permit the command, and what it means. A role of so many clauses can't have one more.
fn put_wider<W: Write>(sheet: &mut Sheet<'_, W>, send: RefusedSend<'_>) -> Result<(), WriteFault> {
    let count = send.nexus.role.clauses.len();
    if count < MOST_CLAUSES {
        sheet.put(b"Or let the role be wider, by this clause:\n")?;
        put_clause(sheet, send)?;
    } else {
        sheet.say(
            b"Or let the role be wider. It has {} clauses, and can't have more: ",
            &[Token::Number(count as u64)],
        )?;
        if asked_of(send).is_some() {
            sheet.put(b"take the condition out of the one above.\n")?;
        } else {
            sheet.put(b"put this one in place of another:\n")?;
            put_clause(sheet, send)?;
        }
    }
    sheet.put(b"That declares this command harmless there. Do it only if it is.\n")
}

// The line of a clause that permits the command.
fn put_clause<W: Write>(sheet: &mut Sheet<'_, W>, send: RefusedSend<'_>) -> Result<(), WriteFault> {
    sheet.say(
        b"  role {}",
        &[Token::Text(send.nexus.name.as_str().as_bytes())],
    )?;
    put_action(sheet, &send.row.command)?;
    sheet.put(b"\n")
}
