//! What is said of a scenario that is refused.

use crate::advice::put_advice;
use crate::blocks::{depth_behind, end_of};
use crate::lint_words::index_of;
use crate::plan::{Inquiry, RefusedPlan};
use crate::possible::put_possible;
use crate::refused_send::RefusedSend;
use crate::running::put_finding;
use crate::sheet::Sheet;
use crate::source::{first_word, line_of};
use pr_output::{Token, WriteFault};
use pr_report::{Verdict, write_verdict};
use pr_verify::Refusal;
use pr_words::{put_class, put_command};
use std::io::Write;

pub(crate) fn put_refused<W: Write>(
    sheet: &mut Sheet<'_, W>,
    refused: &RefusedPlan,
) -> Result<(), WriteFault> {
    if refused.refusal == Refusal::Memory {
        return Ok(());
    }
    write_verdict(
        &mut sheet.writer,
        &refused.scenario,
        &Verdict::Refused(refused.refusal),
    )?;
    sheet.put(b"\n")?;
    put_reason(sheet, refused.refusal, send_of(refused))
}

/// Writes what a search came to, and what to change.
pub(crate) fn put_inquiry<W: Write>(
    sheet: &mut Sheet<'_, W>,
    refused: &RefusedPlan,
    inquiry: &Inquiry,
) -> Result<(), WriteFault> {
    if refused.refusal == Refusal::Memory {
        return Ok(());
    }
    let send = send_of(refused);
    put_finding(sheet, refused, inquiry, send)?;
    put_advice(sheet, refused.refusal, inquiry, send)
}

// The send for which it is refused, if it is for one.
fn send_of(refused: &RefusedPlan) -> Option<RefusedSend<'_>> {
    RefusedSend::of(&refused.scenario, refused.refusal, &refused.tables)
}

// Where it is refused, and what may be there.
fn put_reason<W: Write>(
    sheet: &mut Sheet<'_, W>,
    refusal: Refusal,
    send: Option<RefusedSend<'_>>,
) -> Result<(), WriteFault> {
    if let Refusal::OverBudget { host, cost } = refusal {
        return put_over_budget(sheet, sheet.name_of(host), cost);
    }
    let Some(send) = send else {
        return Ok(());
    };
    put_send(sheet, index_of(send.line))?;
    put_what_may_end(sheet, send)?;
    sheet.put(b"When it is sent, this may be so, each line by itself:\n")?;
    put_possible(sheet, send)
}

// The send that begins at this index, with its arms. Of sends and repeats in an arm only the first line is shown.
fn put_send<W: Write>(sheet: &mut Sheet<'_, W>, first: usize) -> Result<(), WriteFault> {
    let lines = sheet.lines;
    let last = end_of(lines, first);
    let mut depth = 0;
    let mut is_cut = false;
    for (index, line) in lines
        .iter()
        .enumerate()
        .take(last.saturating_add(1))
        .skip(first)
    {
        if depth < 2 {
            sheet.put_line(index)?;
            is_cut = false;
        } else if !is_cut {
            sheet.put(b"  ..\n")?;
            is_cut = true;
        }
        depth = depth_behind(depth, first_word(line));
    }
    sheet.put(b"\n")
}

// In what the command may end that no arm takes, or that it may end GOOD out of its sender's role.
fn put_what_may_end<W: Write>(
    sheet: &mut Sheet<'_, W>,
    send: RefusedSend<'_>,
) -> Result<(), WriteFault> {
    let host = Token::Text(send.nexus.name.as_str().as_bytes());
    match send.unarmed {
        Some(class) => {
            sheet.put(b"This command may end in ")?;
            put_class(&mut sheet.writer, class)?;
            sheet.say(
                b", and no arm takes that: {} would be trapped here.\n",
                &[host],
            )
        }
        None => {
            put_command(&mut sheet.writer, &send.row.command)?;
            sheet.say(
                b" may end GOOD where the role of {} does not permit it.\n",
                &[host],
            )
        }
    }
}

fn put_over_budget<W: Write>(
    sheet: &mut Sheet<'_, W>,
    host: &[u8],
    cost: u64,
) -> Result<(), WriteFault> {
    if let Some(index) = line_of(sheet.lines, b"script", host, 0) {
        sheet.put_line(index)?;
        sheet.put(b"\n")?;
    }
    sheet.say(
        b"The script of {} costs {}, which is more than its budget. A send costs 1 and its most
expensive arm, a repeat its body as often as it may run, `break` and `stop` nothing. So it sends no
more than its cost, but it may never come to it: a repeat counts its most expensive turn each time,
also where that turn ends the script.\n",
        &[Token::Text(host), Token::Number(cost)],
    )
}
