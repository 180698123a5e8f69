//! What is said of a scenario that is accepted.

use crate::blocks::{OpenSends, sends_in_arm};
use crate::costing::Cost;
use crate::lint::Lint;
use crate::lint_words::{half_armed, is_meant, is_of_arm, is_spare, put_lint};
use crate::plan::AcceptedPlan;
use crate::sheet::Sheet;
use crate::source::first_word;
use pr_output::{Token, WriteFault};
use pr_roles::Parts;
use pr_words::saying::line_number;
use std::io::Write;

/// What `accepted` says, and what it rests on.
const MEANING: &[u8] = b"accepted

From every start that the scenario declares, and whatever order its commands come in:
  no script meets a reply for which it has no arm,
  no script sends more commands than its budget,
  and each command of a script that ends GOOD is one that its role permits at that moment.
So it is where the disk does as docs/MODEL.md says, guests keep their roles, commands reach the disk
one at a time, and BUSY, TASK SET FULL and resets come no more often than the scenario says. It
holds also where somebody else on a host's path takes unit attentions away: that is proved. It does
not say that a script comes to its end, or that somebody gets the reservation, or is fenced.

";

pub(crate) fn put_accepted<W: Write>(
    sheet: &mut Sheet<'_, W>,
    accepted: &AcceptedPlan,
) -> Result<(), WriteFault> {
    sheet.put(MEANING)?;
    for (nexus, cost) in sheet.nexuses.iter().zip(&accepted.costs) {
        if let Some(cost) = cost {
            put_cost(sheet, nexus.name.as_str().as_bytes(), *cost)?;
        }
    }
    Ok(())
}

fn put_cost<W: Write>(sheet: &mut Sheet<'_, W>, host: &[u8], cost: Cost) -> Result<(), WriteFault> {
    sheet.say(
        b"The script of {} sends at most {}{} {}.\n",
        &[
            Token::Text(host),
            Token::Number(cost.cost),
            Token::Text(if cost.cost == 1 {
                b" command; its budget is".as_slice()
            } else {
                b" commands; its budget is"
            }),
            Token::Number(u64::from(cost.budget)),
        ],
    )
}

/// Writes what is worth a look, and above it the arms that only another disk may want.
pub(crate) fn put_lints<W: Write>(
    sheet: &mut Sheet<'_, W>,
    parts: &Parts,
    lints: &[Lint],
) -> Result<(), WriteFault> {
    put_spare_arms(sheet, lints)?;
    put_half_armed(sheet, lints)?;
    let mut is_first = true;
    for (place, lint) in lints.iter().enumerate() {
        if is_meant(sheet.lines, *lint)
            || is_spare(sheet.lines, *lint)
            || half_armed(*lint).is_some()
        {
            continue;
        }
        if is_first {
            sheet.put(b"\nWorth a look, though it changes no verdict:\n")?;
            is_first = false;
        }
        put_lint(sheet, parts, lints, place)?;
    }
    Ok(())
}

// The arms that no reply takes and in which nothing is sent, all in one sentence.
fn put_spare_arms<W: Write>(sheet: &mut Sheet<'_, W>, lints: &[Lint]) -> Result<(), WriteFault> {
    let lines = sheet.lines;
    let (before, behind): (&[u8], &[u8]) = match lints
        .iter()
        .filter(|lint| is_spare(lines, **lint))
        .count()
    {
        0 => return Ok(()),
        1 => (
            b"\nThe arm on line",
            b" is never taken on this disk; another disk may want it (docs/TARGETS.md).\n",
        ),
        _ => (
            b"\nArms on lines",
            b" are never taken on this disk; another disk may want them (docs/TARGETS.md).\n",
        ),
    };
    sheet.put(before)?;
    put_lines_of_arms(sheet, lints)?;
    sheet.put(behind)
}

// The sends that lack an arm which another disk may want, all in one sentence.
fn put_half_armed<W: Write>(sheet: &mut Sheet<'_, W>, lints: &[Lint]) -> Result<(), WriteFault> {
    let sends = || lints.iter().filter_map(|lint| half_armed(*lint));
    let (before, behind): (&[u8], &[u8]) = match sends().count() {
        0 => return Ok(()),
        1 => (b"\nThe send on line", b" has"),
        _ => (b"\nThe sends on lines", b" have"),
    };
    sheet.put(before)?;
    let mut comma = b"".as_slice();
    for send in sends() {
        sheet.say(b"{} {}", &[Token::Text(comma), line_number(send)])?;
        comma = b",";
    }
    sheet.put(behind)?;
    sheet.put(
        b" no arm for every conflict, or none for every attention. Here none comes; a disk that answers in another order would trap the script there (docs/TARGETS.md).\n",
    )
}

// The numbers of their lines, in order.
fn put_lines_of_arms<W: Write>(sheet: &mut Sheet<'_, W>, lints: &[Lint]) -> Result<(), WriteFault> {
    let lines = sheet.lines;
    let mut comma = b"".as_slice();
    let mut open = OpenSends::new();
    for (index, line) in lines.iter().enumerate() {
        if let Some((send, arm)) = open.go_past(index, first_word(line))
            && lints.iter().any(|lint| is_of_arm(*lint, send, arm))
            && !sends_in_arm(lines, index)
        {
            sheet.say(b"{} {}", &[Token::Text(comma), line_number(index)])?;
            comma = b",";
        }
    }
    Ok(())
}
