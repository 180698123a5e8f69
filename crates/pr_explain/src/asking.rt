//! What to ask of a scenario that is accepted, in words.

use crate::blocks::{end_around, end_of, repeat_around};
use crate::lint::Lint;
use crate::lint_words::index_of;
use crate::preempting::Taking;
use crate::sheet::Sheet;
use crate::source::{first_word, is};
use crate::ways::way_on;
use pr_lines::next_word;
use pr_output::{Token, WriteFault};
use pr_script::limits::MOST_OPEN;
use std::io::Write;

/// Writes how to ask whether another may still write, of each host that takes its key away, once the script of the host has stopped
/// with a word that it comes to behind that.
pub(crate) fn put_questions<W: Write>(
    sheet: &mut Sheet<'_, W>,
    lints: &[Lint],
    takings: &[Taking],
) -> Result<(), WriteFault> {
    let mut before = b"\n".as_slice();
    for taking in takings {
        let Some(word) = word_behind(sheet.lines, lints, *taking) else {
            continue;
        };
        sheet.put(before)?;
        put_question(sheet, *taking, word)?;
        before = b"";
    }
    Ok(())
}

fn put_question<W: Write>(
    sheet: &mut Sheet<'_, W>,
    taking: Taking,
    word: &[u8],
) -> Result<(), WriteFault> {
    let host = sheet.name_of(taking.host);
    let other = sheet.name_of(taking.other);
    sheet.say(
        b"To ask whether {} may still write once {} has stopped: fence never FILE",
        &[Token::Text(other), Token::Text(host)],
    )?;
    sheet.say(b" {}=", &[Token::Text(host)])?;
    sheet.say(b"{}", &[Token::Text(word)])?;
    sheet.say(b" {}:write\n", &[Token::Text(other)])
}

// Where a script goes on, or the word with which it stops there.
enum Onward<'a> {
    To(usize),
    Word(&'a [u8]),
    Nowhere,
}

// The word with which the script stops, where from the command on each that may end GOOD does.
fn word_behind<'a>(lines: &[&'a [u8]], lints: &[Lint], taking: Taking) -> Option<&'a [u8]> {
    let mut at = index_of(taking.line);
    let mut turned = 0;
    // (a repeat turns at most once more behind all that stand above its end)
    for _ in 0..lines.len().saturating_mul(MOST_OPEN as usize) {
        if let Some(repeat) = repeat_ended(lines, at)
            && at > turned
        {
            turned = at;
            at = repeat.saturating_add(1);
            continue;
        }
        match step_at(lines, lints, taking.key, at) {
            Onward::To(next) => at = next,
            Onward::Word(word) => return Some(word),
            Onward::Nowhere => return None,
        }
    }
    None
}

// The index of the line that begins the repeat which the line with this index ends, if it ends one.
fn repeat_ended(lines: &[&[u8]], at: usize) -> Option<usize> {
    let line = lines.get(at)?;
    if !is(first_word(line), "done") {
        return None;
    }
    repeat_around(lines, at).filter(|repeat| end_of(lines, *repeat) == at)
}

// A repeat whose end it comes to here is left.
fn step_at<'a>(lines: &[&'a [u8]], lints: &[Lint], key: u64, at: usize) -> Onward<'a> {
    let Some(line) = lines.get(at) else {
        return Onward::Nowhere;
    };
    match first_word(line) {
        b"send" => behind(way_on(lines, lints, key, at)),
        // (the arm above is at its end)
        b"on" => behind(Some(end_around(lines, at))),
        b"break" => behind(repeat_around(lines, at).map(|repeat| end_of(lines, repeat))),
        b"stop" => match second_word(line) {
            Some(word) => Onward::Word(word),
            None => Onward::Nowhere,
        },
        b"end" => Onward::Word(b"end"),
        _ => behind(Some(at)),
    }
}

fn behind<'a>(index: Option<usize>) -> Onward<'a> {
    match index {
        Some(index) => Onward::To(index.saturating_add(1)),
        None => Onward::Nowhere,
    }
}

fn second_word(line: &[u8]) -> Option<&[u8]> {
    let (_, rest) = next_word(line)?;
    let (word, _) = next_word(rest)?;
    Some(word)
}
