//! What stands behind the end of a line: another line, or a second reply or condition.

use crate::shapes::{Within, has_room, stands};
use crate::terms::is_one;
use crate::told::Told;
use crate::words::{Placed, word_at};
use pr_lines::{Keyword, Wanted, keyword_of};
use pr_output::{WriteFault, put};
use std::io::Write;

const OWN_LINE: &[u8] = b"This has a line of its own:\n";

const SEND: &[u8] = b"A command stands behind send:\n";

const EACH_ARM: &[u8] =
    b"An arm is for one reply, or asks for one key, and each has a line of its own:\n";

const EACH_CONDITION: &[u8] = b"A clause has one condition, and each has a line of its own:\n";

/// Tells what was meant by the word at this place, where the line could end in front of it; and whether that is known.
pub fn tell_behind<W: Write>(
    writer: &mut W,
    told: &Told<'_>,
    place: usize,
    word: Placed<'_>,
    wanted: Wanted,
) -> Result<bool, WriteFault> {
    match wanted {
        Wanted::Arm => tell_marked_reply(writer, told, place, word),
        Wanted::End | Wanted::Good | Wanted::If if is_line(told, place) => {
            put(writer, OWN_LINE)?;
            told.put_up_to(writer, word.first)?;
            told.put_from(writer, b"", word.first)?;
            Ok(true)
        }
        Wanted::End if is_unsent(told, place, word) => {
            told.put_meant(writer, SEND, told.span(0, word.first), b"send ")?;
            Ok(true)
        }
        Wanted::End | Wanted::Good => tell_alternative(writer, told, place, word),
        _ => Ok(false),
    }
}

// Whether the first letter of `send` is missing in front of a command.
fn is_unsent(told: &Told<'_>, place: usize, word: Placed<'_>) -> bool {
    let is_command = word.text.starts_with(b"--")
        || matches!(
            word.text,
            b"read" | b"write" | b"test-unit-ready" | b"request-sense"
        );
    place == 1 && word_at(&told.words, 0) == b"end".as_slice() && is_command
}

// Whether the words from this place on are a line that may stand below this one.
fn is_line(told: &Told<'_>, place: usize) -> bool {
    let Some(keyword) = keyword_of(word_at(&told.words, place)) else {
        return false;
    };
    let behind = told.words.len().saturating_sub(place).saturating_sub(1);
    has_room(keyword, behind) && stands_below(keyword, keyword_of(word_at(&told.words, 0)))
}

// Whether a line that begins so may stand where one with the other word does. A command of a plan has none.
fn stands_below(keyword: Keyword, first: Option<Keyword>) -> bool {
    match first {
        Some(first) if stands(first, Within::Script) => stands(keyword, Within::Script),
        Some(first) => stands(first, Within::Nothing) && stands(keyword, Within::Nothing),
        None => stands(keyword, Within::Plan),
    }
}

// A reply with a mark behind it, and then a line of its own or another reply.
fn tell_marked_reply<W: Write>(
    writer: &mut W,
    told: &Told<'_>,
    place: usize,
    word: Placed<'_>,
) -> Result<bool, WriteFault> {
    let next = place.saturating_add(1);
    let Some(other) = told.words.get(next) else {
        return Ok(false);
    };
    let reply = word.front(word.text.len().saturating_sub(1));
    if !is_one(reply.text, Wanted::Arm) || !matches!(word.text, [.., b',' | b':' | b';']) {
        return Ok(false);
    }
    let (sentence, front): (&[u8], &[u8]) = if is_line(told, next) {
        (OWN_LINE, b"")
    } else if is_one(other.text, Wanted::Arm) {
        (EACH_ARM, b"on ")
    } else {
        put(writer, b"No mark stands behind a reply.\n")?;
        return Ok(true);
    };
    put(writer, sentence)?;
    told.put_up_to(writer, reply.end())?;
    told.put_from(writer, front, other.first)?;
    Ok(true)
}

// Behind `or` stands what may be in place of a word in front of it.
fn tell_alternative<W: Write>(
    writer: &mut W,
    told: &Told<'_>,
    place: usize,
    word: Placed<'_>,
) -> Result<bool, WriteFault> {
    let sentence = match word_at(&told.words, 0) {
        b"on" => EACH_ARM,
        b"role" => EACH_CONDITION,
        _ => return Ok(false),
    };
    let next = place.saturating_add(1);
    let others = told.words.get(next..).unwrap_or(&[]);
    let is_last = others.iter().all(|other| !is_or(other.text));
    let Some(other) = others.first() else {
        return Ok(false);
    };
    let end = if is_line(told, next) {
        Some(0)
    } else {
        twin_of(told, place)
    };
    let Some(end) = end.filter(|_| is_last && is_or(word.text)) else {
        return Ok(false);
    };
    put(writer, sentence)?;
    told.put_up_to(writer, word.first)?;
    let front = told.line.get(..end).unwrap_or(b"").trim_ascii_start();
    told.put_from(writer, front, other.first)?;
    Ok(true)
}

fn is_or(word: &[u8]) -> bool {
    matches!(word, b"or" | b"|" | b"||" | b",")
}

// Where the last word in front of this place begins that is of the kind of the one behind it.
fn twin_of(told: &Told<'_>, place: usize) -> Option<usize> {
    let other = word_at(&told.words, place.saturating_add(1));
    let kinds = [Wanted::Arm, Wanted::Good, Wanted::Condition, Wanted::Key];
    let kind = kinds.iter().find(|kind| is_one(other, **kind))?;
    let mut twin = None;
    for word in told.words.iter().take(place).skip(1) {
        if is_one(word.text, *kind) {
            twin = Some(word.first);
        }
    }
    twin
}
