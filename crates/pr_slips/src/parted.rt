//! Marks where a blank or nothing stands: commas, semicolons, quotes, `=` and `:`.

use crate::shapes::wanted_behind;
use crate::slips::NO_VARIABLES;
use crate::terms::{MOST_ADDRESS, MOST_BLOCKS, is_one};
use crate::told::Told;
use crate::words::{MOST_WORDS, Placed, Words, word_at};
use pr_lines::{Wanted, amount_of};
use pr_output::{Token, WriteFault, put, put_spaced};
use pr_words::saying::put_filled;
use std::io::Write;

const COMMA: &[u8] = b"Words are parted by blanks here, and not by commas:\n";

const SEMICOLON: &[u8] = b"A line has no semicolon at its end:\n";

const QUOTES: &[u8] = b"There are no quotes:\n";

const MARK: &[u8] = b"Words are parted by blanks here, and not by a mark:\n";

const TOO_MANY: &[u8] = b"No mark stands behind this word:\n";

const EACH_NAME: &[u8] = b"A line is of one host or guest, and each has its own:\n";

const EACH_KEY: &[u8] = b"One key stands here, and each has a line of its own:\n";

const BLOCKS: &[u8] = b"The first block stands here, and behind it how many there are:\n";

/// Tells what was meant by the word at this place, where it is a mark, or has one; and whether that is known.
pub fn tell_parted<W: Write>(
    writer: &mut W,
    told: &Told<'_>,
    place: usize,
    word: Placed<'_>,
    wanted: Wanted,
) -> Result<bool, WriteFault> {
    if tell_bare(writer, told, place, word, wanted)? {
        return Ok(true);
    }
    let is_list = word_at(&told.words, 0) == b"keys".as_slice();
    match wanted {
        Wanted::Name => tell_names(writer, told, place, word),
        Wanted::Key | Wanted::KeyOrZero if !is_list => tell_each_key(writer, told, word),
        Wanted::Key | Wanted::Alternative | Wanted::Attention | Wanted::Reservation => {
            tell_list(writer, told, place, wanted)
        }
        Wanted::Budget => tell_after_mark(writer, told, place, word, wanted),
        Wanted::Address => tell_blocks(writer, told, place, word),
        Wanted::Option | Wanted::Command => tell_value(writer, told, word),
        _ => Ok(false),
    }
}

// The mark stands alone between two words, or is one too many.
fn tell_bare<W: Write>(
    writer: &mut W,
    told: &Told<'_>,
    place: usize,
    word: Placed<'_>,
    wanted: Wanted,
) -> Result<bool, WriteFault> {
    let next = told.words.get(place.saturating_add(1));
    if let Some(next) = next
        && matches!(word.text, b"=" | b":" | b",")
        && is_one(next.text, wanted)
    {
        told.put_meant(writer, MARK, told.span(word.first, next.first), b"")?;
        return Ok(true);
    }
    let is_quoted = matches!(word.text, [b'\'' | b'"', ..]);
    match bare(word) {
        Some((sentence, inner)) if is_one(inner.text, wanted) && (is_quoted || next.is_none()) => {
            told.put_meant(writer, sentence, word, inner.text)?;
            Ok(true)
        }
        _ => Ok(false),
    }
}

// What is left of the word without the quotes around it, or the mark at its end.
fn bare(word: Placed<'_>) -> Option<(&'static [u8], Placed<'_>)> {
    let front = word.front(word.text.len().saturating_sub(1));
    match word.text {
        [b'\'', .., b'\''] | [b'"', .., b'"'] => Some((QUOTES, front.back(1))),
        [.., b';'] => Some((SEMICOLON, front)),
        [.., b','] => Some((COMMA, front)),
        [.., b':' | b'='] => Some((TOO_MANY, front)),
        _ => None,
    }
}

// Names with commas between them have a line each; behind a single name there are other words.
fn tell_names<W: Write>(
    writer: &mut W,
    told: &Told<'_>,
    place: usize,
    word: Placed<'_>,
) -> Result<bool, WriteFault> {
    if !word.text.contains(&b',') {
        return tell_after_mark(writer, told, place, word, Wanted::Name);
    }
    let are_alone = matches!(word_at(&told.words, 0), b"host" | b"guest");
    let replaced = if are_alone {
        told.to_end(word.first)
    } else {
        word
    };
    let names = parts_of(replaced);
    if names.is_empty() || !names.iter().all(|name| is_one(name.text, Wanted::Name)) {
        return Ok(false);
    }
    if names.len() == 1 {
        put_list(writer, told, place)?;
        return Ok(true);
    }
    put_each(writer, told, EACH_NAME, replaced, &names)?;
    Ok(true)
}

fn tell_each_key<W: Write>(
    writer: &mut W,
    told: &Told<'_>,
    word: Placed<'_>,
) -> Result<bool, WriteFault> {
    let keys = parts_of(word);
    if keys.len() < 2 || !keys.iter().all(|key| is_one(key.text, Wanted::Key)) {
        return Ok(false);
    }
    put_each(writer, told, EACH_KEY, word, &keys)?;
    Ok(true)
}

// The words of the text, which blanks or commas part.
fn parts_of(text: Placed<'_>) -> Words<'_> {
    let mut parts = Words::new();
    let mut rest = text;
    for _ in 0..MOST_WORDS {
        if rest.text.is_empty() {
            break;
        }
        let mark = rest
            .text
            .iter()
            .position(|byte| matches!(byte, b',' | b' ' | b'\t'));
        let end = mark.unwrap_or(rest.text.len());
        if end > 0 {
            let _ = parts.try_push(rest.front(end));
        }
        rest = rest.back(end.saturating_add(1));
    }
    parts
}

// The line with each of these words in place of that text.
fn put_each<W: Write>(
    writer: &mut W,
    told: &Told<'_>,
    sentence: &[u8],
    replaced: Placed<'_>,
    words: &[Placed<'_>],
) -> Result<(), WriteFault> {
    put(writer, sentence)?;
    for word in words {
        told.put_corrected(writer, replaced, word.text)?;
    }
    Ok(())
}

// A list of words of this kind that goes on to the end of the line.
fn tell_list<W: Write>(
    writer: &mut W,
    told: &Told<'_>,
    place: usize,
    wanted: Wanted,
) -> Result<bool, WriteFault> {
    let Some(word) = told.words.get(place) else {
        return Ok(false);
    };
    let parts = parts_of(told.to_end(word.first));
    if parts.is_empty()
        || !word.text.contains(&b',')
        || !parts.iter().all(|part| is_one(part.text, wanted))
    {
        return Ok(false);
    }
    put_list(writer, told, place)?;
    Ok(true)
}

// The line with blanks in place of the commas from this place on.
fn put_list<W: Write>(writer: &mut W, told: &Told<'_>, place: usize) -> Result<(), WriteFault> {
    put(writer, COMMA)?;
    put(writer, b" ")?;
    for (number, word) in told.words.iter().enumerate() {
        if number < place {
            put_spaced(writer, &[Token::Text(word.text)])?;
        } else {
            put_parts(writer, *word)?;
        }
    }
    put(writer, b"\n")
}

fn put_parts<W: Write>(writer: &mut W, word: Placed<'_>) -> Result<(), WriteFault> {
    for part in &parts_of(word) {
        put_spaced(writer, &[Token::Text(part.text)])?;
    }
    Ok(())
}

// The wanted word stands in front of `=` or `:`, and what is wanted next stands behind.
fn tell_after_mark<W: Write>(
    writer: &mut W,
    told: &Told<'_>,
    place: usize,
    word: Placed<'_>,
    wanted: Wanted,
) -> Result<bool, WriteFault> {
    let Some(mark) = word
        .text
        .iter()
        .position(|byte| matches!(byte, b'=' | b':'))
    else {
        return Ok(false);
    };
    let back = word.back(mark.saturating_add(1)).text;
    let behind = if back.is_empty() {
        word_at(&told.words, place.saturating_add(1))
    } else {
        back
    };
    let next = wanted_behind(word_at(&told.words, 0), wanted);
    if !is_one(word.front(mark).text, wanted) || !is_one(behind, next) {
        return Ok(false);
    }
    let blank: &[u8] = if back.is_empty() { b"" } else { b" " };
    told.put_meant(writer, MARK, word.back(mark).front(1), blank)?;
    Ok(true)
}

// The blocks of a READ or WRITE are told otherwise: `0-7`, `0,8` or `lba=0 count=8`.
fn tell_blocks<W: Write>(
    writer: &mut W,
    told: &Told<'_>,
    place: usize,
    word: Placed<'_>,
) -> Result<bool, WriteFault> {
    let Some((address, blocks)) = blocks_in(told.words.get(place..).unwrap_or(&[])) else {
        return Ok(false);
    };
    put(writer, BLOCKS)?;
    told.put_front(writer, word.first)?;
    put_filled(
        writer,
        b"{} {}\n",
        &[Token::Number(address), Token::Number(blocks)],
    )?;
    Ok(true)
}

// The first block, and how many there are.
fn blocks_in(words: &[Placed<'_>]) -> Option<(u64, u64)> {
    let (address, blocks) = match words {
        [word] => {
            let mark = word
                .text
                .iter()
                .position(|byte| matches!(byte, b'-' | b','))?;
            let address = amount_of(MOST_ADDRESS, word.front(mark).text)?;
            let other = amount_of(MOST_ADDRESS, word.back(mark.saturating_add(1)).text)?;
            if word.text.contains(&b'-') {
                (address, other.checked_sub(address)?.saturating_add(1))
            } else {
                (address, other)
            }
        }
        [address, blocks] => (
            amount_of(MOST_ADDRESS, behind_equals(*address)?)?,
            amount_of(MOST_ADDRESS, behind_equals(*blocks)?)?,
        ),
        _ => return None,
    };
    if blocks <= MOST_BLOCKS {
        Some((address, blocks))
    } else {
        None
    }
}

fn behind_equals<'a>(word: Placed<'a>) -> Option<&'a [u8]> {
    let equals = word.text.iter().position(|byte| *byte == b'=')?;
    Some(word.back(equals.saturating_add(1)).text)
}

// The value of an option is a variable, or has a mark that is too many.
fn tell_value<W: Write>(
    writer: &mut W,
    told: &Told<'_>,
    word: Placed<'_>,
) -> Result<bool, WriteFault> {
    let wanted = if word.text.starts_with(b"--param-") {
        Wanted::KeyOrZero
    } else if word.text.starts_with(b"--prout-type=") {
        Wanted::Kind
    } else {
        return Ok(false);
    };
    let Some(value) = behind_equals(word) else {
        return Ok(false);
    };
    if value.contains(&b'$') {
        put_filled(writer, b"{}\n", &[Token::Text(NO_VARIABLES)])?;
        return Ok(true);
    }
    let value = word.back(word.text.len().saturating_sub(value.len()));
    match bare(value) {
        Some((sentence, inner)) if is_one(inner.text, wanted) => {
            told.put_meant(writer, sentence, value, inner.text)?;
            Ok(true)
        }
        _ => Ok(false),
    }
}
