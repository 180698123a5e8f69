//! Names where keys stand, and keys where names do.

use crate::declared::{MOST_LINES, declaration, is_declared, line_of};
use pr_lines::{key_or_zero, next_line};
use pr_output::{Token, WriteFault};
use pr_slips::{Placed, Told, Words, word_at, words_in};
use pr_words::saying::put_filled;
use std::io::Write;

/// Tells that what stands where a name is wanted is a key, or stands for all names; and whether it is so.
pub fn tell_no_name<W: Write>(
    writer: &mut W,
    told: &Told<'_>,
    name: Placed<'_>,
) -> Result<bool, WriteFault> {
    if let b"all" | b"any" | b"each" | b"every" | b"everybody" = name.text {
        let sentence: &[u8] = if word_at(&told.words, 0) == b"alone".as_slice() {
            b"{} is no host: write the name of each.\n"
        } else {
            b"{} is no host or guest, and a line is of one: write one for each.\n"
        };
        put_filled(writer, sentence, &[Token::Text(name.text)])?;
        return Ok(true);
    }
    let Some(key) = key_or_zero(name.text) else {
        return Ok(false);
    };
    let Some(line) = line_of(told.above, b"keys", None) else {
        return Ok(false);
    };
    if key == 0 || !is_declared(told.above, key) {
        return Ok(false);
    }
    put_filled(
        writer,
        b"{} is a key, of line {}, and here stands the name of a host or guest",
        &[Token::Text(name.text), Token::Number(u64::from(line))],
    )?;
    put_instead(writer, told, name, name_of_key(told.above, key))?;
    Ok(true)
}

/// Tells that what stands where a key is wanted is a name; and whether it is so.
pub fn tell_no_key<W: Write>(
    writer: &mut W,
    told: &Told<'_>,
    key: Placed<'_>,
) -> Result<bool, WriteFault> {
    let Some(line) = declaration(told.above, key.text) else {
        return Ok(false);
    };
    put_filled(
        writer,
        b"{} is a host or guest, of line {}, and here stands a key",
        &[Token::Text(key.text), Token::Number(u64::from(line))],
    )?;
    put_instead(writer, told, key, key_of_name(told.above, key.text))?;
    Ok(true)
}

// The end of the sentence, and the line with what is known to stand in place of the word.
fn put_instead<W: Write>(
    writer: &mut W,
    told: &Told<'_>,
    word: Placed<'_>,
    meant: Option<&[u8]>,
) -> Result<(), WriteFault> {
    match meant {
        Some(meant) => told.put_meant(writer, b":\n", word, meant),
        None => put_filled(writer, b".\n", &[]),
    }
}

// The one host or guest that starts with this key or whose role registers it.
fn name_of_key(text: &[u8], key: u64) -> Option<&[u8]> {
    let mut found = None;
    let mut rest = text;
    for _ in 1..MOST_LINES {
        let Some((line, others)) = next_line(rest) else {
            break;
        };
        let words = words_in(line);
        let name = word_at(&words, 1);
        if has_key(line, name, key) {
            if found.is_some_and(|other| other != name) {
                return None;
            }
            found = Some(name);
        }
        rest = others;
    }
    found
}

fn has_key(line: &[u8], name: &[u8], key: u64) -> bool {
    keys_on(line, name)
        .iter()
        .any(|word| key_or_zero(word.text) == Some(key))
}

// The one key with which the host or guest starts or that its role registers.
fn key_of_name<'a>(text: &'a [u8], name: &[u8]) -> Option<&'a [u8]> {
    let mut found = None;
    let mut rest = text;
    for _ in 1..MOST_LINES {
        let Some((line, others)) = next_line(rest) else {
            break;
        };
        for word in &keys_on(line, name) {
            if found.is_some_and(|other| key_or_zero(other) != key_or_zero(word.text)) {
                return None;
            }
            found = Some(word.text);
        }
        rest = others;
    }
    found
}

// The keys that the line says the host or guest of this name may have.
fn keys_on<'a>(line: &'a [u8], name: &[u8]) -> Words<'a> {
    let words = words_in(line);
    let from = match (word_at(&words, 0), word_at(&words, 2)) {
        (b"start", _) => 2,
        (b"role", b"register") => 3,
        _ => usize::MAX,
    };
    let mut keys = Words::new();
    for word in words.iter().skip(from) {
        if word_at(&words, 1) == name && key_or_zero(word.text).is_some() {
            let _ = keys.try_push(*word);
        }
    }
    keys
}
