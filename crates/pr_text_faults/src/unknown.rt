//! Names and keys that are not declared, and what is said again.

use crate::confused::{tell_no_key, tell_no_name};
use crate::declared::{declaration, is_declared, line_of, nearest_key, nearest_name};
use pr_lines::key_or_zero;
use pr_output::{Token, WriteFault, put, put_spaced};
use pr_slips::{Placed, Told, option_key, word_at, words_in};
use pr_words::saying::put_filled;
use pr_words::{line_in, put_source_line};
use std::io::Write;

/// Tells the line, which uses a name that no line above declares, or declares as one of the other kind.
pub fn tell_unknown<W: Write>(writer: &mut W, told: &Told<'_>) -> Result<(), WriteFault> {
    told.put_line(writer)?;
    match unknown_name(told) {
        Some(name) => {
            told.put_carets(writer, name)?;
            if tell_no_name(writer, told, name)? {
                return Ok(());
            }
            tell_undeclared_name(writer, told, name.text)
        }
        None => tell_wrong_kind(writer, told),
    }
}

// The first name on the line that no line above declares.
fn unknown_name<'a>(told: &Told<'a>) -> Option<Placed<'a>> {
    let first = word_at(&told.words, 0);
    for (place, word) in told.words.iter().enumerate().skip(1) {
        let name = match first {
            b"reservation" => holder_in(*word),
            b"alone" => Some(*word),
            _ if place == 1 => Some(*word),
            _ => None,
        };
        if let Some(name) = name
            && declaration(told.above, name.text).is_none()
        {
            return Some(name);
        }
    }
    None
}

// The holder in the alternative of a reservation.
fn holder_in(word: Placed<'_>) -> Option<Placed<'_>> {
    match word.text {
        [_, b':', ..] => Some(word.back(2)),
        _ => None,
    }
}

fn tell_undeclared_name<W: Write>(
    writer: &mut W,
    told: &Told<'_>,
    name: &[u8],
) -> Result<(), WriteFault> {
    put_filled(
        writer,
        b"No line above declares {}.\n",
        &[Token::Text(name)],
    )?;
    if let Some(line) = declaration(told.text, name) {
        return put_filled(
            writer,
            b"It is declared further down, on line {}: a line that declares stands above those that use it.\n",
            &[Token::Number(u64::from(line))],
        );
    }
    let Some(near) = nearest_name(told.above, name) else {
        return put(writer, b"Declare it by a line host NAME or guest NAME.\n");
    };
    let line = declaration(told.above, near).unwrap_or(0);
    put_filled(
        writer,
        b"The nearest name is {}, of line {}.\n",
        &[Token::Text(near), Token::Number(u64::from(line))],
    )
}

// Each name on the line is declared: a guest has no script and is not said to be alone, or a host has no plan.
fn tell_wrong_kind<W: Write>(writer: &mut W, told: &Told<'_>) -> Result<(), WriteFault> {
    let (kind, sentence) = wrong_kind(word_at(&told.words, 0));
    for word in told.words.iter().skip(1) {
        if let Some(line) = line_of(told.above, kind, Some(word.text)) {
            told.put_carets(writer, *word)?;
            let line = Token::Number(u64::from(line));
            return put_filled(writer, sentence, &[Token::Text(word.text), line]);
        }
    }
    Ok(())
}

// The word with which the line begins that declares such a name, and what is said of it.
fn wrong_kind(first: &[u8]) -> (&'static [u8], &'static [u8]) {
    match first {
        b"plan" => (
            b"host",
            b"{}, of line {}, is a host: only a guest has a plan, and a host a script.\n",
        ),
        b"alone" => (
            b"guest",
            b"{}, of line {}, is a guest: only of hosts a line says that they are alone on their paths.\n",
        ),
        _ => (
            b"guest",
            b"{}, of line {}, is a guest: only a host has a script, and a guest a plan.\n",
        ),
    }
}

/// Tells the line, which uses a key that no line above declares.
pub fn tell_undeclared<W: Write>(writer: &mut W, told: &Told<'_>) -> Result<(), WriteFault> {
    told.put_line(writer)?;
    let Some(key) = undeclared_key(told) else {
        return put(writer, b"A key on the line is not declared above.\n");
    };
    told.put_carets(writer, key)?;
    if tell_no_key(writer, told, key)? {
        return Ok(());
    }
    match line_of(told.above, b"keys", None) {
        Some(line) => tell_not_among(writer, told, line, key.text),
        None => put_filled(
            writer,
            b"No line above declares keys; one would be: keys {}\n",
            &[Token::Text(key.text)],
        ),
    }
}

// The key is none of those of the line that declares some.
fn tell_not_among<W: Write>(
    writer: &mut W,
    told: &Told<'_>,
    line: u32,
    key: &[u8],
) -> Result<(), WriteFault> {
    put_filled(
        writer,
        b"The keys of line {} are others than {}.\n",
        &[Token::Number(u64::from(line)), Token::Text(key)],
    )?;
    match nearest_key(told.above, key) {
        Some(near) => put_filled(writer, b"The nearest is {}.\n", &[Token::Text(near)]),
        None => put_source_line(writer, told.text, line),
    }
}

// The first key on the line that is not declared above.
fn undeclared_key<'a>(told: &Told<'a>) -> Option<Placed<'a>> {
    let from = match word_at(&told.words, 0) {
        b"start" => 2,
        b"role" | b"on" => 3,
        _ => usize::MAX,
    };
    for (place, word) in told.words.iter().enumerate() {
        let Some(key) = key_of(*word, place >= from) else {
            continue;
        };
        if let Some(number) = key_or_zero(key.text)
            && !is_declared(told.above, number)
        {
            return Some(key);
        }
    }
    None
}

// The key that the word is, or that the option has.
fn key_of(word: Placed<'_>, is_key: bool) -> Option<Placed<'_>> {
    match option_key(word.text) {
        Some(key) => Some(word.back(word.text.len().saturating_sub(key.len()))),
        None if is_key => Some(word),
        None => None,
    }
}

/// Tells the line, which says again what may be said once.
pub fn tell_repeated<W: Write>(writer: &mut W, told: &Told<'_>) -> Result<(), WriteFault> {
    if let Some(earlier) = earlier_line(told) {
        put_source_line(writer, told.text, earlier)?;
        told.put_line(writer)?;
        return tell_said(writer, told, earlier);
    }
    told.put_line(writer)?;
    if let Some(word) = second_time(&told.words) {
        told.put_carets(writer, word)?;
    }
    put(writer, b"The line says that twice.\n")
}

const SAID: &[u8] =
    b"Line {} says it already. Delete one of the two; alternatives stand on one line.\n";

// What the line says a line above says already. What lists of both have is put together on one.
fn tell_said<W: Write>(writer: &mut W, told: &Told<'_>, earlier: u32) -> Result<(), WriteFault> {
    let number = Token::Number(u64::from(earlier));
    let from = match word_at(&told.words, 0) {
        b"keys" | b"reservation" | b"alone" => 1,
        b"start" | b"pending" => 2,
        _ => return put_filled(writer, SAID, &[number]),
    };
    put_filled(
        writer,
        b"Line {} says it already. In place of the two stands one line:\n ",
        &[number],
    )?;
    let words = words_in(line_in(told.text, earlier).unwrap_or(b""));
    for word in &words {
        put_spaced(writer, &[Token::Text(word.text)])?;
    }
    for word in told.words.iter().skip(from) {
        let mut others = words.iter().skip(from);
        if !others.any(|other| is_same(other.text, word.text)) {
            put_spaced(writer, &[Token::Text(word.text)])?;
        }
    }
    put(writer, b"\n")
}

// The line above that says the same once already.
fn earlier_line(told: &Told<'_>) -> Option<u32> {
    let name = word_at(&told.words, 1);
    match word_at(&told.words, 0) {
        b"host" | b"guest" => declaration(told.above, name),
        first @ (b"keys" | b"reservation" | b"generation" | b"resets" | b"order") => {
            line_of(told.above, first, None)
        }
        b"alone" => earlier_alone(told),
        first => line_of(told.above, first, Some(name)),
    }
}

// The line above that says it of one of the hosts on the line.
fn earlier_alone(told: &Told<'_>) -> Option<u32> {
    for word in told.words.iter().skip(1) {
        if let Some(line) = line_of(told.above, b"alone", Some(word.text)) {
            return Some(line);
        }
    }
    None
}

// The first word that is a key or a word that stands further to the left.
fn second_time<'a>(words: &[Placed<'a>]) -> Option<Placed<'a>> {
    for (place, word) in words.iter().enumerate() {
        let is_again = words
            .iter()
            .take(place)
            .skip(1)
            .any(|other| is_same(other.text, word.text));
        if is_again {
            return Some(*word);
        }
    }
    None
}

fn is_same(one: &[u8], other: &[u8]) -> bool {
    one == other || (key_or_zero(one).is_some() && key_or_zero(one) == key_or_zero(other))
}
