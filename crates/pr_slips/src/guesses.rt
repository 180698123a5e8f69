//! What was meant by a word, by what it is made of.

use crate::forms::wanted_words;
use crate::slips::type_by;
use crate::terms::is_one;
use crate::told::Told;
use crate::words::{Placed, option_key};
use arrayvec::ArrayVec;
use itoa::Buffer;
use pr_lines::{Wanted, key_or_zero};
use pr_output::{Token, WriteFault};
use pr_script::is_name;
use pr_words::saying::put_filled;
use std::io::Write;
use std::slice;

/// Says what stands here in place of a word.
pub const HERE: &[u8] = b"Here that is {}:\n";

/// A text that is put together: a type with a name, and all others, are not longer.
type Text = ArrayVec<u8, 20>;

/// What was meant by a word.
#[derive(Drop)]
pub enum Guess<'a> {
    /// This text stands in place of that part of the line, as a sentence says, with the text in place of `{}`.
    Instead(&'static [u8], Placed<'a>, Text),

    /// The wanted word has fewer characters or digits than there are here, of which these are the name.
    TooLong(Wanted, usize, &'static [u8]),

    /// This is wanted as the value of the option.
    Value(Wanted),

    /// A type stands without its holder.
    Holder(&'a [u8]),
}

/// What was meant by the word at this place, which can't stand there.
pub fn guess_at<'a>(
    told: &Told<'a>,
    place: usize,
    word: Placed<'a>,
    wanted: Wanted,
) -> Option<Guess<'a>> {
    if let Some(comment) = word.text.iter().position(|byte| *byte == b'#') {
        let front = word.back(comment).front(0);
        return instead(b"A comment begins behind a blank:\n", front, b" ");
    }
    match wanted {
        Wanted::Name => too_long(word.text, 16, b"characters", wanted),
        Wanted::Key | Wanted::KeyOrZero => {
            as_keyless(told, place, word).or(as_key(word, wanted))
        }
        Wanted::Alternative => as_key(word, wanted),
        Wanted::Count | Wanted::Address | Wanted::Blocks => as_decimal(word, wanted),
        Wanted::Sense => as_sense(told, place, word),
        Wanted::Reservation => as_reservation(word),
        Wanted::Command | Wanted::Option => as_value(word),
        Wanted::Generation => as_generation(word),
        Wanted::Budget => as_budget(word),
        Wanted::End => as_code(told, place, word),
        _ => None,
    }
}

/// Says what was meant.
pub fn tell_guess<W: Write>(
    writer: &mut W,
    told: &Told<'_>,
    guess: Guess<'_>,
) -> Result<(), WriteFault> {
    match guess {
        Guess::Instead(sentence, place, text) => told.put_meant(writer, sentence, place, &text),
        Guess::TooLong(wanted, count, what) => put_filled(
            writer,
            b"{}\nThis has {} {}.\n",
            &[
                Token::Text(wanted_words(wanted)),
                Token::Number(count as u64),
                Token::Text(what),
            ],
        ),
        Guess::Value(wanted) => put_filled(writer, b"{}\n", &[Token::Text(wanted_words(wanted))]),
        Guess::Holder(kind) => put_filled(
            writer,
            b"A reservation of this type has one holder, whose name stands behind it: {}:NAME.\n",
            &[Token::Text(kind)],
        ),
    }
}

fn instead<'a>(sentence: &'static [u8], place: Placed<'a>, text: &[u8]) -> Option<Guess<'a>> {
    Some(Guess::Instead(sentence, place, Text::try_from(text).ok()?))
}

fn too_long<'a>(
    text: &'a [u8],
    most: usize,
    what: &'static [u8],
    wanted: Wanted,
) -> Option<Guess<'a>> {
    if text.len() <= most {
        return None;
    }
    Some(Guess::TooLong(wanted, text.len(), what))
}

// A word and its key, where what has none has a word of its own.
fn as_keyless<'a>(told: &Told<'a>, place: usize, word: Placed<'a>) -> Option<Guess<'a>> {
    let before = told.words.get(place.checked_sub(1)?)?;
    let meant: &[u8] = match before.text {
        b"register" if is_nothing(word.text) => b"unregister",
        b"held" if is_nothing(word.text) => b"unheld",
        _ => return None,
    };
    instead(HERE, told.span(before.first, word.end()), meant)
}

fn is_nothing(word: &[u8]) -> bool {
    matches!(word, b"none" | b"nothing" | b"nobody" | b"free") || key_or_zero(word) == Some(0)
}

// The code behind `attention`, which takes each: one alone is a sense.
fn as_code<'a>(told: &Told<'a>, place: usize, word: Placed<'a>) -> Option<Guess<'a>> {
    let before = told.words.get(place.checked_sub(1)?)?;
    let code = word
        .text
        .strip_prefix(b"6/".as_slice())
        .unwrap_or(word.text);
    if before.text != b"attention".as_slice() || !is_one(code, Wanted::Attention) {
        return None;
    }
    let mut sense = Text::try_from(b"sense 6/".as_slice()).ok()?;
    sense.try_extend_from_slice(code).ok()?;
    let place = told.span(before.first, word.end());
    Some(Guess::Instead(HERE, place, sense))
}

fn as_key(word: Placed<'_>, wanted: Wanted) -> Option<Guess<'_>> {
    if let Some(digits) = word.text.strip_prefix(b"0X".as_slice())
        && key_or_zero(digits).is_some()
    {
        return instead(
            b"In front of a key stands a small x:\n",
            word.front(2),
            b"0x",
        );
    }
    let digits = without_prefix(word.text);
    if digits.iter().all(|digit| digit.is_ascii_hexdigit()) {
        return too_long(digits, 16, b"digits", wanted);
    }
    None
}

fn without_prefix(word: &[u8]) -> &[u8] {
    word.strip_prefix(b"0x".as_slice()).unwrap_or(word)
}

// A generation has nothing in front of its digits.
fn as_generation(word: Placed<'_>) -> Option<Guess<'_>> {
    let digits = word.text.strip_prefix(b"0x".as_slice())?;
    if digits.len() > 8 || key_or_zero(digits).is_none() {
        return None;
    }
    instead(HERE, word, digits)
}

// The number stands behind the word `budget`.
fn as_budget(word: Placed<'_>) -> Option<Guess<'_>> {
    if !is_decimal(word.text) {
        return None;
    }
    instead(
        b"In front of the number stands budget:\n",
        word.front(0),
        b"budget ",
    )
}

fn is_decimal(word: &[u8]) -> bool {
    word.iter().all(|digit| digit.is_ascii_digit())
}

// The value of an option is none.
fn as_value(word: Placed<'_>) -> Option<Guess<'_>> {
    if let Some(kind) = word.text.strip_prefix(b"--prout-type=".as_slice()) {
        return match type_by(kind) {
            Some(meant) => {
                let place = word.back(word.text.len().saturating_sub(kind.len()));
                instead(HERE, place, meant)
            }
            None => Some(Guess::Value(Wanted::Kind)),
        };
    }
    option_key(word.text).map(|_| Guess::Value(Wanted::KeyOrZero))
}

// A number that is written in hexadecimal digits.
fn as_decimal(word: Placed<'_>, wanted: Wanted) -> Option<Guess<'_>> {
    if is_decimal(word.text) {
        return too_long(word.text, 10, b"digits", wanted);
    }
    if !word.text.starts_with(b"0x") {
        return None;
    }
    let number = key_or_zero(word.text)?;
    instead(
        b"This number is written in decimal:\n",
        word,
        Buffer::new().format(number).as_bytes(),
    )
}

// The sense that the words from this place on are, however its three numbers are put together.
fn as_sense<'a>(told: &Told<'a>, place: usize, word: Placed<'a>) -> Option<Guess<'a>> {
    let mut sense = Text::new();
    for word in told.words.iter().skip(place) {
        add_numbers(&mut sense, word.text)?;
    }
    if sense.len() != MOST_LETTERS {
        return None;
    }
    Some(Guess::Instead(HERE, told.to_end(word.first), sense))
}

/// As many letters as a sense has.
const MOST_LETTERS: usize = 7;

// The numbers of a word, with slashes or colons between them. More than three of them don't fit.
fn add_numbers(sense: &mut Text, word: &[u8]) -> Option<()> {
    let mut rest = word;
    for _ in 0..MOST_LETTERS {
        let end = rest.iter().position(|byte| *byte == b'/' || *byte == b':');
        let end = end.unwrap_or(rest.len());
        add_number(sense, rest.get(..end)?)?;
        rest = match rest.get(end.saturating_add(1)..) {
            Some(others) => others,
            None => return Some(()),
        };
    }
    None
}

// One digit, and then two and two, with slashes between them.
fn add_number(sense: &mut Text, number: &[u8]) -> Option<()> {
    let digits = without_prefix(number);
    let is_key = sense.is_empty();
    let digits = match digits {
        [b'0', digit] if is_key => slice::from_ref(digit),
        _ => digits,
    };
    if digits.len() != (if is_key { 1 } else { 2 }) || key_or_zero(digits).is_none() {
        return None;
    }
    if !is_key {
        sense.try_push(b'/').ok()?;
    }
    sense.try_extend_from_slice(digits).ok()
}

// The type stands in front of its holder, and is a number.
fn as_reservation(word: Placed<'_>) -> Option<Guess<'_>> {
    if is_single(word.text) {
        return Some(Guess::Holder(word.text));
    }
    Some(Guess::Instead(HERE, word, held_in(word.text)?))
}

// A type and a name with a colon between them, however they stand.
fn held_in(word: &[u8]) -> Option<Text> {
    let colon = word.iter().position(|byte| *byte == b':')?;
    let (front, back) = (word.get(..colon)?, word.get(colon.saturating_add(1)..)?);
    let (kind, name) = match (single_type(front), single_type(back)) {
        (Some(kind), _) => (kind, back),
        (None, Some(kind)) => (kind, front),
        (None, None) => return None,
    };
    if !is_name(name) {
        return None;
    }
    let mut held = Text::try_from(kind).ok()?;
    held.try_push(b':').ok()?;
    held.try_extend_from_slice(name).ok()?;
    Some(held)
}

// The number of a type that has one holder.
fn single_type(word: &[u8]) -> Option<&[u8]> {
    Some(type_by(word).unwrap_or(word)).filter(|kind| is_single(kind))
}

fn is_single(kind: &[u8]) -> bool {
    matches!(kind, b"1" | b"3" | b"5" | b"6")
}
