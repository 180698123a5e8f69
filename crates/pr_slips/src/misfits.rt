//! Lines that don't keep their shape: the word that can't stand there, and what was meant by it.

use crate::behind::tell_behind;
use crate::forms::{form_of, missing_words, wanted_words};
use crate::guesses::{HERE, guess_at, tell_guess};
use crate::nearest::{nearest_keyword, nearest_wanted};
use crate::parted::tell_parted;
use crate::shapes::Within;
use crate::slips::{Meant, meant_behind, meant_by, meant_by_line};
use crate::terms::is_one;
use crate::told::Told;
use crate::words::{Placed, word_at};
use pr_lines::{Keyword, Misfit, Wanted, keyword_of};
use pr_output::{Token, WriteFault, put, put_spaced};
use pr_words::saying::put_filled;
use std::io::Write;

/// Tells what is wrong with the words of the line.
pub fn tell_misfit<W: Write>(
    writer: &mut W,
    told: &Told<'_>,
    misfit: Misfit,
) -> Result<(), WriteFault> {
    match told.place_of(misfit.left) {
        Some(place) => {
            if tell_word(writer, told, place, misfit.wanted)? {
                return Ok(());
            }
        }
        None => put(writer, missing_words(misfit.wanted))?,
    }
    let wanted = Token::Text(wanted_words(misfit.wanted));
    put_filled(writer, b"{}\n", &[wanted])?;
    tell_form(writer, word_at(&told.words, 0))
}

/// The word that a line begins with for which this first word was meant, if one is known.
pub fn keyword_meant(told: &Told<'_>, first: Placed<'_>, within: Within) -> Option<&'static [u8]> {
    match meant_first(told, first) {
        Some(Meant::Word(word)) => Some(word),
        Some(_) => None,
        None => nearest_keyword(first.text, within, told.words.len().saturating_sub(1)),
    }
}

/// Tells the first word of a line that no line begins with.
pub fn tell_no_line<W: Write>(
    writer: &mut W,
    told: &Told<'_>,
    first: Placed<'_>,
    within: Within,
) -> Result<(), WriteFault> {
    told.put_carets(writer, first)?;
    if let Some(meant) = meant_first(told, first) {
        return tell_meant(writer, told, 0, first, Wanted::End, meant);
    }
    let Some(near) = keyword_meant(told, first, within) else {
        return put(writer, NO_LINE);
    };
    told.put_meant(
        writer,
        b"No line begins so. The nearest word is {}:\n",
        first,
        near,
    )?;
    tell_form(writer, near)
}

fn meant_first(told: &Told<'_>, first: Placed<'_>) -> Option<Meant> {
    meant_by_line(first.text, word_at(&told.words, 3).contains(&b'.'))
}

const NO_LINE: &[u8] =
    b"No line begins so. Outside scripts a line begins with keys, host, guest, start, reservation,
generation, pending, busy, full, resets, alone, order, role, script or plan; in a script with send,
on, done, repeat, break, stop or end.\n";

// The form of the lines that begin so, where it says more than what is wanted.
fn tell_form<W: Write>(writer: &mut W, word: &[u8]) -> Result<(), WriteFault> {
    match keyword_of(word) {
        Some(Keyword::Send | Keyword::On | Keyword::Reservation) | None => Ok(()),
        Some(keyword) => {
            let form = Token::Text(form_of(keyword));
            put_filled(writer, b"The form is: {}\n", &[form])
        }
    }
}

// The word at this place can't stand there: what was meant, or the nearest word; and whether one of them is known.
fn tell_word<W: Write>(
    writer: &mut W,
    told: &Told<'_>,
    place: usize,
    wanted: Wanted,
) -> Result<bool, WriteFault> {
    let Some(word) = told.words.get(place) else {
        return Ok(false);
    };
    told.put_carets(writer, *word)?;
    if tell_parted(writer, told, place, *word, wanted)?
        || tell_behind(writer, told, place, *word, wanted)?
    {
        return Ok(true);
    }
    if let Some(guess) = guess_at(told, place, *word, wanted) {
        tell_guess(writer, told, guess)?;
        return Ok(true);
    }
    if let Some(meant) = meant_at(told, word.text, wanted) {
        tell_meant(writer, told, place, *word, wanted, meant)?;
        return Ok(true);
    }
    let behind = told.words.len().saturating_sub(place).saturating_sub(1);
    let name = name_of_option(*word).text;
    let near = nearest_wanted(name, wanted, place, behind);
    // (a word without a value is not meant by one that has a value)
    let Some(near) = near.filter(|near| near.ends_with(b"=") || !name.ends_with(b"=")) else {
        return Ok(false);
    };
    told.put_meant(
        writer,
        b"The nearest word is {}:\n",
        replaced(*word, near),
        near,
    )?;
    Ok(true)
}

fn meant_at(told: &Told<'_>, word: &[u8], wanted: Wanted) -> Option<Meant> {
    if wanted == Wanted::End {
        meant_behind(word, keyword_of(word_at(&told.words, 0)))
    } else {
        meant_by(word, wanted)
    }
}

// The word, up to the `=` in front of its value.
fn name_of_option(word: Placed<'_>) -> Placed<'_> {
    match word.text.iter().position(|byte| *byte == b'=') {
        Some(end) => word.front(end.saturating_add(1)),
        None => word,
    }
}

// What of the word the text stands in place of: the name of an option in front of its value, or all.
fn replaced<'a>(word: Placed<'a>, text: &[u8]) -> Placed<'a> {
    if text.ends_with(b"=") {
        name_of_option(word)
    } else {
        word
    }
}

fn tell_meant<W: Write>(
    writer: &mut W,
    told: &Told<'_>,
    place: usize,
    word: Placed<'_>,
    wanted: Wanted,
    meant: Meant,
) -> Result<(), WriteFault> {
    match meant {
        Meant::Word(text) if !is_option(word.text, wanted) => {
            told.put_meant(writer, HERE, replaced(word, text), text)
        }
        Meant::Word(_) | Meant::Option(_) => {
            put(writer, b"Here that is:\n")?;
            put_options(writer, told, place)
        }
        Meant::LeftOut => {
            put(writer, b"That has no part here:\n")?;
            put_options(writer, told, place)
        }
        Meant::Said(sentence) => put_filled(writer, b"{}\n", &[Token::Text(sentence)]),
        Meant::Ended(sentence) => {
            put_filled(writer, b"{}:\n", &[Token::Text(sentence)])?;
            told.put_up_to(writer, word.first)
        }
        Meant::Dropped(sentence) => tell_dropped(writer, told, place, word, sentence),
        Meant::Lines(sentence, lines) => tell_lines(writer, told, sentence, lines),
    }
}

// The word goes, and the line is what stands behind it, if a line begins so.
fn tell_dropped<W: Write>(
    writer: &mut W,
    told: &Told<'_>,
    place: usize,
    word: Placed<'_>,
    sentence: &'static [u8],
) -> Result<(), WriteFault> {
    let next = told.words.get(place.saturating_add(1));
    match next {
        Some(next) if keyword_of(next.text).is_some() => {
            put_filled(writer, b"{}:\n", &[Token::Text(sentence)])?;
            told.put_corrected(writer, told.span(word.first, next.first), b"")
        }
        Some(_) | None => put_filled(writer, b"{}.\n", &[Token::Text(sentence)]),
    }
}

// The lines are for the key that the line ends with, if it does.
fn tell_lines<W: Write>(
    writer: &mut W,
    told: &Told<'_>,
    sentence: &'static [u8],
    lines: &'static [u8],
) -> Result<(), WriteFault> {
    put_filled(writer, b"{}\n", &[Token::Text(sentence)])?;
    match told.words.last() {
        Some(key) if is_one(key.text, Wanted::Key) => {
            put_filled(writer, lines, &[Token::Text(key.text)])
        }
        Some(_) | None => Ok(()),
    }
}

fn is_option(word: &[u8], wanted: Wanted) -> bool {
    (wanted == Wanted::Option || wanted == Wanted::Command) && word.starts_with(b"-")
}

// The line, with each option from this place on as it is written here.
fn put_options<W: Write>(writer: &mut W, told: &Told<'_>, place: usize) -> Result<(), WriteFault> {
    put(writer, b" ")?;
    for word in told.words.iter().take(place) {
        put_spaced(writer, &[Token::Text(word.text)])?;
    }
    let mut is_value = false;
    for word in told.words.iter().skip(place) {
        if is_value {
            put(writer, word.text)?;
            is_value = false;
        } else {
            let meant = meant_by(word.text, Wanted::Option);
            if let Some(Meant::Ended(_)) = meant {
                break;
            }
            put_option(writer, *word, meant)?;
            is_value = matches!(meant, Some(Meant::Option(_)));
        }
    }
    put(writer, b"\n")
}

fn put_option<W: Write>(
    writer: &mut W,
    word: Placed<'_>,
    meant: Option<Meant>,
) -> Result<(), WriteFault> {
    match meant {
        Some(Meant::Word(text)) => {
            let value = word.back(replaced(word, text).text.len());
            put_filled(
                writer,
                b" {}{}",
                &[Token::Text(text), Token::Text(value.text)],
            )
        }
        Some(Meant::Option(text)) => put_spaced(writer, &[Token::Text(text)]),
        Some(Meant::LeftOut) => Ok(()),
        Some(Meant::Said(_) | Meant::Ended(_) | Meant::Dropped(_) | Meant::Lines(..)) | None => {
            put_spaced(writer, &[Token::Text(word.text)])
        }
    }
}
