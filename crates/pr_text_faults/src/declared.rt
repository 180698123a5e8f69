//! What a text declares.

use pr_lines::{key_or_zero, next_line};
use pr_slips::{Nearest, Placed, Words, word_at, words_in};
use pr_words::line_in;

/// The most lines that are looked at: as many as a text has bytes.
pub const MOST_LINES: u32 = 65_537;

/// The first line of the text that begins with this word, and says it of this name where there is one.
pub fn line_of(text: &[u8], first: &[u8], name: Option<&[u8]>) -> Option<u32> {
    let mut rest = text;
    for number in 1..MOST_LINES {
        let (line, others) = next_line(rest)?;
        let words = words_in(line);
        if word_at(&words, 0) == first && name.is_none_or(|name| is_of(&words, name)) {
            return Some(number);
        }
        rest = others;
    }
    None
}

// Whether the line is of this name: the one behind its first word, or one of those behind `alone`.
fn is_of(words: &[Placed<'_>], name: &[u8]) -> bool {
    let names = if word_at(words, 0) == b"alone".as_slice() {
        words.len()
    } else {
        1
    };
    let mut named = words.iter().skip(1).take(names);
    named.any(|word| word.text == name)
}

/// The line of the text that declares the host or guest of this name.
pub fn declaration(text: &[u8], name: &[u8]) -> Option<u32> {
    match line_of(text, b"host", Some(name)) {
        Some(line) => Some(line),
        None => line_of(text, b"guest", Some(name)),
    }
}

/// The name that the text declares and that is nearest to this one, if one is near.
pub fn nearest_name<'a>(text: &'a [u8], name: &[u8]) -> Option<&'a [u8]> {
    let mut nearest = Nearest::new();
    let mut rest = text;
    for _ in 1..MOST_LINES {
        let Some((line, others)) = next_line(rest) else {
            break;
        };
        let words = words_in(line);
        if let b"host" | b"guest" = word_at(&words, 0) {
            nearest.look(name, word_at(&words, 1));
        }
        rest = others;
    }
    nearest.found
}

/// Whether the text declares the key, or it is zero.
pub fn is_declared(text: &[u8], key: u64) -> bool {
    key == 0
        || declared_keys(text)
            .iter()
            .any(|word| key_or_zero(word.text) == Some(key))
}

/// The key that the text declares and that is nearest to this one, if one is near.
pub fn nearest_key<'a>(text: &'a [u8], key: &[u8]) -> Option<&'a [u8]> {
    let mut nearest = Nearest::new();
    for word in &declared_keys(text) {
        nearest.look(key, word.text);
    }
    nearest.found
}

// The words of the line that declares keys, the first of which is no key.
fn declared_keys(text: &[u8]) -> Words<'_> {
    match line_of(text, b"keys", None) {
        Some(line) => words_in(line_in(text, line).unwrap_or(b"")),
        None => Words::new(),
    }
}
