//! The lines of a scenario's text, and which of them says what.

ghost use Rattle.std.specs.Prelude.{◌≡◌, map, IfOk};
ghost use Rattle.std.specs.Str.Lines.{lines};

use pr_lines::{key_or_zero, next_line, next_word};
use std::alloc::{AllocError, Global};

/// The lines of the text, without their ends, in order.
pub fn lines_of(alloc: Global, text: &[u8]) -> Result<Vec<&[u8]>, AllocError>
    ensures { IfOk result (λ found. map (λ l. l.now) found.items ≡ lines text.now) }
{
    let mut found = Vec::new(alloc);
    let mut rest = text;
    while let Some((line, others)) = next_line(rest) {
        found.push(line)?;
        rest = others;
    }
    Ok(found)
}

/// The first word of the line, or none. It is looked for byte by byte, since there are many lines.
pub(crate) fn first_word(line: &[u8]) -> &[u8] {
    let rest = without_blanks(line);
    if let [b'#', ..] = rest {
        return b"";
    }
    match rest.iter().position(|byte| is_blank(*byte)) {
        Some(end) => &rest[..end],
        None => rest,
    }
}

fn is_blank(byte: u8) -> bool {
    matches!(byte, b' ' | b'\t')
}

/// Whether the word is this one.
pub(crate) fn is(word: &[u8], text: &str) -> bool {
    word == text.as_bytes()
}

// Whether the line begins with this word, and the name behind it.
fn begins(line: &[u8], word: &[u8], name: &[u8]) -> bool {
    behind(line, word).is_some_and(|rest| behind(rest, name).is_some())
}

// What stands behind the word, if the line begins with it. They are compared byte by byte, up to the first that differs: most lines
// begin with another word, and there are many.
fn behind<'a>(line: &'a [u8], word: &[u8]) -> Option<&'a [u8]> {
    let mut rest = without_blanks(line);
    for byte in word {
        let (first, others) = rest.split_first()?;
        if first != byte {
            return None;
        }
        rest = others;
    }
    match rest.first() {
        None | Some(b' ' | b'\t') => Some(rest),
        Some(_) => None,
    }
}

// The line from its first byte that is no blank.
fn without_blanks(line: &[u8]) -> &[u8] {
    match line.iter().position(|byte| !is_blank(*byte)) {
        Some(first) => &line[first..],
        None => &[],
    }
}

/// Of the lines that begin with this word and this name, the index of the one with this number, from 0.
pub(crate) fn line_of(lines: &[&[u8]], word: &[u8], name: &[u8], number: usize) -> Option<usize> {
    let mut found = lines
        .iter()
        .enumerate()
        .filter(|(_, line)| begins(line, word, name));
    found.nth(number).map(|(index, _)| index)
}

/// The index of the first line that begins with this word.
pub(crate) fn line_with(lines: &[&[u8]], word: &str) -> Option<usize> {
    lines.iter().position(|line| is(first_word(line), word))
}

/// The index of the first line that has an option of a command with this key. A key that no command has stands only in an option
/// that its service action drops.
pub(crate) fn dropped_line(lines: &[&[u8]], key: u64) -> Option<usize> {
    lines.iter().position(|line| has_option(line, key))
}

/// A line of 256 bytes has no more words.
const MOST_WORDS: usize = 130;

fn has_option(line: &[u8], key: u64) -> bool {
    let mut rest = line;
    for _ in 0..MOST_WORDS {
        let Some((word, others)) = next_word(rest) else {
            return false;
        };
        if key_in(word) == Some(key) {
            return true;
        }
        rest = others;
    }
    false
}

// The key that an option of a command gives, if the word is one.
fn key_in(word: &[u8]) -> Option<u64> {
    let digits = match word.strip_prefix(b"--param-rk=".as_slice()) {
        Some(digits) => digits,
        None => word.strip_prefix(b"--param-sark=".as_slice())?,
    };
    key_or_zero(digits)
}
