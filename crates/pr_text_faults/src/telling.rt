//! A fault of a text in words.

use crate::declared::line_of;
use crate::limits::limit_words;
use crate::standing::{tell_syntax, tell_unclosed};
use crate::unknown::{tell_repeated, tell_undeclared, tell_unknown};
use pr_output::{Token, WriteFault, put};
use pr_slips::{Told, tell_not_ascii};
use pr_text::{Above, Diagnosis, ReadError, Section};
use pr_words::put_source_line;
use pr_words::saying::put_filled;
use std::io::Write;

/// Writes what a fault of this text means: its line, with carets where the word is known, and sentences. Where memory ran out
/// there is nothing to write.
pub fn write_text_fault<W: Write>(
    writer: &mut W,
    text: &[u8],
    found: &Diagnosis,
) -> Result<(), WriteFault> {
    match found.error {
        ReadError::TooLarge => put(writer, TOO_LARGE),
        ReadError::NotAscii { line } => tell_not_ascii(writer, &Told::of(text, line)),
        ReadError::LineTooLong { line } => tell_too_long(writer, &Told::of(text, line)),
        ReadError::Syntax { line } => {
            let told = match found.above.innermost() {
                Some(block) => Told::of(text, line).below(block.line),
                None => Told::of(text, line),
            };
            tell_syntax(writer, &told, found)
        }
        ReadError::UnknownName { line } => tell_unknown(writer, &Told::of(text, line)),
        ReadError::Limit { which, line } => {
            put_source_line(writer, text, line)?;
            put(writer, limit_words(which))
        }
        ReadError::UndeclaredKey { line } => tell_undeclared(writer, &Told::of(text, line)),
        ReadError::Repeated { line } => tell_repeated(writer, &Told::of(text, line)),
        ReadError::Unclosed { .. } => tell_ended(writer, text, &found.above),
        ReadError::ReadFault => put(writer, READ_FAULT),
        ReadError::Memory => Ok(()),
        ReadError::EmptyStart => tell_empty_start(writer, text),
    }
}

const TOO_LARGE: &[u8] =
    b"The text has more than 65536 bytes, which is the most that a scenario may have. Is it one?\n";

const READ_FAULT: &[u8] =
    b"The text could not be read to its end: the path is a directory, standard input is closed, or the
medium has a fault.\n";

const EMPTY_START: &[u8] =
    b"No alternative of the reservation can be true together with what the start lines say: a single
holder is registered, and where all registrants hold, somebody is. Who has no start line starts
free.\n";

fn tell_too_long<W: Write>(writer: &mut W, told: &Told<'_>) -> Result<(), WriteFault> {
    let number = Token::Number(u64::from(told.number));
    let length = Token::Number(told.line.len() as u64);
    put_filled(
        writer,
        b"Line {} has {} bytes, and a line has 256 at most, in comments too.\n",
        &[number, length],
    )
}

// The text ends, and this is open.
fn tell_ended<W: Write>(writer: &mut W, text: &[u8], above: &Above) -> Result<(), WriteFault> {
    if let Some(block) = above.innermost() {
        let sentence = b"The {} of line {} has no done.\n";
        tell_unclosed(writer, text, text, block, sentence)?;
    }
    let (what, line): (&[u8], u32) = match above.section {
        Section::Script(line) => (b"script", line),
        Section::Plan(line) => (b"plan", line),
        Section::Top | Section::Outside => return Ok(()),
    };
    put_source_line(writer, text, line)?;
    let line = Token::Number(u64::from(line));
    put_filled(
        writer,
        b"The {} of line {} has no end.\n",
        &[Token::Text(what), line],
    )
}

fn tell_empty_start<W: Write>(writer: &mut W, text: &[u8]) -> Result<(), WriteFault> {
    if let Some(line) = line_of(text, b"reservation", None) {
        put_source_line(writer, text, line)?;
    }
    put(writer, EMPTY_START)
}
