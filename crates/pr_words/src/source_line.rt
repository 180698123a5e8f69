//! Lines of a scenario's text, with their numbers.

use crate::saying::put_filled;
use itoa::Buffer;
use pr_lines::{is_text, next_line};
use pr_output::{Token, WriteFault, put};
use std::io::Write;

/// The text from the line of this number on, counted from 1; empty where it has no such line.
pub fn lines_from(text: &[u8], number: u32) -> &[u8] {
    let mut rest = text;
    for _ in 1..number {
        match next_line(rest) {
            Some((_, others)) => rest = others,
            None => return rest,
        }
    }
    rest
}

/// The line of a text that has this number, counted from 1, without its end.
pub fn line_in(text: &[u8], number: u32) -> Option<&[u8]> {
    let (line, _) = next_line(lines_from(text, number))?;
    Some(line)
}

/// Writes the line of a text that has this number behind the number, as `17 | stop ok`. A byte that is no text is written as `?`.
/// Where the text has no such line, nothing is written.
pub fn put_source_line<W: Write>(
    writer: &mut W,
    text: &[u8],
    number: u32,
) -> Result<(), WriteFault> {
    let Some(line) = line_in(text, number) else {
        return Ok(());
    };
    put_filled(writer, b"{} | ", &[Token::Number(u64::from(number))])?;
    for byte in line {
        put(writer, &[shown(*byte)])?;
    }
    put(writer, b"\n")
}

/// Writes the line below one that has this number: a caret at each byte of that line from the first place on, up to the end.
pub fn put_carets<W: Write>(
    writer: &mut W,
    number: u32,
    line: &[u8],
    first: usize,
    end: usize,
) -> Result<(), WriteFault> {
    for _ in 0..Buffer::new().format(u64::from(number)).len() {
        put(writer, b" ")?;
    }
    put(writer, b" | ")?;
    for (place, byte) in line.iter().enumerate() {
        if place >= end {
            break;
        }
        put(writer, &[if place >= first { b'^' } else { blank(*byte) }])?;
    }
    put(writer, b"\n")
}

// What stands for the byte where people read it.
fn shown(byte: u8) -> u8 {
    if is_text(&[byte]) { byte } else { b'?' }
}

// What is as wide as the byte.
fn blank(byte: u8) -> u8 {
    if byte == b'\t' { b'\t' } else { b' ' }
}
