//! Bytes that no line may have.

use crate::told::Told;
use crate::words::Placed;
use pr_lines::is_text;
use pr_output::{Token, WriteFault, put};
use pr_words::saying::put_filled;
use std::io::Write;

/// What several bytes are together, and what to do.
const KNOWN: &[(&[&[u8]], &[u8])] = &[
    (
        &[b"\xef\xbb\xbf"],
        b"It is a byte order mark: save the text without one.\n",
    ),
    (
        &[b"\xff\xfe", b"\xfe\xff"],
        b"The text is in UTF-16: save it as ASCII.\n",
    ),
    (
        &[b"\xc2\xa0", b"\xa0"],
        b"It is a no-break blank: write a blank.\n",
    ),
    (
        &[b"\xe2\x80\x8b"],
        b"It is a blank of no width: delete it.\n",
    ),
    (
        &[b"\xe2\x80\x90", b"\xe2\x80\x91"],
        b"It is a typographic hyphen: write -.\n",
    ),
    (
        &[b"\xe2\x80\x93", b"\xe2\x80\x94"],
        b"It is a dash: write -, or -- in front of an option.\n",
    ),
    (
        &[b"\xe2\x80\x98", b"\xe2\x80\x99"],
        b"It is a typographic quote: there are no quotes but in comments, and there '.\n",
    ),
    (
        &[b"\xe2\x80\x9c", b"\xe2\x80\x9d"],
        b"It is a typographic quote: there are no quotes but in comments, and there \".\n",
    ),
    (
        &[b"\xe2\x80\xa6"],
        b"It is an ellipsis: write the dots one by one.\n",
    ),
    (
        &[b"\r"],
        b"It is a carriage return, which ends a line only in front of a line feed.\n",
    ),
    (
        &[b"\0"],
        b"It is a null byte: the text is in UTF-16, or no text.\n",
    ),
];

const WANTED: &[u8] =
    b"A line has tabs, blanks and printing ASCII characters alone, in comments too.\n";

/// Tells the first byte of the line that it may not have.
pub fn tell_not_ascii<W: Write>(writer: &mut W, told: &Told<'_>) -> Result<(), WriteFault> {
    told.put_line(writer)?;
    let line = told.line;
    if let Some(first) = line.iter().position(|byte| !is_text(&[*byte])) {
        let bytes = line.get(first..).unwrap_or(b"");
        let text = bytes.get(..1).unwrap_or(b"");
        told.put_carets(writer, Placed { text, first })?;
        put_filled(
            writer,
            b"Here stands the byte {}h.\n",
            &[Token::Bytes(text)],
        )?;
        tell_known(writer, bytes)?;
    }
    put(writer, WANTED)
}

fn tell_known<W: Write>(writer: &mut W, bytes: &[u8]) -> Result<(), WriteFault> {
    for (fronts, what) in KNOWN {
        if fronts.iter().any(|front| bytes.starts_with(front)) {
            return put(writer, what);
        }
    }
    Ok(())
}
