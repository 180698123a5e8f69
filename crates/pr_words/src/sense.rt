//! Sense in words.

use crate::saying::put_filled;
use pr_cdb::Sense;
use pr_output::{Token, WriteFault};
use std::io::Write;

/// Writes a sense with what the standard calls it, as `6/2a/05 (registrations preempted)`.
pub fn put_sense<W: Write>(writer: &mut W, sense: Sense) -> Result<(), WriteFault> {
    put_filled(
        writer,
        b"{}/{}/{}",
        &[
            Token::Key(u64::from(sense.key)),
            Token::Bytes(&[sense.asc]),
            Token::Bytes(&[sense.ascq]),
        ],
    )?;
    match meaning(sense) {
        Some(meaning) => put_filled(writer, b" ({})", &[Token::Text(meaning)]),
        None => Ok(()),
    }
}

// What the standard calls each sense that the unit tells (SPC-4, 'Sense key and additional sense code definitions').
fn meaning(sense: Sense) -> Option<&'static [u8]> {
    match (sense.key, sense.asc, sense.ascq) {
        (0x0, 0x00, 0x00) => Some(b"nothing to tell"),
        (0x5, 0x1a, 0x00) => Some(b"parameter list length error"),
        (0x5, 0x20, 0x00) => Some(b"invalid command operation code"),
        (0x5, 0x21, 0x00) => Some(b"logical block address out of range"),
        (0x5, 0x24, 0x00) => Some(b"invalid field in CDB"),
        (0x5, 0x26, 0x00) => Some(b"invalid field in parameter list"),
        (0x5, 0x26, 0x04) => Some(b"invalid release of persistent reservation"),
        (0x6, 0x29, 0x00) => Some(b"power on, reset, or bus device reset occurred"),
        (0x6, 0x2a, 0x03) => Some(b"reservations preempted"),
        (0x6, 0x2a, 0x04) => Some(b"reservations released"),
        (0x6, 0x2a, 0x05) => Some(b"registrations preempted"),
        _ => None,
    }
}
