//! Commands in words.

use crate::saying::put_filled;
use pr_cdb::{Command, Field, Kind, Layout, Request, ServiceAction, Wire, decode};
use pr_output::{Token, WriteFault, put};
use std::io::Write;

/// Writes a command: what the standard calls it, and its fields that count, as `REGISTER rk 0 sark b2`. Keys are in
/// hexadecimal digits without leading zeros, blocks in decimal ones.
pub fn put_command<W: Write>(writer: &mut W, command: &Command) -> Result<(), WriteFault> {
    match command.layout() {
        Layout::TestUnitReady => put(writer, b"TEST UNIT READY"),
        Layout::RequestSense => put(writer, b"REQUEST SENSE"),
        Layout::Read { lba, blocks } => put_blocks(writer, b"READ", lba, blocks),
        Layout::Write { lba, blocks } => put_blocks(writer, b"WRITE", lba, blocks),
        Layout::ReserveIn { action, .. } => put(writer, action.row().name),
        Layout::ReserveOut {
            action,
            kind,
            rk,
            sark,
        } => put_action(writer, action, kind, rk, sark),
    }
}

fn put_blocks<W: Write>(
    writer: &mut W,
    name: &[u8],
    lba: u32,
    blocks: u16,
) -> Result<(), WriteFault> {
    let (blocks, lba) = (u64::from(blocks), u64::from(lba));
    put_filled(
        writer,
        b"{} {} blocks from {}",
        &[Token::Text(name), Token::Number(blocks), Token::Number(lba)],
    )
}

fn put_action<W: Write>(
    writer: &mut W,
    action: ServiceAction,
    kind: Option<Kind>,
    rk: u64,
    sark: u64,
) -> Result<(), WriteFault> {
    let row = action.row();
    put(writer, row.name)?;
    for field in [Field::Kind, Field::Rk, Field::Sark] {
        if row.fields.contains(&field) {
            put_field(writer, field, kind, rk, sark)?;
        }
    }
    Ok(())
}

fn put_field<W: Write>(
    writer: &mut W,
    field: Field,
    kind: Option<Kind>,
    rk: u64,
    sark: u64,
) -> Result<(), WriteFault> {
    match field {
        Field::Kind => {
            let kind = kind.map_or(Token::Text(b"none"), type_of);
            put_filled(writer, b" type {}", &[kind])
        }
        Field::Rk => put_filled(writer, b" rk {}", &[Token::Key(rk)]),
        Field::Sark => put_filled(writer, b" sark {}", &[Token::Key(sark)]),
    }
}

fn type_of(kind: Kind) -> Token<'static> {
    Token::Number(u64::from(kind.code()))
}

/// Writes what these bytes ask for: a command, or where the unit has none such, the operation's name and the bytes.
pub fn put_request<W: Write>(writer: &mut W, wire: &Wire) -> Result<(), WriteFault> {
    let (cdb, params) = (wire.cdb.as_slice(), wire.params.as_slice());
    match decode(cdb, params) {
        Ok(Request::Plain(command)) => put_command(writer, &command),
        Ok(Request::Faulty(_)) | Err(_) => put_filled(
            writer,
            b"{} {} {}",
            &[
                Token::Text(operation(cdb)),
                Token::Bytes(cdb),
                Token::Bytes(params),
            ],
        ),
    }
}

// What the standard calls the operation with this command descriptor block, where the unit has no such command.
fn operation(cdb: &[u8]) -> &'static [u8] {
    match cdb.first() {
        Some(0x00) => b"TEST UNIT READY",
        Some(0x03) => b"REQUEST SENSE",
        Some(0x12) => b"INQUIRY",
        Some(0x28) => b"READ",
        Some(0x2a) => b"WRITE",
        Some(0x5e) => b"PERSISTENT RESERVE IN",
        Some(0x5f) => b"PERSISTENT RESERVE OUT",
        Some(0xa0) => b"REPORT LUNS",
        Some(_) | None => b"command",
    }
}
