//! Items of a history in words.

use crate::command::put_request;
use crate::reply::put_reply;
use crate::saying::put_filled;
use crate::standing::name_of;
use pr_output::{Token, WriteFault, put};
use pr_roles::{Item, Nexus};
use std::io::Write;

/// Writes the line of an item that has this index: who sent what, from which line of its script, and the reply; or that the
/// disk was reset.
pub fn put_item<W: Write>(
    writer: &mut W,
    nexuses: &[Nexus],
    index: u64,
    item: &Item,
    line: Option<u32>,
) -> Result<(), WriteFault> {
    let Item::Sent(entry) = item else {
        return put_filled(
            writer,
            b"{} the disk is reset: 6/29/00 is pending for each host and guest\n",
            &[Token::Number(index)],
        );
    };
    let name = name_of(nexuses, entry.host);
    put_filled(
        writer,
        b"{} {} ",
        &[Token::Number(index), Token::Text(name)],
    )?;
    if let Some(line) = line {
        put_filled(writer, b"line {} ", &[Token::Number(u64::from(line))])?;
    }
    put_request(writer, &entry.wire)?;
    put(writer, b" -> ")?;
    put_reply(writer, &entry.wire, &entry.reply)?;
    put(writer, b"\n")
}
