//! Replies in words.

use crate::saying::put_filled;
use crate::sense::put_sense;
use pr_cdb::{Command, Reply, Request, Status, Wire, decode, decode_sense, holder_of, keys_of};
use pr_output::{Token, WriteFault, put, put_spaced};
use pr_script::Class;
use std::io::Write;

/// Writes how a reply ends, as `GOOD` or `CHECK CONDITION 6/2a/05 (registrations preempted)`.
pub fn put_class<W: Write>(writer: &mut W, class: Class) -> Result<(), WriteFault> {
    match class {
        Class::Good => put(writer, b"GOOD"),
        Class::Conflict => put(writer, b"RESERVATION CONFLICT"),
        Class::Busy => put(writer, b"BUSY"),
        Class::Full => put(writer, b"TASK SET FULL"),
        Class::Sense(sense) => {
            put(writer, b"CHECK CONDITION ")?;
            put_sense(writer, sense)
        }
    }
}

/// Writes the reply to a command with these bytes, as `GOOD, generation 2, keys a1 b2`.
pub fn put_reply<W: Write>(writer: &mut W, wire: &Wire, reply: &Reply) -> Result<(), WriteFault> {
    match (reply.status, reply.sense) {
        (Status::Good, _) => put_good(writer, wire, reply.bytes.as_slice()),
        (Status::CheckCondition, Some(sense)) => put_class(writer, Class::Sense(sense)),
        (Status::CheckCondition, None) => put(writer, b"CHECK CONDITION"),
        (Status::Conflict, _) => put_class(writer, Class::Conflict),
        (Status::Busy, _) => put_class(writer, Class::Busy),
        (Status::TaskFull, _) => put_class(writer, Class::Full),
    }
}

// GOOD, with what its data says.
fn put_good<W: Write>(writer: &mut W, wire: &Wire, data: &[u8]) -> Result<(), WriteFault> {
    put_class(writer, Class::Good)?;
    if data.is_empty() {
        return Ok(());
    }
    put(writer, b",")?;
    match decode(wire.cdb.as_slice(), wire.params.as_slice()) {
        Ok(Request::Plain(Command::RequestSense)) => put_sense_data(writer, data),
        Ok(Request::Plain(Command::ReadKeys { .. })) => put_keys_data(writer, data),
        Ok(Request::Plain(Command::ReadReservation { .. })) => put_reservation_data(writer, data),
        Ok(_) | Err(_) => put_spaced(writer, &[Token::Bytes(data)]),
    }
}

fn put_sense_data<W: Write>(writer: &mut W, data: &[u8]) -> Result<(), WriteFault> {
    match decode_sense(data) {
        Some(sense) => {
            put(writer, b" ")?;
            put_sense(writer, sense)
        }
        None => put_spaced(writer, &[Token::Bytes(data)]),
    }
}

fn put_keys_data<W: Write>(writer: &mut W, data: &[u8]) -> Result<(), WriteFault> {
    put_generation(writer, data)?;
    put(writer, b" keys")?;
    let keys = keys_of(data);
    if keys.is_empty() {
        return put(writer, b" none");
    }
    for key in &keys {
        put_spaced(writer, &[Token::Key(*key)])?;
    }
    Ok(())
}

fn put_reservation_data<W: Write>(writer: &mut W, data: &[u8]) -> Result<(), WriteFault> {
    put_generation(writer, data)?;
    match holder_of(data) {
        Some(None) => put(writer, b" nothing reserved"),
        Some(Some((key, kind))) => put_holder(writer, key, kind % 16),
        None => put_spaced(writer, &[Token::Bytes(data)]),
    }
}

/// The generation, where the data of a READ KEYS or READ RESERVATION has it.
pub(crate) fn generation_in(data: &[u8]) -> Option<u32> {
    match data {
        [a, b, c, d, ..] => Some(u32::from_be_bytes([*a, *b, *c, *d])),
        _ => None,
    }
}

fn put_generation<W: Write>(writer: &mut W, data: &[u8]) -> Result<(), WriteFault> {
    match generation_in(data) {
        Some(generation) => {
            let generation = Token::Number(u64::from(generation));
            put_filled(writer, b" generation {},", &[generation])
        }
        None => Ok(()),
    }
}

// Where all registrants hold, the key is 0.
fn put_holder<W: Write>(writer: &mut W, key: u64, kind: u8) -> Result<(), WriteFault> {
    let kind = Token::Number(u64::from(kind));
    let holder = if key == 0 {
        Token::Text(b"all registrants")
    } else {
        Token::Key(key)
    };
    put_filled(writer, b" type {} of {}", &[kind, holder])
}
