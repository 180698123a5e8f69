//! How the unit and each nexus stand, in words.

use crate::saying::put_filled;
use crate::sense::put_sense;
use crate::wrapping::Wrapping;
use pr_attention::{Attention, Pending};
use pr_audit::End;
use pr_output::{Token, WriteFault, put};
use pr_registry::{Held, Registry};
use pr_roles::Nexus;
use pr_unit::Unit;
use std::io::Write;

/// The name of a nexus, by its number; empty where there is none.
pub fn name_of(nexuses: &[Nexus], host: u8) -> &[u8] {
    match nexuses.get(usize::from(host)) {
        Some(nexus) => nexus.name.as_str().as_bytes(),
        None => b"",
    }
}

/// Writes a reservation: `nothing reserved`, `type 5 of a`, or `type 8 of all registrants`.
pub fn put_held<W: Write>(
    writer: &mut W,
    nexuses: &[Nexus],
    held: Option<Held>,
) -> Result<(), WriteFault> {
    let (kind, holder) = match held {
        None => return put(writer, b"nothing reserved"),
        Some(Held::One(kind, host)) => (kind, name_of(nexuses, host)),
        Some(Held::All(kind)) => (kind, b"all registrants".as_slice()),
    };
    let kind = Token::Number(u64::from(kind.code()));
    put_filled(writer, b"type {} of {}", &[kind, Token::Text(holder)])
}

/// Writes the line of the unit: its generation, its reservation, and who is registered with which key.
pub fn put_unit<W: Write>(
    writer: &mut W,
    nexuses: &[Nexus],
    unit: &Registry,
) -> Result<(), WriteFault> {
    let generation = Token::Number(u64::from(unit.generation()));
    put_filled(writer, b"unit generation {}, ", &[generation])?;
    put_held(writer, nexuses, unit.held())?;
    for host in 0..unit.hosts() {
        let name = name_of(nexuses, host);
        match unit.key(host) {
            Some(key) => put_filled(
                writer,
                b", {} has {}",
                &[Token::Text(name), Token::Key(key)],
            )?,
            None => put_filled(writer, b", {} not registered", &[Token::Text(name)])?,
        }
    }
    put(writer, b"\n")
}

/// Writes how the unit stands at a start: its line, and one for each attention that is pending.
pub fn put_start<W: Write>(
    writer: &mut W,
    nexuses: &[Nexus],
    unit: &Unit,
) -> Result<(), WriteFault> {
    let mut writer = Wrapping::new(writer);
    put_unit(&mut writer, nexuses, unit.registry())?;
    for host in 0..unit.registry().hosts() {
        put_waiting(&mut writer, name_of(nexuses, host), unit.pending(host))?;
    }
    Ok(())
}

fn put_waiting<W: Write>(
    writer: &mut W,
    owner: &[u8],
    pending: &Pending,
) -> Result<(), WriteFault> {
    for attention in Attention::ALL {
        if pending.has(attention) {
            put_sense(writer, attention.sense())?;
            put_filled(writer, b" is pending for {}\n", &[Token::Text(owner)])?;
        }
    }
    Ok(())
}

/// Writes the line of how a nexus stands, and how many of its commands reached the unit.
pub fn put_end<W: Write>(
    writer: &mut W,
    name: &[u8],
    end: End,
    sent: u32,
) -> Result<(), WriteFault> {
    match end {
        End::Stopped(word) => {
            put_filled(
                writer,
                b"host {} stopped with the word",
                &[Token::Text(name)],
            )?;
            let word = word.as_str().as_bytes();
            put_filled(writer, b" {} and", &[Token::Text(word)])?;
        }
        End::Ready(line) => put_filled(
            writer,
            b"host {} is ready at line {} and",
            &[Token::Text(name), Token::Number(u64::from(line))],
        )?,
        End::Trapped(line) => put_filled(
            writer,
            b"host {} is trapped at line {} and",
            &[Token::Text(name), Token::Number(u64::from(line))],
        )?,
        End::Left(_) => put_filled(writer, b"guest {}", &[Token::Text(name)])?,
    }
    put_filled(writer, b" sent {}\n", &[Token::Number(u64::from(sent))])
}

/// Writes the line behind an item with which the script of this name is over: that it stops there, and with which word, or that it
/// is trapped.
pub fn put_over<W: Write>(writer: &mut W, name: &[u8], end: End) -> Result<(), WriteFault> {
    match end {
        End::Stopped(word) => {
            put_filled(writer, b"  {} stops with the word", &[Token::Text(name)])?;
            let word = word.as_str().as_bytes();
            put_filled(writer, b" {}\n", &[Token::Text(word)])
        }
        End::Trapped(line) => put_filled(
            writer,
            b"  {} is trapped at line {}: no arm takes this reply\n",
            &[Token::Text(name), Token::Number(u64::from(line))],
        ),
        End::Ready(_) | End::Left(_) => Ok(()),
    }
}
