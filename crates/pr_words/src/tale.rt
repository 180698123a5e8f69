//! A history in words.

use crate::command::put_command;
use crate::item::put_item;
use crate::reply::put_reply;
use crate::saying::put_filled;
use crate::sense::put_sense;
use crate::standing::{name_of, put_end, put_over, put_unit};
use crate::telling::{Departure, Instead, Note, Telling};
use crate::wrapping::Wrapping;
use pr_attention::Attention;
use pr_audit::End;
use pr_cdb::Status;
use pr_output::{Token, WriteFault, put, put_spaced};
use pr_roles::{Entry, Item, Nexus, Scenario};
use std::io::Write;

/// Writes a history as it is told: each item, with the line of the script that it comes from, and behind one that isn't legal what
/// would have been in its place, and behind the last of a script how that is over; whether the history is legal, and how many items
/// aren't; the unit, and how each nexus stands.
/// Behind an item that isn't legal it is told as if the answer had been right. A trace's own last lines are not told. A line of
/// more than 100 columns goes on in the next, further in.
pub fn write_telling<W: Write>(
    writer: &mut W,
    scenario: &Scenario,
    history: &[Item],
    telling: &Telling,
) -> Result<(), WriteFault> {
    let mut writer = Wrapping::new(writer);
    let nexuses = &scenario.parts().nexuses;
    put_items(&mut writer, nexuses, history, telling)?;
    put_count(&mut writer, history, telling)?;
    put_unit(&mut writer, nexuses, telling.unit.registry())?;
    put_ends(&mut writer, nexuses, &telling.ends, &telling.counts)
}

fn put_items<W: Write>(
    writer: &mut W,
    nexuses: &[Nexus],
    history: &[Item],
    telling: &Telling,
) -> Result<(), WriteFault> {
    for (others, (item, note)) in history.iter().zip(&telling.notes).enumerate() {
        put_item(writer, nexuses, others as u64 + 1, item, note.line)?;
        if let (Item::Sent(entry), true) = (item, note.is_out_of_role) {
            put_filled(
                writer,
                b"  which the role of {} does not permit to end GOOD there\n",
                &[Token::Text(name_of(nexuses, entry.host))],
            )?;
        }
        if let Item::Sent(entry) = item {
            put_unseen(writer, name_of(nexuses, entry.host), note)?;
        }
        if let Some(at) = note.departure {
            put_departure(writer, nexuses, item, &telling.departures, at)?;
        }
        if let (Item::Sent(entry), Some(end)) = (item, note.end) {
            put_over(writer, name_of(nexuses, entry.host), end)?;
        }
    }
    Ok(())
}

// What the reply shows of what no script is told.
fn put_unseen<W: Write>(writer: &mut W, name: &[u8], note: &Note) -> Result<(), WriteFault> {
    for attention in Attention::ALL {
        if !note.fetched.has(attention) {
            continue;
        }
        put_filled(
            writer,
            b"  somebody else on the path of {} was told of ",
            &[Token::Text(name)],
        )?;
        put_sense(writer, attention.sense())?;
        put_filled(writer, b" before: {} is not\n", &[Token::Text(name)])?;
    }
    if note.is_early {
        put(
            writer,
            b"  the disk reports that before it looks at the reservation, which forbids the command\n",
        )?;
    }
    Ok(())
}

// That the item isn't legal, and what would have been in its place. The first of them is the one that an audit tells.
fn put_departure<W: Write>(
    writer: &mut W,
    nexuses: &[Nexus],
    item: &Item,
    departures: &[Departure],
    at: usize,
) -> Result<(), WriteFault> {
    let Some(departure) = departures.get(at) else {
        return Ok(());
    };
    if at > 0 {
        put(writer, b"then ")?;
    }
    let place = Token::Number(departure.place as u64);
    put_filled(writer, b"illegal {}: ", &[place])?;
    put_instead(writer, nexuses, item, &departure.instead)?;
    put(writer, b"\n")
}

// That the history is legal, or how many of its items aren't, if that is more than one.
fn put_count<W: Write>(
    writer: &mut W,
    history: &[Item],
    telling: &Telling,
) -> Result<(), WriteFault> {
    let count = telling.departures.len();
    if telling.illegal.is_none() {
        let items = Token::Number(history.len() as u64);
        return put_filled(writer, b"legal {}\n", &[items]);
    }
    if count < 2 {
        return Ok(());
    }
    let count = Token::Number(count as u64);
    put_filled(writer, b"illegal in all: {}\n", &[count])
}

fn put_instead<W: Write>(
    writer: &mut W,
    nexuses: &[Nexus],
    item: &Item,
    instead: &Instead,
) -> Result<(), WriteFault> {
    match (item, instead) {
        (Item::Sent(entry), _) => put_instead_of(
            writer,
            name_of(nexuses, entry.host),
            entry,
            instead,
        ),
        (Item::Reset, Instead::AtMost(most)) => put_most(writer, &[Token::Text(b"resets")], *most),
        (Item::Reset, _) => Ok(()),
    }
}

fn put_instead_of<W: Write>(
    writer: &mut W,
    name: &[u8],
    entry: &Entry,
    instead: &Instead,
) -> Result<(), WriteFault> {
    match instead {
        Instead::Answer(reply) => {
            put(writer, b"the model would have answered ")?;
            put_reply(writer, &entry.wire, reply)
        }
        Instead::Sending { line, command } => {
            let line = Token::Number(u64::from(*line));
            put_filled(
                writer,
                b"the script of {} is at line {}, and would have sent ",
                &[Token::Text(name), line],
            )?;
            put_command(writer, command)
        }
        Instead::Nothing(end) => put_nothing(writer, name, *end),
        Instead::NotModelled => put(writer, b"the model has no such command"),
        Instead::NotPermitted => put_filled(
            writer,
            b"the role of {} does not permit that this ends GOOD there",
            &[Token::Text(name)],
        ),
        Instead::AtMost(most) => {
            let word = if entry.reply.status == Status::Busy {
                b"busy"
            } else {
                b"full"
            };
            put_most(writer, &[Token::Text(word), Token::Text(name)], *most)
        }
        Instead::Bare => put(
            writer,
            b"such a reply has no sense and no data, and this one has",
        ),
    }
}

fn put_nothing<W: Write>(writer: &mut W, name: &[u8], end: End) -> Result<(), WriteFault> {
    match end {
        End::Stopped(word) => {
            put_filled(
                writer,
                b"the script of {} has stopped with the word",
                &[Token::Text(name)],
            )?;
            let word = word.as_str().as_bytes();
            put_filled(writer, b" {}, and sends nothing more", &[Token::Text(word)])
        }
        End::Ready(line) | End::Trapped(line) => put_filled(
            writer,
            b"the script of {} has no arm for the reply at line {}, and sends nothing more",
            &[Token::Text(name), Token::Number(u64::from(line))],
        ),
        End::Left(_) => Ok(()),
    }
}

// That the scenario has no line of these words, or how often such an item comes at most by that line.
fn put_most<W: Write>(
    writer: &mut W,
    declaring: &[Token<'_>],
    most: u32,
) -> Result<(), WriteFault> {
    if most == 0 {
        put(writer, b"the scenario has no line")?;
        return put_spaced(writer, declaring);
    }
    put(writer, b"the scenario declares")?;
    put_spaced(writer, declaring)?;
    let most = Token::Number(u64::from(most));
    put_filled(writer, b" {}, and no more", &[most])
}

fn put_ends<W: Write>(
    writer: &mut W,
    nexuses: &[Nexus],
    ends: &[End],
    counts: &[u32],
) -> Result<(), WriteFault> {
    for (nexus, (end, count)) in nexuses.iter().zip(ends.iter().zip(counts)) {
        put_end(writer, nexus.name.as_str().as_bytes(), *end, *count)?;
    }
    Ok(())
}
