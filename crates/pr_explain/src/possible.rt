//! What a host can know at a send, in words.

ghost use Rattle.std.specs.Prelude.{◌<◌};

use crate::refused_send::RefusedSend;
use crate::sheet::{Sheet, key};
use pr_attention::Attention;
use pr_output::{Token, WriteFault};
use pr_views::{ATTENTION_SETS, View, count_of_reservations, is_among, reservation_at};
use pr_words::{put_held, put_sense};
use std::io::Write;

/// Writes what is possible when it is sent: the registrations of each nexus, the reservations, and what waits for the host. Each
/// list stands by itself.
pub(crate) fn put_possible<W: Write>(
    sheet: &mut Sheet<'_, W>,
    send: RefusedSend<'_>,
) -> Result<(), WriteFault> {
    for nexus in 0..send.view.hosts {
        put_registrations(sheet, send.view, nexus)?;
    }
    put_reservations(sheet, send.view)?;
    put_waiting(sheet, send.nexus.name.as_str().as_bytes(), send.view)
}

// With what the nexus may be registered: 0 stands for nothing, and each key for its place from 1 on.
fn put_registrations<W: Write>(
    sheet: &mut Sheet<'_, W>,
    view: &View,
    nexus: u8,
) -> Result<(), WriteFault>
    requires { nexus < view.now.hosts }
{
    sheet.say(b"  {}", &[Token::Text(sheet.name_of(nexus))])?;
    let mut before = b"".as_slice();
    if view.has_registration(nexus, 0) {
        sheet.put(b" is not registered")?;
        before = b", or";
    }
    for (number, known) in (1..u8::MAX).zip(view.keys.iter()) {
        if view.has_registration(nexus, number) {
            sheet.say(b"{} has {}", &[Token::Text(before), key(*known)])?;
            before = b", or";
        }
    }
    sheet.put(b"\n")
}

fn put_reservations<W: Write>(sheet: &mut Sheet<'_, W>, view: &View) -> Result<(), WriteFault> {
    let hosts = view.hosts;
    let mut before = b"  ".as_slice();
    for number in 0..count_of_reservations(hosts) {
        if view.has_reservation(number) {
            sheet.put(before)?;
            put_held(
                &mut sheet.writer,
                sheet.nexuses,
                reservation_at(hosts, number),
            )?;
            before = b", or ";
        }
    }
    sheet.put(b"\n")
}

// What may be pending for the host of this name, by the number of each set of attentions.
fn put_waiting<W: Write>(
    sheet: &mut Sheet<'_, W>,
    owner: &[u8],
    view: &View,
) -> Result<(), WriteFault> {
    let mut is_first = true;
    for number in 0..ATTENTION_SETS {
        if view.has_pending(number) {
            sheet.put(if is_first { b" " } else { b", or" })?;
            put_attentions(sheet, number)?;
            if is_first {
                sheet.say(b" pending for {}", &[Token::Text(owner)])?;
            }
            is_first = false;
        }
    }
    sheet.put(b"\n")
}

/// Writes which attentions are, or that nothing is, to be followed by for whom they are pending.
pub(crate) fn put_attentions<W: Write>(
    sheet: &mut Sheet<'_, W>,
    attentions: u8,
) -> Result<(), WriteFault> {
    if attentions == 0 {
        return sheet.put(b" nothing is");
    }
    let mut before = b" ".as_slice();
    for attention in Attention::ALL {
        if is_among(attention, attentions) {
            sheet.put(before)?;
            put_sense(&mut sheet.writer, attention.sense())?;
            before = b" and ";
        }
    }
    sheet.put(if attentions.count_ones() == 1 {
        b" is".as_slice()
    } else {
        b" are"
    })
}
