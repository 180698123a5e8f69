//! Why that is so at the end of a run for which `fence never` was asked, in words.

use crate::moment::{FactShown, Grounds, Since, shown_by};
use crate::sheet::{Sheet, command_number, key};
use crate::together::put_premises;
use pr_cdb::Kind;
use pr_explore::{Fact, Sight};
use pr_output::{Token, WriteFault};
use pr_registry::{Held, kind_of};
use pr_roles::{Item, Scenario};
use pr_unit::Unit;
use std::io::Write;

/// Writes of each of these facts why it is so at the end of the run that goes on like this from this start, or why it isn't; and on
/// what that rests.
pub fn write_moment<W: Write>(
    writer: &mut W,
    scenario: &Scenario,
    start: &Unit,
    history: &[Item],
    facts: &[Fact],
) -> Result<(), WriteFault> {
    let mut sheet = Sheet::new(writer, &[], scenario);
    sheet.put(b"\n")?;
    for fact in facts {
        if let Some(shown) = shown_by(start, history, *fact) {
            put_head(&mut sheet, *fact, shown)?;
            put_reason(&mut sheet, *fact, shown.reason)?;
            sheet.put(b".\n")?;
        }
    }
    put_premises(&mut sheet)
}

// What is so, where that isn't said by its reason.
fn put_head<W: Write>(
    sheet: &mut Sheet<'_, W>,
    fact: Fact,
    shown: FactShown,
) -> Result<(), WriteFault> {
    let text: &[u8] = match (fact.sight, shown.is_so) {
        (Sight::Write, true) => b"A WRITE of {} would not be refused now: ",
        (Sight::Write, false) => b"A WRITE of {} would be refused now: ",
        (Sight::Read, true) => b"A READ of {} would not be refused now: ",
        (Sight::Read, false) => b"A READ of {} would be refused now: ",
        (Sight::Holder, false) => b"{} does not hold the reservation: ",
        (Sight::Holder, true) | (Sight::Registered, true | false) => return Ok(()),
    };
    sheet.say(text, &[Token::Text(sheet.name_of(fact.nexus))])
}

fn put_reason<W: Write>(
    sheet: &mut Sheet<'_, W>,
    fact: Fact,
    reason: Grounds,
) -> Result<(), WriteFault> {
    let nexus = fact.nexus;
    match reason {
        Grounds::Unreserved(since) => put_unreserved(sheet, nexus, since),
        Grounds::Holds { kind, since } => put_holds(sheet, nexus, kind, since),
        Grounds::Everybody { held } => put_everybody(sheet, held),
        Grounds::Registrant { held, key, since } => {
            put_key(sheet, nexus, key, since)?;
            put_under(sheet, fact.sight, held)?;
            sheet.put(to_registrants(fact.sight))
        }
        Grounds::Another {
            kind,
            holder,
            since,
        } => {
            put_holds(sheet, holder, kind, since)?;
            put_alone(sheet, fact.sight, kind)
        }
        Grounds::NoRegistrant { held, since } => {
            put_no_key(sheet, nexus, since)?;
            put_under(sheet, fact.sight, held)?;
            sheet.put(to_registrants_alone(fact.sight))
        }
        Grounds::Registered { key, since } => put_registered(sheet, nexus, key, since),
        Grounds::NotRegistered(since) => put_no_key(sheet, nexus, since),
    }
}

fn put_unreserved<W: Write>(
    sheet: &mut Sheet<'_, W>,
    nexus: u8,
    since: Since,
) -> Result<(), WriteFault> {
    match since {
        Since::Start => sheet.put(b"nothing is reserved at any time of this run"),
        Since::Command { place, by } => {
            sheet.put(b"nothing is reserved")?;
            put_since(sheet, nexus, place, by)?;
            sheet.put(b"ended the reservation")
        }
    }
}

// That somebody holds alone.
fn put_holds<W: Write>(
    sheet: &mut Sheet<'_, W>,
    holder: u8,
    kind: Kind,
    since: Since,
) -> Result<(), WriteFault> {
    let name = Token::Text(sheet.name_of(holder));
    sheet.say(
        b"{} holds the reservation of type {}",
        &[name, number_of(kind)],
    )?;
    match since {
        Since::Start => sheet.put(b" since the start"),
        Since::Command { place, .. } => sheet.say(b", by command {}", &[command_number(place)]),
    }
}

fn put_everybody<W: Write>(sheet: &mut Sheet<'_, W>, held: Held) -> Result<(), WriteFault> {
    match held {
        Held::One(kind, holder) => sheet.say(
            b"{} holds the reservation of type {}",
            &[Token::Text(sheet.name_of(holder)), number_of(kind)],
        )?,
        Held::All(kind) => sheet.say(
            b"all registrants hold the reservation of type {}",
            &[number_of(kind)],
        )?,
    }
    sheet.put(b", and types 1, 5 and 7 let everybody read")
}

// That the nexus has this key, in a sentence that goes on.
fn put_key<W: Write>(
    sheet: &mut Sheet<'_, W>,
    nexus: u8,
    of: u64,
    since: Since,
) -> Result<(), WriteFault> {
    let name = Token::Text(sheet.name_of(nexus));
    sheet.say(b"{} has the key {}", &[name, key(of)])?;
    match since {
        Since::Start => sheet.put(b" since the start"),
        Since::Command { place, .. } => {
            sheet.say(b", which command {} registered", &[command_number(place)])
        }
    }
}

fn put_registered<W: Write>(
    sheet: &mut Sheet<'_, W>,
    nexus: u8,
    of: u64,
    since: Since,
) -> Result<(), WriteFault> {
    let name = Token::Text(sheet.name_of(nexus));
    sheet.say(b"{} is registered with the key {}", &[name, key(of)])?;
    match since {
        Since::Start => sheet.put(b" since the start"),
        Since::Command { place, .. } => sheet.say(b", by command {}", &[command_number(place)]),
    }
}

fn put_no_key<W: Write>(
    sheet: &mut Sheet<'_, W>,
    nexus: u8,
    since: Since,
) -> Result<(), WriteFault> {
    let name = Token::Text(sheet.name_of(nexus));
    match since {
        Since::Start => sheet.say(b"{} is not registered at any time of this run", &[name]),
        Since::Command { place, by } => {
            sheet.say(b"{} is not registered", &[name])?;
            put_since(sheet, nexus, place, by)?;
            sheet.put(if by == nexus {
                b"ended its registration".as_slice()
            } else {
                b"took its registration away"
            })
        }
    }
}

// The command that has made it so, in a sentence that goes on with what it did.
fn put_since<W: Write>(
    sheet: &mut Sheet<'_, W>,
    nexus: u8,
    place: usize,
    by: u8,
) -> Result<(), WriteFault> {
    let name = Token::Text(sheet.name_of(by));
    let text: &[u8] = if by == nexus {
        b", since command {}, by {} itself, "
    } else {
        b", since command {}, by {}, "
    };
    sheet.say(text, &[command_number(place), name])
}

// The reservation that stands, and who holds it where one alone does.
fn put_under<W: Write>(
    sheet: &mut Sheet<'_, W>,
    sight: Sight,
    held: Held,
) -> Result<(), WriteFault> {
    match (sight, held) {
        (Sight::Write | Sight::Read, Held::One(kind, holder)) => sheet.say(
            b", and under type {}, which {} holds, ",
            &[number_of(kind), Token::Text(sheet.name_of(holder))],
        ),
        (Sight::Write | Sight::Read, Held::All(kind)) => sheet.say(
            b", and under type {}, which all registrants hold, ",
            &[number_of(kind)],
        ),
        // (what follows says who holds)
        (Sight::Holder | Sight::Registered, Held::One(..) | Held::All(_)) => {
            sheet.say(b", and under type {} ", &[number_of(kind_of(held))])
        }
    }
}

fn to_registrants(sight: Sight) -> &'static [u8] {
    match sight {
        Sight::Write => b"every registrant may write",
        Sight::Read => b"every registrant may read",
        Sight::Holder | Sight::Registered => b"every registrant holds the reservation",
    }
}

fn to_registrants_alone(sight: Sight) -> &'static [u8] {
    match sight {
        Sight::Write => b"registrants alone may write",
        Sight::Read => b"registrants alone may read",
        Sight::Holder | Sight::Registered => b"registrants alone hold the reservation",
    }
}

// To whom a type leaves what another than the holder asks for.
fn put_alone<W: Write>(
    sheet: &mut Sheet<'_, W>,
    sight: Sight,
    kind: Kind,
) -> Result<(), WriteFault> {
    let text: &[u8] = match sight {
        Sight::Write => b", and under type {} the holder alone may write",
        Sight::Read => b", and under type {} the holder alone may read",
        Sight::Holder | Sight::Registered => return Ok(()),
    };
    sheet.say(text, &[number_of(kind)])
}

fn number_of(kind: Kind) -> Token<'static> {
    Token::Number(u64::from(kind.code()))
}
