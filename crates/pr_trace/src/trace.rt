//! The text of a trace.

ghost use Rattle.std.specs.Prelude.{◌≡◌, ◌∷◌, [], codes, map, slice_index};
ghost use Rattle.pr_registry.specs.Registrations.{key_of};
ghost use Rattle.pr_roles.specs.Scenarios.{scenario_of};
ghost use Rattle.pr_audit.specs.Ends.{ending_of};
ghost use Rattle.pr_trace.specs.inside.WordsWritten.{WritesWords};
ghost use Rattle.pr_output.specs.Written.{Writes};
ghost use Rattle.pr_trace.specs.inside.FrontsWritten.{WritesPaged, Adds};
ghost use Rattle.pr_trace.specs.inside.TraceLines.{line_text};
ghost use Rattle.std.specs.Bool.{OnTrue, OnFalse};
ghost use Rattle.std.specs.Fmt.{decimal};
ghost use Rattle.pr_output.specs.Printed.{printed_word};
ghost use Rattle.pr_output.specs.PrintedLines.{line};
ghost use Rattle.pr_trace.specs.TraceText.{ending_line, ending_lines, entry_line, held_word, item_line, item_lines, name_of, names_of, registration_words, reset_line, sense_data, trace_body, trace_text, unit_line, names_under};

use crate::first_line::put_first;
use crate::page::Page;
use crate::status::status_word;
use arrayvec::ArrayVec;
use pr_audit::End;
use pr_cdb::codes::FIXED_SENSE_LENGTH;
use pr_cdb::{Sense, encode_sense};
use pr_output::{Token, WriteFault, put, put_after_space, put_line, put_spaced, put_word};
use pr_registry::{Held, Registry};
use pr_roles::{Entry, Item, Nexus, Scenario};
use pr_unit::Unit;
use std::io::Write;

/// A line of a trace.
#[derive(Clone, Copy)]
pub(crate) enum TraceLine<'a> {
    /// The one above all others, of this version.
    First(u8),

    /// The item that has this index.
    Item(u64, &'a Item),

    /// The unit as it is at last.
    Unit(&'a Registry),

    /// How the nexus of this name ended, and how many of its commands reached the unit.
    End(&'a [u8], End, u32),
}

/// Writes the trace of a scenario: what happened to the unit, the unit as it is at last, how each nexus stands,
/// and how many commands of each reached the unit. On a fault, what went out is a front of it, and not all.
/// A trace has the version of its scenario.
///
/// The ends and the counts stand in the order of the hosts' and guests' numbers. The writer is handed as many
/// lines a call as a page holds, and is not called again once it has failed.
pub fn write_trace<W: Write>(
    writer: &mut W,
    scenario: &Scenario,
    history: &[Item],
    unit: &Unit,
    ends: &[End],
    counts: &[u32],
) -> Result<(), WriteFault>
    ensures { Writes W.Write writer (trace_text (scenario_of scenario.now).version
        (names_under scenario.now) history.now unit.now.registry (map ending_of ends.now)
        counts.now) result }
{
    let parts = scenario.parts();
    put_trace(
        writer,
        parts.version,
        &parts.nexuses,
        history,
        unit.registry(),
        ends,
        counts,
    )
}

fn put_trace<W: Write>(
    writer: &mut W,
    version: u8,
    nexuses: &[Nexus],
    history: &[Item],
    unit: &Registry,
    ends: &[End],
    counts: &[u32],
) -> Result<(), WriteFault>
    ensures { Writes W.Write writer (trace_text version (names_of nexuses.now) history.now unit.now
        (map ending_of ends.now) counts.now) result }
{
    let mut page = Page::new();
    add_line(writer, &mut page, nexuses, &TraceLine::First(version))?;
    add_body(writer, &mut page, nexuses, history, unit, ends, counts)?;
    put(writer, page.as_slice())
}

/// Writes the lines of a trace below its first one, in the same way.
pub fn write_trace_body<W: Write>(
    writer: &mut W,
    scenario: &Scenario,
    history: &[Item],
    unit: &Unit,
    ends: &[End],
    counts: &[u32],
) -> Result<(), WriteFault>
    ensures { Writes W.Write writer (trace_body (names_under scenario.now) history.now
        unit.now.registry (map ending_of ends.now) counts.now) result }
{
    put_trace_body(
        writer,
        &scenario.parts().nexuses,
        history,
        unit.registry(),
        ends,
        counts,
    )
}

fn put_trace_body<W: Write>(
    writer: &mut W,
    nexuses: &[Nexus],
    history: &[Item],
    unit: &Registry,
    ends: &[End],
    counts: &[u32],
) -> Result<(), WriteFault>
    ensures { Writes W.Write writer (trace_body (names_of nexuses.now) history.now unit.now
        (map ending_of ends.now) counts.now) result }
{
    let mut page = Page::new();
    add_body(writer, &mut page, nexuses, history, unit, ends, counts)?;
    put(writer, page.as_slice())
}

// The items, the unit and the ends.
fn add_body<W: Write>(
    writer: &mut W,
    page: &mut Page,
    nexuses: &[Nexus],
    history: &[Item],
    unit: &Registry,
    ends: &[End],
    counts: &[u32],
) -> Result<(), WriteFault>
    ensures { WritesPaged W.Write writer page
        (trace_body (names_of nexuses.now) history.now unit.now (map ending_of ends.now) counts.now)
        result }
{
    add_items(writer, page, nexuses, history)?;
    add_line(writer, page, nexuses, &TraceLine::Unit(unit))?;
    add_ends(writer, page, nexuses, ends, counts)
}

fn add_items<W: Write>(
    writer: &mut W,
    page: &mut Page,
    nexuses: &[Nexus],
    history: &[Item],
) -> Result<(), WriteFault>
    ensures { WritesPaged W.Write writer page (item_lines 0 (names_of nexuses.now) history.now)
        result }
{
    for (others, item) in history.iter().enumerate() {
        let line = TraceLine::Item(others as u64 + 1, item);
        add_line(writer, page, nexuses, &line)?;
    }
    Ok(())
}

fn add_ends<W: Write>(
    writer: &mut W,
    page: &mut Page,
    nexuses: &[Nexus],
    ends: &[End],
    counts: &[u32],
) -> Result<(), WriteFault>
    ensures { WritesPaged W.Write writer page
        (ending_lines 0 (names_of nexuses.now) counts.now (map ending_of ends.now)) result }
{
    for (host, end) in ends.iter().enumerate() {
        let line = TraceLine::End(name_of(nexuses, host), *end, count_of(counts, host));
        add_line(writer, page, nexuses, &line)?;
    }
    Ok(())
}

// Puts the line on the page. A page that has no room for it goes out first.
fn add_line<W: Write>(
    writer: &mut W,
    page: &mut Page,
    nexuses: &[Nexus],
    line: &TraceLine<'_>,
) -> Result<(), WriteFault>
    ensures { WritesPaged W.Write writer page (line_text (names_of nexuses.now) line.now) result }
{
    if has_added(page, nexuses, line) {
        return Ok(());
    }
    put(writer, page.as_slice())?;
    page.clear();
    if has_added(page, nexuses, line) {
        return Ok(());
    }
    put_trace_line(writer, nexuses, line)
}

// Whether the page had room for the line, which is on it then.
fn has_added(page: &mut Page, nexuses: &[Nexus], line: &TraceLine<'_>) -> bool
    ensures added { OnTrue result (Adds page (line_text (names_of nexuses.now) line.now)) }
    ensures full { OnFalse result (page.new.items ≡ page.old.items) }
{
    let before = page.len();
    let is_added = put_trace_line(page, nexuses, line).is_ok();
    if !is_added {
        page.truncate(before);
    }
    is_added
}

fn put_trace_line<W: Write>(
    writer: &mut W,
    nexuses: &[Nexus],
    line: &TraceLine<'_>,
) -> Result<(), WriteFault>
    ensures { Writes W.Write writer (line_text (names_of nexuses.now) line.now) result }
{
    match line {
        TraceLine::First(version) => put_first(writer, *version),
        TraceLine::Item(index, item) => put_item(writer, *index, nexuses, item),
        TraceLine::Unit(unit) => put_unit(writer, nexuses, unit),
        TraceLine::End(name, end, sent) => put_end(writer, name, *end, *sent),
    }
}

fn put_item<W: Write>(
    writer: &mut W,
    index: u64,
    nexuses: &[Nexus],
    item: &Item,
) -> Result<(), WriteFault>
    ensures { Writes W.Write writer (item_line index (names_of nexuses.now) item.now) result }
{
    match item {
        Item::Sent(entry) => put_entry(writer, index, nexuses, entry),
        Item::Reset => put_reset(writer, index),
    }
}

#[tactic(auto, unfolding(crate::specs::TraceText::reset_line, pr_output::specs::Printed::printed_word))]
fn put_reset<W: Write>(writer: &mut W, index: u64) -> Result<(), WriteFault>
    ensures { Writes W.Write writer (reset_line index) result }
{
    put_line(writer, Token::Number(index), &[Token::Text(b"reset")])
}

#[tactic(auto, unfolding(crate::specs::TraceText::entry_line, pr_output::specs::Printed::printed_word))]
fn put_entry<W: Write>(
    writer: &mut W,
    index: u64,
    nexuses: &[Nexus],
    entry: &Entry,
) -> Result<(), WriteFault>
    ensures { Writes W.Write writer (entry_line index (names_of nexuses.now) entry.now) result }
{
    let sense = sense_data(entry.reply.sense);
    let words = [
        Token::Text(name_of(nexuses, usize::from(entry.host))),
        Token::Bytes(entry.wire.cdb.as_slice()),
        Token::Bytes(entry.wire.params.as_slice()),
        Token::Text(status_word(entry.reply.status)),
        Token::Bytes(sense.as_slice()),
        Token::Bytes(entry.reply.bytes.as_slice()),
    ];
    put_line(writer, Token::Number(index), &words)
}

/// The name of a nexus, by its number.
pub fn name_of(nexuses: &[Nexus], host: usize) -> &[u8]
    ensures { result.now ≡ name_of (names_of nexuses.now) host }
{
    match nexuses.get(host) {
        Some(nexus) => nexus.name.as_str().as_bytes(),
        None => b"",
    }
}

fn sense_data(sense: Option<Sense>) -> ArrayVec<u8, FIXED_SENSE_LENGTH>
    ensures { result.items ≡ sense_data sense }
{
    match sense {
        Some(sense) => ArrayVec::from(encode_sense(&sense)),
        None => ArrayVec::new(),
    }
}

fn put_unit<W: Write>(writer: &mut W, nexuses: &[Nexus], unit: &Registry) -> Result<(), WriteFault>
    ensures { Writes W.Write writer (unit_line (names_of nexuses.now) unit.now) result }
{
    put_word(writer, Token::Text(b"unit"))?;
    put_spaced(
        writer,
        &[
            Token::Generation(unit.generation()),
            held_word(nexuses, unit.held()),
        ],
    )?;
    put_registrations(writer, nexuses, unit)?;
    put(writer, b"\n")
}

#[tactic(auto, unfolding(pr_output::specs::Printed::printed_word))]
fn put_registrations<W: Write>(
    writer: &mut W,
    nexuses: &[Nexus],
    unit: &Registry,
) -> Result<(), WriteFault>
    ensures { WritesWords W.Write writer (registration_words unit.now 0 (names_of nexuses.now))
        result }
{
    for (host, nexus) in nexuses.iter().enumerate() {
        put_after_space(
            writer,
            Token::Registration(nexus.name.as_str().as_bytes(), key_of(unit, host)),
        )?;
    }
    Ok(())
}

// A host that the unit does not have has no key.
fn key_of(unit: &Registry, host: usize) -> Option<u64>
    ensures { result ≡ key_of unit.now host }
{
    if host < usize::from(unit.hosts()) {
        unit.key(host as u8)
    } else {
        None
    }
}

/// The word for a reservation: its type and holder, as `5:a`, or its type, or `none`.
#[tactic(auto, unfolding(pr_output::specs::Printed::printed_word))]
pub fn held_word(nexuses: &[Nexus], held: Option<Held>) -> Token<'_>
    ensures { printed_word result ≡ held_word (names_of nexuses.now) held }
{
    match held {
        None => Token::Text(b"none"),
        Some(Held::One(kind, host)) => Token::Holder(kind, name_of(nexuses, usize::from(host))),
        Some(Held::All(kind)) => Token::Number(u64::from(kind.code())),
    }
}

// A nexus that has no count sent nothing.
fn count_of(counts: &[u32], host: usize) -> u32
    ensures { result ≡ slice_index counts.now host }
{
    match counts.get(host) {
        Some(count) => *count,
        None => 0,
    }
}

#[tactic(auto, unfolding(crate::specs::TraceText::ending_line, pr_output::specs::Printed::printed_word))]
fn put_end<W: Write>(writer: &mut W, name: &[u8], end: End, sent: u32) -> Result<(), WriteFault>
    ensures { Writes W.Write writer (ending_line name.now (ending_of end) sent) result }
{
    match end {
        End::Stopped(word) => {
            let word = Token::Text(word.as_str().as_bytes());
            put_ending(writer, b"host", name, b"stopped", word, sent)
        }
        End::Ready(line) => {
            let line = Token::Number(u64::from(line));
            put_ending(writer, b"host", name, b"ready", line, sent)
        }
        End::Trapped(line) => {
            let line = Token::Number(u64::from(line));
            put_ending(writer, b"host", name, b"trapped", line, sent)
        }
        End::Left(planned) => {
            let planned = Token::Number(u64::from(planned));
            put_ending(writer, b"guest", name, b"left", planned, sent)
        }
    }
}

#[tactic(auto, unfolding(pr_output::specs::Printed::printed_word))]
fn put_ending<'a, W: Write>(
    writer: &mut W,
    role: &'a [u8],
    name: &'a [u8],
    how: &'a [u8],
    what: Token<'a>,
    sent: u32,
) -> Result<(), WriteFault>
    ensures { Writes W.Write writer (line role.now
        (name.now ∷ how.now ∷ printed_word what.entry ∷ codes "sent" ∷ decimal sent ∷ [])) result }
{
    put_line(
        writer,
        Token::Text(role),
        &[
            Token::Text(name),
            Token::Text(how),
            what,
            Token::Text(b"sent"),
            Token::Number(u64::from(sent)),
        ],
    )
}
