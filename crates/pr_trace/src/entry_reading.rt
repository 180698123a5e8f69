//! The entry that a line of a trace says.

ghost use Rattle.std.specs.Prelude.{◌≡◌, ◌==◌, ◌++◌, ◌≤◌, ◌<◌, [], codes, length, position, bytes_eq, ◌&&◌, IfSome};
ghost use Rattle.pr_cdb.specs.declared.codes.TheConstants.{MOST_NEXUSES};
ghost use Rattle.pr_trace.specs.TraceText.{names_of};
ghost use Rattle.std.specs.Fmt.{decimal};
ghost use Rattle.pr_trace.specs.declared.versions.TheConstants.{MOST_ITEMS_2};
ghost use Rattle.pr_trace.specs.EntryWords.{bytes_in, sense_of, sense_under, no_sense_in};
ghost use Rattle.pr_script.specs.Names.{is_name};
ghost use Rattle.pr_trace.specs.TraceReadings.{item_on, is_reset_on, number_of, words, sent_on};
ghost use Rattle.pr_trace.specs.inside.SevenWords.{answer_in, AreSeven, TakesFirst, TellsBytes};

use crate::ahead::MOST_LINE_BYTES;
use crate::status::status_in;
use crate::trace_error::TraceError;
use crate::versions::{has_resets, most_data, most_items};
use arrayvec::ArrayVec;
use itoa::Buffer;
use pr_cdb::codes::{FIXED_SENSE_LENGTH, MOST_CDB_LENGTH, PARAMETER_LIST_LENGTH};
use pr_cdb::{Reply, Sense, Status, Wire, decode_sense, encode_sense};
use pr_roles::{Entry, Item, Nexus};
use pr_script::{byte_of, is_name};

// The words of an entry's line.
#[derive(Clone, Copy)]
pub(crate) struct EntryWords<'a> {
    index: &'a [u8],
    name: &'a [u8],
    cdb: &'a [u8],
    params: &'a [u8],
    status: &'a [u8],
    sense: &'a [u8],
    bytes: &'a [u8],
}

/// The item with this index, which counts from 1, or what is wrong with its line in a trace of this version.
#[tactic(auto, unfolding(crate::specs::TraceReadings::item_on))]
pub(crate) fn item_on(
    version: u8,
    nexuses: &[Nexus],
    index: u32,
    line: &[u8],
) -> Result<Item, TraceError>
    requires { length nexuses.now ≤ MOST_NEXUSES }
    ensures { result ≡ item_on version (names_of nexuses.now) index line.now }
{
    if index > most_items(version) {
        return Err(TraceError::TooLong);
    }
    if line.len() > MOST_LINE_BYTES {
        return Err(TraceError::Syntax { line: index + 1 });
    }
    if is_reset_on(version, index, line) {
        return Ok(Item::Reset);
    }
    sent_on(version, nexuses, index, line)
}

// Whether the line says that the unit was reset, in a version that has resets.
#[tactic(auto, unfolding(crate::specs::TraceReadings::is_reset_on))]
fn is_reset_on(version: u8, index: u32, line: &[u8]) -> bool
    ensures { result ≡ is_reset_on version index line.now }
{
    has_resets(version) && is_reset_line(index, line)
}

fn is_reset_line(index: u32, line: &[u8]) -> bool
    ensures { result ≡ bytes_eq line.now (decimal index ++ codes " reset") }
{
    match line.strip_prefix(Buffer::new().format(index).as_bytes()) {
        Some(rest) => rest == " reset".as_bytes(),
        None => false,
    }
}

// The item of a command that the line says.
#[tactic(auto, unfolding(crate::specs::TraceReadings::entry_on, crate::specs::EntryWords::exchange_in))]
fn sent_on(version: u8, nexuses: &[Nexus], index: u32, line: &[u8]) -> Result<Item, TraceError>
    requires few { length nexuses.now ≤ MOST_NEXUSES }
    requires index { index ≤ MOST_ITEMS_2 }
    ensures { result ≡ sent_on version (names_of nexuses.now) index line.now }
{
    let number = index + 1;
    let Some(words) = seven_words(line) else {
        return Err(TraceError::Syntax { line: number });
    };
    if !is_named(index, &words) {
        return Err(TraceError::Syntax { line: number });
    }
    let Some((status, sense)) = answer_in(version, words.status, words.sense) else {
        return Err(TraceError::Syntax { line: number });
    };
    let mut wire = Wire {
        cdb: ArrayVec::new(),
        params: ArrayVec::new(),
    };
    if !bytes_into(MOST_CDB_LENGTH, words.cdb, &mut wire.cdb)
        || !bytes_into(PARAMETER_LIST_LENGTH, words.params, &mut wire.params)
        || wire.cdb.is_empty()
    {
        return Err(TraceError::Syntax { line: number });
    }
    let mut reply = Reply {
        status,
        sense,
        bytes: ArrayVec::new(),
    };
    if !bytes_into(most_data(version), words.bytes, &mut reply.bytes) {
        return Err(TraceError::Syntax { line: number });
    }
    let Some(host) = number_of(nexuses, words.name) else {
        return Err(TraceError::UnknownName { line: number });
    };
    Ok(Item::Sent(Entry { host, wire, reply }))
}

// The line's words, if there are just seven.
fn seven_words(line: &[u8]) -> Option<EntryWords<'_>>
    ensures { AreSeven (words line.now) result }
{
    let (index, rest) = next_word(Some(line))?;
    let (name, rest) = next_word(rest)?;
    let (cdb, rest) = next_word(rest)?;
    let (params, rest) = next_word(rest)?;
    let (status, rest) = next_word(rest)?;
    let (sense, rest) = next_word(rest)?;
    let (bytes, rest) = next_word(rest)?;
    if rest.is_some() {
        return None;
    }
    Some(EntryWords {
        index,
        name,
        cdb,
        params,
        status,
        sense,
        bytes,
    })
}

// The first word of what is left, and what stands behind the space after it.
fn next_word(rest: Option<&[u8]>) -> Option<(&[u8], Option<&[u8]>)>
    ensures { TakesFirst rest.entry result }
{
    let line = rest?;
    match space_in(line) {
        Some(end) => Some((&line[..end], Some(&line[end + 1..]))),
        None => Some((line, None)),
    }
}

fn space_in(line: &[u8]) -> Option<usize>
    ensures { result ≡ position (λ b. b == 32) line.now }
{
    line.iter().position(|byte| *byte == b' ')
}

// Whether the words begin as those of the entry with this index do.
fn is_named(index: u32, words: &EntryWords<'_>) -> bool
    ensures { result ≡ (bytes_eq words.now.index.now (decimal index)
        && is_name words.now.name.now) }
{
    words.index == Buffer::new().format(index).as_bytes() && is_name(words.name)
}

// The status and the sense of the answer.
fn answer_in(version: u8, status: &[u8], sense: &[u8]) -> Option<(Status, Option<Sense>)>
    ensures { result ≡ answer_in version status.now sense.now }
{
    let status = status_in(version, status)?;
    let mut bytes = ArrayVec::<u8, FIXED_SENSE_LENGTH>::new();
    if !bytes_into(FIXED_SENSE_LENGTH, sense, &mut bytes) {
        return None;
    }
    let sense = sense_under(status, bytes.as_slice())?;
    Some((status, sense))
}

// With CHECK CONDITION a sense is there, and with no other status.
fn sense_under(status: Status, bytes: &[u8]) -> Option<Option<Sense>>
    ensures { result ≡ sense_under status bytes.now }
{
    match status {
        Status::CheckCondition => Some(Some(sense_of(bytes)?)),
        _ => no_sense_in(bytes),
    }
}

fn no_sense_in(bytes: &[u8]) -> Option<Option<Sense>>
    ensures { result ≡ no_sense_in bytes.now }
{
    if bytes.is_empty() { Some(None) } else { None }
}

// The sense that is written as just these bytes.
fn sense_of(bytes: &[u8]) -> Option<Sense>
    ensures { result ≡ sense_of bytes.now }
{
    let sense = decode_sense(bytes)?;
    if bytes == encode_sense(&sense).as_slice() {
        Some(sense)
    } else {
        None
    }
}

// Reads the bytes that the word writes, so many at most, where the caller wants them: a reply has room for 136 bytes, and
// each function that handed it on would copy them.
#[tactic(auto, unfolding(crate::specs::EntryWords::bytes_in))]
fn bytes_into<const N: usize>(most: usize, word: &[u8], bytes: &mut ArrayVec<u8, N>) -> bool
    requires room { most ≤ N }
    requires empty { bytes.old.items ≡ [] }
    ensures { TellsBytes (bytes_in most word.now) bytes.new.items result }
{
    if is_dash(word) {
        return true;
    }
    let (pairs, rest) = word.as_chunks::<2>();
    if pairs.is_empty() || pairs.len() > most || !rest.is_empty() {
        return false;
    }
    for pair in pairs {
        let Some(byte) = byte_of(pair[0], pair[1]) else {
            return false;
        };
        bytes.push(byte);
    }
    true
}

fn is_dash(word: &[u8]) -> bool
    ensures { result ≡ bytes_eq word.now (codes "-") }
{
    word.len() == 1 && word[0] == b'-'
}

/// The number of the nexus with this name, as a trace or the steps of a replay have it.
pub fn number_of(nexuses: &[Nexus], name: &[u8]) -> Option<u8>
    requires { length nexuses.now ≤ MOST_NEXUSES }
    ensures number { result ≡ number_of (names_of nexuses.now) name.now }
    ensures there { IfSome result (λ host. host < length nexuses.now) }
{
    let host = place_of(nexuses, name)?;
    Some(host as u8)
}

fn place_of(nexuses: &[Nexus], name: &[u8]) -> Option<usize>
    ensures place { result ≡ position (λ nexus. bytes_eq nexus.name.bytes name.now) nexuses.now }
    ensures there { IfSome result (λ place. place < length nexuses.now) }
{
    nexuses
        .iter()
        .position(|nexus| nexus.name.as_str().as_bytes() == name)
}
