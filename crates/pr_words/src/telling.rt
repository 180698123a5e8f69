//! What is told of a history: beside each item, and in place of the first that isn't legal.

ghost use Rattle.std.specs.Prelude.{◌≡◌, ◌<◌, [], true, length, IfOk};
ghost use Rattle.pr_roles.specs.Scenarios.{scenario_of};
ghost use Rattle.pr_audit.specs.Auditors.{ActFor, world_at};
ghost use Rattle.pr_words.specs.Tellings.{IsTold};

use crate::adopting::adopt;
use crate::unseen::{fetched_before, is_early};
use pr_attention::Pending;
use pr_audit::{AuditError, Auditor, End, audit, counts_of, refused};
use pr_cdb::{Command, Reply, Status, decode, encode};
use pr_roles::{Entry, How, Item, Nexus, Scenario, first_start, nexus_in, permits};
use pr_unit::Unit;
use std::alloc::{AllocError, Global};

/// The most items of a history whose commands are counted: as many as a trace may have.
const MOST_ITEMS: usize = 66_536;

/// What stands beside an item.
#[derive(Drop)]
pub struct Note {
    /// The line of the send that it is a command of.
    pub line: Option<u32>,

    /// It is a host's command that ended GOOD, which its role does not permit at that moment.
    pub is_out_of_role: bool,

    /// What somebody else on the path of its sender was told of, so that the sender was not.
    pub fetched: Pending,

    /// It is a report that came before the unit looked at the reservation.
    pub is_early: bool,

    /// Which of the departures it is, where it isn't legal.
    pub departure: Option<usize>,

    /// How the script of its sender is over with it, if it is.
    pub end: Option<End>,
}

impl Note {
    // Nothing stands beside the item but the line of the send that it is a command of.
    fn at(line: Option<u32>) -> Note {
        Note {
            line,
            is_out_of_role: false,
            fetched: Pending::new(),
            is_early: false,
            departure: None,
            end: None,
        }
    }
}

/// What would have been in place of an item that isn't legal.
#[derive(Drop)]
pub enum Instead {
    /// The model would have answered so.
    Answer(Reply),

    /// The host's script would have sent this, from this line.
    Sending { line: u32, command: Command },

    /// The host sends nothing more.
    Nothing(End),

    /// The bytes are no command that the model knows.
    NotModelled,

    /// The guest's role does not permit that such a command ends GOOD.
    NotPermitted,

    /// Such a refusal, or a reset, comes so often at most.
    AtMost(u32),

    /// Such a refusal comes without sense and data.
    Bare,
}

/// An item that isn't legal: the first, or one behind it, where all that was answered before is taken as it is.
#[derive(Drop)]
pub struct Departure {
    /// The place of the item, counted from 1.
    pub place: usize,

    /// What would have been in its place.
    pub instead: Instead,
}

/// A history as it is told.
#[derive(Drop)]
pub struct Telling {
    /// The place of the first item that isn't legal, counted from 1.
    pub illegal: Option<usize>,

    /// What stands beside each item.
    pub notes: Vec<Note>,

    /// The items that aren't legal, in order.
    pub departures: Vec<Departure>,

    /// The unit as it is at the end, where the answers are taken as they are.
    pub unit: Unit,

    /// How each nexus stands there.
    pub ends: Vec<End>,

    /// How many commands of each reached the unit.
    pub counts: Vec<u32>,
}

/// What is told of this history of the scenario, from its first start.
pub fn telling_of(
    alloc: Global,
    scenario: &Scenario,
    history: &[Item],
) -> Result<Telling, AllocError>
    ensures { IfOk result (λ telling. IsTold (scenario_of scenario.now) history.now
        telling.illegal) }
{
    let illegal = match audit(alloc, scenario, history) {
        Ok(()) => None,
        Err(AuditError::Illegal { place }) => Some(place),
        Err(AuditError::Memory) => return Err(AllocError),
    };
    let mut telling = telling_from(alloc, scenario, history, first_start(scenario))?;
    telling.illegal = illegal;
    Ok(telling)
}

/// What is told of this history of the scenario, from this unit. Of its items nothing is proved.
pub fn telling_from(
    alloc: Global,
    scenario: &Scenario,
    history: &[Item],
    start: Unit,
) -> Result<Telling, AllocError>
    requires { start.registry.hosts ≡ length (scenario_of scenario.now).nexuses }
{
    let mut auditor = Auditor::from_start(alloc, scenario, start)?;
    let (notes, departures) = follow(alloc, &mut auditor, scenario, history)?;
    let told = history.len().min(notes.len()).min(MOST_ITEMS);
    let ends = ends_of(alloc, &auditor, scenario)?;
    let counts = counts_of(alloc, &history[..told], scenario.parts().nexuses.len())?;
    let unit = auditor.unit().copy();
    Ok(Telling {
        illegal: departures.first().map(|it| it.place),
        notes,
        departures,
        unit,
        ends,
        counts,
    })
}

// What stands beside each item, and what would have been in place of each that may not come. Behind such a one it goes on as if
// the answer had been right.
fn follow(
    alloc: Global,
    auditor: &mut Auditor,
    scenario: &Scenario,
    history: &[Item],
) -> Result<(Vec<Note>, Vec<Departure>), AllocError>
    requires { ActFor (scenario_of scenario.now) (world_at auditor.old []) }
    ensures { ActFor (scenario_of scenario.now) (world_at auditor.new []) }
{
    let mut notes = Vec::new(alloc);
    let mut departures = Vec::new(alloc);
    for (index, item) in history.iter().enumerate() {
        let before = &history[..index];
        let mut note = pass_item(alloc, auditor, scenario, before, item, &mut departures)?;
        if note.line.is_some() {
            note.end = end_with(auditor, scenario, item);
        }
        notes.push(note)?;
    }
    Ok((notes, departures))
}

// What stands beside the item, but for how a script is over with it; it goes past the item.
fn pass_item(
    alloc: Global,
    auditor: &mut Auditor,
    scenario: &Scenario,
    before: &[Item],
    item: &Item,
    departures: &mut Vec<Departure>,
) -> Result<Note, AllocError>
    requires { ActFor (scenario_of scenario.now) (world_at auditor.old []) }
    ensures { ActFor (scenario_of scenario.now) (world_at auditor.new []) }
{
    let mut note = note_on(auditor, scenario, item);
    let unit = auditor.unit().copy();
    if auditor.admits(scenario, before, item) {
        add_unseen(&mut note, &unit, auditor, scenario, item);
        return Ok(note);
    }
    let departure = Some(departures.len());
    departures.push(Departure {
        place: before.len().saturating_add(1),
        instead: instead_of(auditor, scenario, item),
    })?;
    go_past(alloc, auditor, scenario, item)?;
    Ok(Note {
        departure,
        ..Note::at(note.line)
    })
}

// Adds what the reply shows of what no script is told, from the unit as it was before.
fn add_unseen(note: &mut Note, before: &Unit, auditor: &Auditor, scenario: &Scenario, item: &Item)
    requires acts { ActFor (scenario_of scenario.now) (world_at auditor.now []) }
    requires there { before.now.registry.hosts ≡ length (scenario_of scenario.now).nexuses }
{
    let Item::Sent(entry) = item else {
        return;
    };
    if !is_declared(scenario, entry.host) {
        return;
    }
    if nexus_in(scenario, entry.host).shared {
        note.fetched = fetched_before(before, auditor.unit(), entry);
    }
    note.is_early = is_early(before, entry);
}

// How the script of its sender is over behind the item, if it is.
fn end_with(auditor: &Auditor, scenario: &Scenario, item: &Item) -> Option<End>
    requires { ActFor (scenario_of scenario.now) (world_at auditor.now []) }
{
    match item {
        Item::Sent(entry) if is_declared(scenario, entry.host) => {
            over_at(auditor.end(entry.host, 0))
        }
        Item::Sent(_) | Item::Reset => None,
    }
}

// The end, if it is one of a script that is over.
fn over_at(end: End) -> Option<End> {
    match end {
        End::Stopped(_) | End::Trapped(_) => Some(end),
        End::Ready(_) | End::Left(_) => None,
    }
}

// Goes past an item that is taken as it is.
fn go_past(
    alloc: Global,
    auditor: &mut Auditor,
    scenario: &Scenario,
    item: &Item,
) -> Result<(), AllocError>
    requires { ActFor (scenario_of scenario.now) (world_at auditor.old []) }
    ensures { ActFor (scenario_of scenario.now) (world_at auditor.new []) }
{
    let mut unit = auditor.unit().copy();
    match item {
        Item::Sent(entry) if is_declared(scenario, entry.host) => {
            adopt(alloc, &mut unit, entry)?;
            auditor.pass(scenario, entry);
        }
        Item::Sent(_) => {}
        Item::Reset => unit.reset(),
    }
    auditor.set_unit(scenario, unit);
    Ok(())
}

fn note_on(auditor: &Auditor, scenario: &Scenario, item: &Item) -> Note
    requires { ActFor (scenario_of scenario.now) (world_at auditor.now []) }
{
    match item {
        Item::Sent(entry) if is_declared(scenario, entry.host) => {
            note_on_entry(auditor, scenario, entry)
        }
        Item::Sent(_) | Item::Reset => Note::at(None),
    }
}

// Whether the scenario declares a nexus of this number.
fn is_declared(scenario: &Scenario, host: u8) -> bool
    ensures { result ≡ true → host < length (scenario_of scenario.now).nexuses }
{
    usize::from(host) < scenario.parts().nexuses.len()
}

fn note_on_entry(auditor: &Auditor, scenario: &Scenario, entry: &Entry) -> Note
    requires acts { ActFor (scenario_of scenario.now) (world_at auditor.now []) }
    requires there { entry.now.host < length (scenario_of scenario.now).nexuses }
{
    match auditor.next_command(entry.host) {
        Some((line, command)) if entry.wire == encode(&command) => Note {
            is_out_of_role: entry.reply.status == Status::Good
                && !permits(
                    &nexus_in(scenario, entry.host).role,
                    auditor.unit(),
                    entry.host,
                    &command,
                ),
            ..Note::at(Some(line))
        },
        Some(_) | None => Note::at(None),
    }
}

// What would have been in place of the item.
fn instead_of(auditor: &Auditor, scenario: &Scenario, item: &Item) -> Instead
    requires { ActFor (scenario_of scenario.now) (world_at auditor.now []) }
{
    let entry = match item {
        Item::Sent(entry) => entry,
        Item::Reset => return Instead::AtMost(scenario.parts().resets),
    };
    if !is_declared(scenario, entry.host) {
        return Instead::NotModelled;
    }
    match auditor.end(entry.host, 0) {
        end @ (End::Stopped(_) | End::Trapped(_)) => Instead::Nothing(end),
        End::Ready(_) | End::Left(_) => match auditor.next_command(entry.host) {
            Some((line, command)) if entry.wire != encode(&command) => {
                Instead::Sending { line, command }
            }
            Some(_) | None => instead_of_reply(auditor, scenario, entry),
        },
    }
}

// The same of what was answered.
fn instead_of_reply(auditor: &Auditor, scenario: &Scenario, entry: &Entry) -> Instead
    requires acts { ActFor (scenario_of scenario.now) (world_at auditor.now []) }
    requires there { entry.now.host < length (scenario_of scenario.now).nexuses }
{
    let how = How::of(entry.reply.status);
    if how != How::Plain {
        return instead_of_refusal(nexus_in(scenario, entry.host), &entry.reply, how);
    }
    let mut unit = auditor.unit().copy();
    match unit.execute(entry.host, &entry.wire) {
        Ok(reply) if reply == entry.reply => Instead::NotPermitted,
        Ok(reply) => Instead::Answer(reply),
        Err(_) => Instead::NotModelled,
    }
}

// The same of a refusal.
fn instead_of_refusal(nexus: &Nexus, reply: &Reply, how: How) -> Instead {
    if *reply != refused(reply.status) {
        return Instead::Bare;
    }
    Instead::AtMost(nexus.most_refusals(how))
}

// How each nexus stands.
fn ends_of(alloc: Global, auditor: &Auditor, scenario: &Scenario) -> Result<Vec<End>, AllocError>
    requires { ActFor (scenario_of scenario.now) (world_at auditor.now []) }
{
    let mut ends = Vec::with_capacity(alloc, scenario.parts().nexuses.len())?;
    for host in 0..auditor.unit().registry().hosts() {
        ends.push(auditor.end(host, 0))?;
    }
    Ok(ends)
}
