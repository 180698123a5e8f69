//! `fence explain FILE WITNESS`: a run that `fence witness` found, in words.

ghost use Rattle.std.specs.Prelude.{◌≡◌, true, length};
ghost use Rattle.pr_roles.specs.Scenarios.{scenario_of};

use crate::told::read_and_tell;
use crate::whole::{Unread, read_whole};
use pr_attention::Pending;
use pr_commands::{ExitStatus, Fault, ended, question_of};
use pr_explain::write_moment;
use pr_lines::{ScenarioLine, StartReservation, item_of, next_line, next_word};
use pr_output::put;
use pr_registry::{Held, Registry};
use pr_roles::{Item, Nexus, Scenario, Word};
use pr_trace::{TraceError, read_trace};
use pr_unit::Unit;
use pr_words::{put_start, telling_from, write_telling};
use std::alloc::{AllocError, Global};
use std::io::{Read, Write};

/// The first line of a witness, with its end.
pub const FIRST_LINE: &[u8] = b"fence-witness 1\n";

/// A witness has some hundred lines; one that is longer than this is none.
const MOST_BYTES: usize = 262_144;

/// The words that the lines of a start begin with.
const STARTS: [&[u8]; 4] = [b"start", b"pending", b"reservation", b"generation"];

/// More lines than there may be of a start: two for each nexus, and four more.
const MOST_HEAD_LINES: u32 = 64;

/// `fence explain FILE WITNESS`: reads a scenario and then a witness, and writes in words what happens in the run of it, from the
/// start that it tells. Of one that `fence never` found it writes behind that why all is so at its end that was asked for.
///
/// The status is that of an audit from there, and a fault is told as one of a trace.
pub fn do_explain_witness<R: Read, T: Read, W: Write, E: Write>(
    alloc: Global,
    reader: &mut R,
    witness: &mut T,
    writer: &mut W,
    errors: &mut E,
) -> ExitStatus {
    let end = explain_run(alloc, reader, witness, writer);
    ended(errors, end)
}

// Plans what is told, and then writes it: whether the run is illegal.
fn explain_run<R: Read, T: Read, W: Write>(
    alloc: Global,
    reader: &mut R,
    witness: &mut T,
    writer: &mut W,
) -> Result<bool, Fault> {
    let (_, scenario) = read_and_tell(alloc, reader, writer);
    let scenario = scenario?;
    let text = text_of(alloc, witness)?;
    let run = run_of(alloc, &scenario, &text)?;
    if !is_of(&scenario, &run.start) {
        return Err(syntax(1));
    }
    let telling = telling_from(alloc, &scenario, &run.history, run.start.copy())?;
    put(writer, b"From this start:\n")?;
    put_start(writer, &scenario.parts().nexuses, &run.start)?;
    write_telling(writer, &scenario, &run.history, &telling)?;
    if telling.illegal.is_none() {
        write_asked(alloc, writer, &scenario, &text, &run)?;
    }
    Ok(telling.illegal.is_some())
}

// Writes why that is so at the end of the run for which `fence never` was asked, where the text says that it was.
fn write_asked<W: Write>(
    alloc: Global,
    writer: &mut W,
    scenario: &Scenario,
    text: &[u8],
    run: &WitnessedRun,
) -> Result<(), Fault> {
    let Some(words) = asked_in(alloc, text)? else {
        return Ok(());
    };
    let Some(question) = question_of(alloc, scenario, &words)? else {
        return Ok(());
    };
    write_moment(writer, scenario, &run.start, &run.history, &question.facts)?;
    Ok(())
}

// The words for which it was asked, by the second line of the text; none where that isn't `at WORD .. after STEPS`.
fn asked_in(alloc: Global, text: &[u8]) -> Result<Option<Vec<&str>>, AllocError> {
    let Some(line) = second_line(text) else {
        return Ok(None);
    };
    let Some(asked) = line.strip_prefix("at ") else {
        return Ok(None);
    };
    let mut words = Vec::new(alloc);
    for word in asked.split_whitespace() {
        if word == "after" {
            return Ok(Some(words));
        }
        words.push(word)?;
    }
    Ok(None)
}

fn second_line(text: &[u8]) -> Option<&str> {
    let (_, rest) = next_line(text)?;
    let (line, _) = next_line(rest)?;
    str::from_utf8(line).ok()
}

// Whether the unit has a nexus for each that the scenario declares.
fn is_of(scenario: &Scenario, unit: &Unit) -> bool
    ensures { result ≡ true
        → unit.now.registry.hosts ≡ length (scenario_of scenario.now).nexuses }
{
    usize::from(unit.registry().hosts()) == scenario.parts().nexuses.len()
}

// The text of a witness, whole.
fn text_of<T: Read>(alloc: Global, reader: &mut T) -> Result<Vec<u8>, Fault> {
    match read_whole(alloc, reader, MOST_BYTES) {
        Ok(text) => Ok(text),
        Err(Unread::Failed) => Err(Fault::Trace(TraceError::ReadFault)),
        Err(Unread::TooLong) => Err(Fault::Trace(TraceError::TooLong)),
        Err(Unread::Memory) => Err(Fault::Memory),
    }
}

/// The run of a witness.
#[derive(Drop)]
struct WitnessedRun {
    start: Unit,
    history: Vec<Item>,
}

/// The head of a witness: how many lines stand above the items, and what they say of the start.
#[derive(Drop)]
struct WitnessHead {
    lines: u32,
    start: WitnessStart,
}

// The run that the text of a witness tells.
fn run_of(alloc: Global, scenario: &Scenario, text: &[u8]) -> Result<WitnessedRun, Fault> {
    let nexuses = &scenario.parts().nexuses;
    let (head, rest) = head_of(alloc, nexuses, text)?;
    let Some(start) = head.start.unit() else {
        return Err(syntax(head.lines));
    };
    let history = history_of(alloc, scenario, head.lines, rest)?;
    Ok(WitnessedRun { start, history })
}

fn syntax(line: u32) -> Fault {
    Fault::Trace(TraceError::Syntax { line })
}

// The lines above the items, and what stands behind them.
fn head_of<'a>(
    alloc: Global,
    nexuses: &[Nexus],
    text: &'a [u8],
) -> Result<(WitnessHead, &'a [u8]), Fault> {
    let mut start = WitnessStart::new(alloc, nexuses.len())?;
    let mut rest = text;
    for number in 1..=MOST_HEAD_LINES {
        let Some((line, others)) = next_line(rest) else {
            return Err(syntax(number));
        };
        // (the first line is known, and the second says what is broken)
        if number > 2 {
            let Some(said) = start_line(alloc, line)? else {
                return Ok((
                    WitnessHead {
                        lines: number - 1,
                        start,
                    },
                    rest,
                ));
            };
            if start.take(nexuses, &said).is_none() {
                return Err(syntax(number));
            }
        }
        rest = others;
    }
    Err(syntax(MOST_HEAD_LINES))
}

// What the line says, if it is one of the start.
fn start_line(alloc: Global, line: &[u8]) -> Result<Option<ScenarioLine>, AllocError> {
    let Some((word, words)) = next_word(line) else {
        return Ok(None);
    };
    if !STARTS.contains(&word) {
        return Ok(None);
    }
    Ok(item_of(alloc, word, words)?.ok())
}

// The items, which are those of a trace: its first line is put in front of them.
fn history_of(
    alloc: Global,
    scenario: &Scenario,
    above: u32,
    items: &[u8],
) -> Result<Vec<Item>, Fault> {
    let first: &[u8] = match scenario.parts().version {
        1 => b"fence-trace 1\n",
        2 => b"fence-trace 2\n",
        _ => b"fence-trace 3\n",
    };
    let mut text = Vec::new(alloc);
    text.extend_from_slice(first)?;
    text.extend_from_slice(items)?;
    let mut reader = text.as_slice();
    read_trace(alloc, scenario, &mut reader).map_err(|error| moved(error, above))
}

// The fault at the line that it has in the witness, where so many stand above the items.
fn moved(error: TraceError, above: u32) -> Fault {
    Fault::Trace(match error {
        TraceError::Syntax { line } => TraceError::Syntax {
            line: line.saturating_sub(1).saturating_add(above),
        },
        TraceError::UnknownName { line } => TraceError::UnknownName {
            line: line.saturating_sub(1).saturating_add(above),
        },
        TraceError::TooLong => TraceError::TooLong,
        TraceError::ReadFault => TraceError::ReadFault,
        TraceError::Memory => TraceError::Memory,
    })
}

/// The start of a run, as its lines say it.
#[derive(Drop)]
struct WitnessStart {
    keys: Vec<Option<u64>>,
    pendings: Vec<Pending>,
    held: Option<Held>,
    generation: u32,
}

impl WitnessStart {
    // Nobody is registered, and nothing is pending.
    fn new(alloc: Global, count: usize) -> Result<WitnessStart, AllocError> {
        let mut keys = Vec::with_capacity(alloc, count)?;
        let mut pendings = Vec::with_capacity(alloc, count)?;
        for _ in 0..count {
            keys.push(None)?;
            pendings.push(Pending::new())?;
        }
        Ok(WitnessStart {
            keys,
            pendings,
            held: None,
            generation: 0,
        })
    }

    // Takes what a line says, if it says one thing of the start.
    fn take(&mut self, nexuses: &[Nexus], line: &ScenarioLine) -> Option<()> {
        match line {
            ScenarioLine::Start(name, keys) => {
                let [key] = keys.as_slice() else {
                    return None;
                };
                *self.keys.get_mut(place_of(nexuses, name)?)? = *key;
            }
            ScenarioLine::Pending(name, attentions) => {
                let pending = self.pendings.get_mut(place_of(nexuses, name)?)?;
                for attention in attentions {
                    pending.add(*attention);
                }
            }
            ScenarioLine::Reservation(reservations) => {
                let [reservation] = reservations.as_slice() else {
                    return None;
                };
                self.held = held_of(nexuses, reservation)?;
            }
            ScenarioLine::Generation(generation) => self.generation = *generation,
            _ => return None,
        }
        Some(())
    }

    // The unit that starts so, if one may.
    fn unit(&self) -> Option<Unit> {
        let registry = Registry::from_parts(&self.keys, self.held, self.generation)?;
        Unit::with(registry, &self.pendings)
    }
}

fn held_of(nexuses: &[Nexus], reservation: &StartReservation) -> Option<Option<Held>> {
    match reservation {
        StartReservation::Nobody => Some(None),
        StartReservation::Single(kind, name) => {
            let place = u8::try_from(place_of(nexuses, name)?).ok()?;
            Some(Some(Held::One(*kind, place)))
        }
        StartReservation::Everybody(kind) => Some(Some(Held::All(*kind))),
    }
}

fn place_of(nexuses: &[Nexus], name: &Word) -> Option<usize> {
    nexuses
        .iter()
        .position(|nexus| nexus.name.as_str() == name.as_str())
}
