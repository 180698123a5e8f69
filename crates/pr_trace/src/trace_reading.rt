//! Traces from their texts.

ghost use Rattle.std.specs.Prelude.{◌≡◌, ◌≤◌, length, IfOk, IfSome};
ghost use Rattle.pr_cdb.specs.declared.codes.TheConstants.{MOST_NEXUSES};
ghost use Rattle.pr_trace.specs.declared.versions.TheConstants.{MOST_ITEMS_2};
ghost use Rattle.pr_trace.specs.Versions.{most_items};
ghost use Rattle.pr_roles.specs.Scenarios.{scenario_of};
ghost use Rattle.pr_trace.specs.TraceText.{names_of};
ghost use Rattle.pr_trace.specs.BytesTaken.{TakesUpTo, bytes_of_lines, most_of_trace};
ghost use Rattle.pr_trace.specs.TraceReadings.{FaultsTrace, ReadsTrace, items_of, is_later, later_lines};
ghost use Rattle.pr_trace.specs.inside.LinesAhead.{FaultsAhead, TakesAhead, ReadsFirst, FaultsFirst, ReadsItems, ReadsLater};

use crate::ahead::{Ahead, MOST_LINE_BYTES};
use crate::entry_reading::item_on;
use crate::first_line::is_first;
use crate::trace_error::TraceError;
use crate::versions::most_items;
use pr_roles::{Item, Nexus, Scenario};
use std::alloc::Global;
use std::io::Read;

/// The lines of a trace behind its entries.
pub const MOST_LATER_LINES: u32 = 64;

/// The history of the trace that `reader` has left, or the trace's one fault.
///
/// A trace has the version of its scenario: another first line is a fault, and so is a status of a later version.
///
/// Where it is known what the reader has left, the history or the fault are those of this text, but for a failed
/// read and for want of memory, which may come with any text. Such a reader loses as many bytes as there may be, and
/// a chunk more. That none is asked for more behind the first line with a fault, nor again once it has failed, is
/// tested.
pub fn read_trace<R: Read>(
    alloc: Global,
    scenario: &Scenario,
    reader: &mut R,
) -> Result<Vec<Item>, TraceError>
    ensures read { IfSome (R.remaining reader.old) (ReadsTrace (scenario_of scenario.now) result) }
    ensures fault { IfSome (R.remaining reader.old)
        (FaultsTrace (scenario_of scenario.now) result) }
    ensures limited { TakesUpTo R.Read reader (most_of_trace (scenario_of scenario.now).version) }
{
    let parts = scenario.parts();
    let version = parts.version;
    let mut ahead = Ahead::new();
    read_first(version, &mut ahead, reader)?;
    let history = read_items(alloc, version, &parts.nexuses, &mut ahead, reader)?;
    read_later(history.len() as u32, &mut ahead, reader)?;
    Ok(history)
}

// Reads the line above all others.
fn read_first<R: Read>(version: u8, ahead: &mut Ahead, reader: &mut R) -> Result<(), TraceError>
    ensures taken { TakesAhead R.Read reader ahead (bytes_of_lines 1) }
    ensures ok { ReadsFirst R.Read reader ahead version result }
    ensures fault { FaultsFirst R.Read reader ahead version result }
{
    let Some(end) = ahead.next_line(reader)? else {
        return Err(TraceError::Syntax { line: 1 });
    };
    if !is_first(version, &ahead.as_slice()[..end]) {
        return Err(TraceError::Syntax { line: 1 });
    }
    ahead.drop_line(end);
    Ok(())
}

// Reads items until a line that is none: there the unit's line begins, or a fault.
fn read_items<R: Read>(
    alloc: Global,
    version: u8,
    nexuses: &[Nexus],
    ahead: &mut Ahead,
    reader: &mut R,
) -> Result<Vec<Item>, TraceError>
    requires { length nexuses.now ≤ MOST_NEXUSES }
    ensures taken { TakesAhead R.Read reader ahead (bytes_of_lines (most_items version)) }
    ensures ok { ReadsItems R.Read reader ahead version (names_of nexuses.now) result }
    ensures few { IfOk result (λ history. length history.items ≤ most_items version) }
    ensures fault { FaultsAhead R.Read reader ahead (items_of version (names_of nexuses.now) 0)
        result }
{
    // With room for all that may come nothing is copied as it grows; room that nothing is written into takes no memory.
    let mut history = Vec::with_capacity(alloc, most_items(version) as usize)?;
    while let Some(end) = ahead.next_line(reader)? {
        let line = &ahead.as_slice()[..end];
        if is_later(line) {
            break;
        }
        let item = item_on(version, nexuses, history.len() as u32 + 1, line)?;
        history.push(item)?;
        ahead.drop_line(end);
    }
    Ok(history)
}

// Reads the lines behind so many items.
fn read_later<R: Read>(items: u32, ahead: &mut Ahead, reader: &mut R) -> Result<(), TraceError>
    requires { items ≤ MOST_ITEMS_2 }
    ensures taken { TakesAhead R.Read reader ahead (bytes_of_lines MOST_LATER_LINES) }
    ensures ok { ReadsLater R.Read reader ahead items result }
    ensures fault { FaultsAhead R.Read reader ahead (later_lines items 0) result }
{
    let mut others = 0;
    while let Some(end) = ahead.next_line(reader)? {
        if others == MOST_LATER_LINES {
            return Err(TraceError::TooLong);
        }
        if end > MOST_LINE_BYTES || !is_later(&ahead.as_slice()[..end]) {
            return Err(TraceError::Syntax {
                line: items + others + 2,
            });
        }
        ahead.drop_line(end);
        others += 1;
    }
    Ok(())
}

#[tactic(auto, unfolding(crate::specs::TraceReadings::is_later))]
fn is_later(line: &[u8]) -> bool
    ensures { result ≡ is_later line.now }
{
    match line.first() {
        Some(b'u') => line.starts_with("unit".as_bytes()),
        Some(b'h') => line.starts_with("host".as_bytes()),
        Some(b'g') => line.starts_with("guest".as_bytes()),
        _ => false,
    }
}
