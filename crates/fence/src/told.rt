//! Texts whose faults are told in words as they are read.

ghost use Rattle.std.specs.Prelude.{◌+◌, IfSome};
ghost use Rattle.pr_roles.specs.Scenarios.{scenario_of};
ghost use Rattle.pr_text.specs.declared.text.TheConstants.{MOST_BYTES};
ghost use Rattle.pr_text.specs.BytesRead.{LosesUpTo};
ghost use Rattle.pr_text.specs.Reading.{IsRead};
ghost use Rattle.pr_trace.specs.BytesTaken.{TakesUpTo, most_of_trace};
ghost use Rattle.pr_trace.specs.TraceReadings.{FaultsTrace, ReadsTrace};

use pr_roles::{Item, Scenario};
use pr_text::{ReadError, read_with_text};
use pr_text_faults::{write_text_fault, write_trace_fault};
use pr_trace::{TraceError, read_trace};
use std::alloc::Global;
use std::io::{Read, Write};

/// The text that `reader` has left, and its scenario or its one fault, of which the words go out. What the writer does not take
/// of them is dropped.
pub fn read_and_tell<R: Read, W: Write>(
    alloc: Global,
    reader: &mut R,
    writer: &mut W,
) -> (Vec<u8>, Result<Scenario, ReadError>)
    ensures read { IfSome (R.remaining reader.old) (λ text. IsRead text result.1) }
    ensures limited { LosesUpTo (MOST_BYTES + 1) (R.remaining reader.old) (R.remaining reader.new) }
{
    match read_with_text(alloc, reader) {
        (text, Ok(scenario)) => (text, Ok(scenario)),
        (text, Err(found)) => {
            let _ = write_text_fault(writer, &text, &found);
            (text, Err(found.error))
        }
    }
}

/// The history of the trace that `reader` has left, or the trace's one fault, in the same way.
pub fn read_trace_and_tell<R: Read, W: Write>(
    alloc: Global,
    scenario: &Scenario,
    reader: &mut R,
    writer: &mut W,
) -> Result<Vec<Item>, TraceError>
    ensures read { IfSome (R.remaining reader.old) (ReadsTrace (scenario_of scenario.now) result) }
    ensures fault { IfSome (R.remaining reader.old)
        (FaultsTrace (scenario_of scenario.now) result) }
    ensures limited { TakesUpTo R.Read reader (most_of_trace (scenario_of scenario.now).version) }
{
    let history = read_trace(alloc, scenario, reader);
    if let Err(error) = &history {
        let _ = write_trace_fault(writer, *error);
    }
    history
}
