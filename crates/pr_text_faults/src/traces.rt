//! A fault of a trace in words.

use pr_output::{WriteFault, put};
use pr_trace::TraceError;
use std::io::Write;

const SYNTAX: &[u8] =
    b"A line of a trace is INDEX NAME CDB PARAMS STATUS SENSE BYTES, with one space between them: bytes
have two digits each and are - where there are none, STATUS is 00, 02, 18, 08 or 28, and a sense has
18 bytes. From version 2 on it may be INDEX reset. There are no comments.\n";

const UNKNOWN_NAME: &[u8] = b"The scenario declares no host or guest of that name.\n";

const TOO_LONG: &[u8] = b"The trace has more lines than one may have.\n";

const READ_FAULT: &[u8] = b"The trace could not be read to its end.\n";

/// Writes what a fault of a trace means. Where memory ran out there is nothing to write.
pub fn write_trace_fault<W: Write>(writer: &mut W, error: TraceError) -> Result<(), WriteFault> {
    put(writer, trace_words(error))
}

fn trace_words(error: TraceError) -> &'static [u8] {
    match error {
        TraceError::Syntax { .. } => SYNTAX,
        TraceError::UnknownName { .. } => UNKNOWN_NAME,
        TraceError::TooLong => TOO_LONG,
        TraceError::ReadFault => READ_FAULT,
        TraceError::Memory => b"",
    }
}
