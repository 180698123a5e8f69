//! The line above all others of a trace.

ghost use Rattle.std.specs.Prelude.{◌≡◌, ◌++◌, bytes_eq, codes};
ghost use Rattle.pr_output.specs.Written.{Writes};
ghost use Rattle.pr_trace.specs.TraceText.{first_line};

use itoa::Buffer;
use pr_output::{WriteFault, put, put_number};
use std::io::Write;

// What stands before the version.
const BEGINNING: &[u8] = b"fence-trace ";

/// Writes the first line of a trace of this version.
pub(crate) fn put_first<W: Write>(writer: &mut W, version: u8) -> Result<(), WriteFault>
    ensures { Writes W.Write writer (first_line version ++ codes "\n") result }
{
    put(writer, BEGINNING)?;
    put_number(writer, u64::from(version))?;
    put(writer, b"\n")
}

/// Whether this is the first line of a trace of this version.
#[tactic(auto, unfolding(crate::specs::TraceText::first_line))]
pub(crate) fn is_first(version: u8, line: &[u8]) -> bool
    ensures { result ≡ bytes_eq line.now (first_line version) }
{
    match line.strip_prefix(BEGINNING) {
        Some(number) => number == Buffer::new().format(version).as_bytes(),
        None => false,
    }
}
