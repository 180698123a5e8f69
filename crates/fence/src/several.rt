//! Several scenarios in one command: each line that one of them writes or tells has the path of its text before it.

use arrayvec::ArrayVec;
use pr_commands::{ExitStatus, Fault};
use pr_output::{WriteFault, put};
use std::io::Write;

/// The line of a verdict or of a fault, which has at most three names or numbers.
pub type Line = ArrayVec<u8, 256>;

/// Writes and tells what a command wrote and told of the text at this path, behind the path. What can't be written is a fault, for
/// the caller to tell.
pub fn put_labelled<W: Write, E: Write>(
    writer: &mut W,
    errors: &mut E,
    path: &str,
    written: &Line,
    told: &Line,
) -> Result<(), Fault> {
    let _ = put_behind(errors, path, told);
    put_behind(writer, path, written)?;
    Ok(())
}

// The line behind the path, if there is one.
fn put_behind<W: Write>(writer: &mut W, path: &str, line: &Line) -> Result<(), WriteFault> {
    if line.is_empty() {
        return Ok(());
    }
    put(writer, path.as_bytes())?;
    put(writer, b": ")?;
    put(writer, line.as_slice())
}

/// The worse of the two: the one with the greater exit status.
pub fn worse(one: ExitStatus, other: ExitStatus) -> ExitStatus {
    if one.exit_status() < other.exit_status() {
        other
    } else {
        one
    }
}
