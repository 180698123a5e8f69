//! Bytes to a writer, of which a part may go out.

ghost use Rattle.pr_output.specs.Written.{Writes};

use std::io::Write;
use thiserror::Error;

/// The writer answered an error, or took no byte.
#[derive(Clone, Copy, Debug, PartialEq, Eq, Error)]
#[error("the output took no more")]
pub struct WriteFault;

/// Writes these bytes. On a fault, what went out is a front of them, and not all.
///
/// Every error ends it, one that a second call might not meet among them.
pub fn put<W: Write>(writer: &mut W, text: &[u8]) -> Result<(), WriteFault>
    ensures { Writes W.Write writer text.now result }
{
    let mut rest = text;
    while !rest.is_empty() {
        let Ok(count) = writer.write(rest) else {
            return Err(WriteFault);
        };
        if count == 0 {
            return Err(WriteFault);
        }
        rest = &rest[count..];
    }
    Ok(())
}
