//! All the bytes of a reader, up to a limit.

ghost use Rattle.std.specs.Prelude.{◌≡◌, Result, IfOk, IfErr, OnErr};
ghost use Rattle.pr_text.specs.BytesRead.{LosesUpTo};
ghost use Rattle.pr_text.specs.inside.Steps.{ReadsUpTo};
ghost use Rattle.pr_text.specs.declared.fault.ReadError.{ReadError};
ghost use Rattle.pr_text.specs.Declarations.{Declared};
ghost use Rattle.pr_text.specs.Faults.{FailsOrUnread};

use crate::fault::ReadError;
use std::alloc::Global;
use std::io::Read;

/// The bytes that `reader` has left, or the first `limit` of them.
///
/// It never asks for more than `limit` bytes in all, and asks nothing again after an error. It fails where the
/// reader does, or for want of memory.
pub fn all_bytes<R: Read>(alloc: Global, reader: &mut R, limit: usize) -> Result<Vec<u8>, ReadError>
    ensures ok { IfOk result (λ bytes. ReadsUpTo limit (R.remaining reader.old)
        (R.remaining reader.new) bytes.items) }
    ensures err { OnErr result (LosesUpTo limit (R.remaining reader.old) (R.remaining reader.new)) }
    ensures fault { IfErr result (λ e. (step : Result Declared ReadError)
        → FailsOrUnread (Unit {0}) e step) }
{
    let mut bytes = Vec::new(alloc);
    let mut buffer = [0; 8_192];
    while bytes.len() < limit {
        let room = buffer.len().min(limit - bytes.len());
        let Ok(count) = reader.read(&mut buffer[..room]) else {
            return Err(ReadError::ReadFault);
        };
        if count == 0 {
            break;
        }
        bytes.extend_from_slice(&buffer[..count])?;
    }
    Ok(bytes)
}
