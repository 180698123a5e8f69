//! A command as it travels, and what it is read as.

ghost use Rattle.std.specs.Prelude.{◌≡◌, ◌≤◌, length};

use crate::codes::{MOST_CDB_LENGTH, PARAMETER_LIST_LENGTH};
use crate::command::Command;
use crate::reply::Sense;
use arrayvec::ArrayVec;
use thiserror::Error;

/// A command as it travels to the logical unit.
///
/// `cdb` is the command descriptor block. `params` is the parameter list, and empty where the command
/// has none.
#[derive(Debug, Drop, PartialEq, Eq)]
pub struct Wire {
    pub cdb: ArrayVec<u8, MOST_CDB_LENGTH>,
    pub params: ArrayVec<u8, PARAMETER_LIST_LENGTH>,
}

impl Wire {
    /// An equal one.
    pub fn copy(&self) -> Self
        ensures { result ≡ self.now }
    {
        Wire {
            cdb: copied(self.cdb.as_slice()),
            params: copied(self.params.as_slice()),
        }
    }
}

/// What a logical unit reads a command's bytes as: a command, or bytes at fault, which the unit answers
/// with CHECK CONDITION and this sense.
#[derive(Clone, Copy, Debug, PartialEq, Eq)]
pub enum Request {
    Plain(Command),
    Faulty(Sense),
}

/// Why bytes are no request at all.
#[derive(Clone, Copy, Debug, PartialEq, Eq, Error)]
pub enum Bad {
    /// The command descriptor block, or the parameter list that it announces, is cut short.
    #[error("1 Short")]
    Short,

    /// This operation code is one that the unit does not model.
    #[error("2 NotModelled({0:02x}h)")]
    NotModelled(u8),
}

/// The same bytes in a buffer of their own, which has room for them.
pub fn copied<const N: usize>(bytes: &[u8]) -> ArrayVec<u8, N>
    requires { length bytes.now ≤ N }
    ensures { result.items ≡ bytes.now }
{
    let mut buffer = ArrayVec::new();
    let _ = buffer.try_extend_from_slice(bytes);
    buffer
}
