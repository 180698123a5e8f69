//! What the logical unit answers.

ghost use Rattle.std.specs.Prelude.{◌≡◌};

use crate::codes::MOST_DATA_LENGTH;
use crate::wire::copied;
use arrayvec::ArrayVec;

/// Why a command ended in CHECK CONDITION, or what REQUEST SENSE reports: the sense key, the additional
/// sense code and its qualifier (SPC-4, 'Sense data').
#[derive(Clone, Copy, Debug, PartialEq, Eq)]
pub struct Sense {
    pub key: u8,
    pub asc: u8,
    pub ascq: u8,
}

/// How a command ended (SAM-5, 'Status').
#[derive(Clone, Copy, Debug, PartialEq, Eq)]
pub enum Status {
    Good,
    CheckCondition,
    Conflict,
    Busy,
    TaskFull,
}

/// The answer to a command.
///
/// `sense` is there with CHECK CONDITION alone. `bytes` is the data that a command which ended GOOD
/// returns, cut at its allocation length.
#[derive(Debug, Drop, PartialEq, Eq)]
pub struct Reply {
    pub status: Status,
    pub sense: Option<Sense>,
    pub bytes: ArrayVec<u8, MOST_DATA_LENGTH>,
}

impl Reply {
    /// An equal one.
    pub fn copy(&self) -> Self
        ensures { result ≡ self.now }
    {
        Reply {
            status: self.status,
            sense: self.sense,
            bytes: copied(self.bytes.as_slice()),
        }
    }
}
