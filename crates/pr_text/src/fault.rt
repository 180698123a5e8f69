//! Why a text is not read as a scenario.

ghost use Rattle.pr_text.specs.declared.fault.ReadError.TheVariants.{Memory};

use std::alloc::{AllocError, AllocFailed};
use thiserror::Error;

/// Which limit a text goes past.
#[derive(Clone, Copy, Debug, PartialEq, Eq)]
pub enum Which {
    /// At least 1 and at most 8 nexuses together, from version 2 on at most 16.
    Hosts,
    /// At most 12 declared keys.
    Keys,
    /// At most 512 statements in a script.
    Statements,
    /// At most 16 arms of a send.
    Arms,
    /// At most 8 open repeats, and at most 8 open sends.
    Nesting,
    /// 1 to 1,000 turns of a repeat.
    Repeat,
    /// 1 to 4,096 commands of a script.
    Budget,
    /// At most 32 clauses of a role.
    Roles,
    /// At most 256 commands of a plan.
    Plan,
    /// 1 to 1,000 replies BUSY.
    Busy,
    /// 1 to 1,000 replies TASK SET FULL.
    Full,
    /// 1 to 1,000 resets of the unit.
    Resets,
}

/// Why a text is not read as a scenario. Lines count from 1.
#[derive(Clone, Copy, Debug, PartialEq, Eq, Error)]
pub enum ReadError {
    /// The text has more than 65,536 bytes.
    #[error("the text is too large")]
    TooLarge,
    /// The line has a byte that is neither a tab nor an ASCII character that prints.
    #[error("line {line} is not ASCII")]
    NotAscii { line: u32 },
    /// The line has more than 256 bytes.
    #[error("line {line} is too long")]
    LineTooLong { line: u32 },
    /// The line does not fit the language or the text's version of it, or does not fit where it stands.
    #[error("syntax, line {line}")]
    Syntax { line: u32 },
    /// The line uses a name that is not declared before it, or that of a guest where a host is wanted, or of
    /// a host where a guest is wanted.
    #[error("unknown name, line {line}")]
    UnknownName { line: u32 },
    /// The line goes past a limit.
    #[error("past a limit, line {line}")]
    Limit { which: Which, line: u32 },
    /// The line uses a key that is not declared before it.
    #[error("undeclared key, line {line}")]
    UndeclaredKey { line: u32 },
    /// The line says again what may be said once.
    #[error("repeated, line {line}")]
    Repeated { line: u32 },
    /// The text ends, on this line, within a script or a plan.
    #[error("unclosed, line {line}")]
    Unclosed { line: u32 },
    /// The reader answered an error.
    #[error("the text cannot be read")]
    ReadFault,
    /// Memory ran out.
    #[error("out of memory")]
    Memory,
    /// No state of the unit is allowed to start from.
    #[error("there is no start")]
    EmptyStart,
}

impl From<AllocError> for ReadError {
    ghost from_gives = { λ _ e. e ≡ Memory };

    ghost use Rattle.std.specs.Prelude.{◌≡◌};

    fn from(_e: AllocError) -> ReadError {
        ReadError::Memory
    }
}

impl<T: Drop> From<AllocFailed<T>> for ReadError {
    ghost from_gives = { λ _ e. e ≡ Memory };

    ghost use Rattle.std.specs.Prelude.{◌≡◌};

    fn from(_e: AllocFailed<T>) -> ReadError {
        ReadError::Memory
    }
}
