//! Why a text is not read as a trace.

ghost use Rattle.pr_trace.specs.declared.trace_error.TraceError.TheVariants.{Memory};

use std::alloc::{AllocError, AllocFailed};
use thiserror::Error;

/// Why a text is not read as a trace. Lines count from 1.
#[derive(Clone, Copy, Debug, PartialEq, Eq, Error)]
pub enum TraceError {
    /// The line does not have the form of a line that may stand there.
    #[error("syntax, line {line}")]
    Syntax { line: u32 },
    /// The line is that of an entry whose sender is no nexus of the scenario.
    #[error("unknown name, line {line}")]
    UnknownName { line: u32 },
    /// There are more items than a trace of its version may have, or more than 64 lines behind them.
    #[error("the trace is too long")]
    TooLong,
    /// The reader answered an error.
    #[error("the trace cannot be read")]
    ReadFault,
    /// Memory ran out.
    #[error("out of memory")]
    Memory,
}

impl From<AllocError> for TraceError {
    ghost from_gives = { λ _ e. e ≡ Memory };

    ghost use Rattle.std.specs.Prelude.{◌≡◌};

    fn from(_e: AllocError) -> TraceError {
        TraceError::Memory
    }
}

impl<T: Drop> From<AllocFailed<T>> for TraceError {
    ghost from_gives = { λ _ e. e ≡ Memory };

    ghost use Rattle.std.specs.Prelude.{◌≡◌};

    fn from(_e: AllocFailed<T>) -> TraceError {
        TraceError::Memory
    }
}
