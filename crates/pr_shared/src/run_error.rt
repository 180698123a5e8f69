//! Why a run came to no outcome.

use crate::outcome::Differs;
use pr_roles::Item;
use std::alloc::AllocError;
use thiserror::Error;

/// Why a run came to no outcome.
#[derive(Debug, Drop, Error)]
pub enum RunError {
    /// Memory was refused before any turn.
    #[error("memory")]
    Memory,
    /// The thread of this nexus could not be started, and for those after it none was tried. Those before it ran
    /// to their end, and this is their history.
    #[error("no thread for host {host}")]
    Spawn { host: u8, history: Vec<Item> },
    /// The world and the seats don't belong together, or a nexus has not come to its end: what was compared.
    #[error("the world differs from the seats")]
    Differs(Differs),
}

impl From<AllocError> for RunError {
    ghost from_gives = { λ _ e. e ≡ Memory };

    ghost use Rattle.std.specs.Prelude.{◌≡◌};
    ghost use Rattle.pr_shared.specs.declared.run_error.RunError.TheVariants.{Memory};

    fn from(_e: AllocError) -> RunError {
        RunError::Memory
    }
}
