//! Why a script is refused.

ghost use Rattle.pr_roles.specs.declared.refusal.Refusal.TheVariants.{Memory};

use pr_script::Class;
use std::alloc::AllocError;
use thiserror::Error;

/// Why a script is refused.
#[derive(Clone, Copy, Debug, PartialEq, Eq, Error)]
pub enum Refusal {
    /// A reply of this class may come to the send on this line, and no arm matches it.
    #[error("NoArm host {host} line {line}")]
    NoArm { host: u8, line: u32, class: Class },
    /// The send on this line may end GOOD where the host's role does not permit it.
    #[error("OutOfRole host {host} line {line}")]
    OutOfRole { host: u8, line: u32 },
    /// The script may send so many commands, which is more than its budget; 4,097 stands for that many and more.
    #[error("OverBudget host {host} cost {cost}")]
    OverBudget { host: u8, cost: u64 },
    /// Memory was refused.
    #[error("memory")]
    Memory,
    /// The view on this line lacks a state that it has to show.
    #[error("NotSound host {host} line {line}")]
    NotSound { host: u8, line: u32 },
}

impl From<AllocError> for Refusal {
    ghost from_gives = { λ _ e. e ≡ Memory };

    ghost use Rattle.std.specs.Prelude.{◌≡◌};

    fn from(_e: AllocError) -> Refusal {
        Refusal::Memory
    }
}
