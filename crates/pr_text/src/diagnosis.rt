//! A fault of a text, and what the reader knows of it.

ghost use Rattle.pr_text.specs.declared.fault.ReadError.TheVariants.{Memory};

use crate::fault::ReadError;
use arrayvec::ArrayVec;
use pr_lines::Misfit;
use std::alloc::AllocError;

/// The most sends and repeats that are open at once: 8 of each.
pub const MOST_BLOCKS: usize = 16;

/// A send or a repeat that is open.
#[derive(Clone, Copy, Debug, Default, PartialEq, Eq)]
pub struct Block {
    /// The line that it begins on.
    pub line: u32,
    pub is_repeat: bool,
}

/// What a line stands in.
#[derive(Clone, Copy, Debug, PartialEq, Eq)]
pub enum Section {
    /// No line with words is above it.
    Top,
    Outside,
    /// In the script that begins on this line.
    Script(u32),
    /// In the plan that begins on this line.
    Plan(u32),
}

/// What stands above a line.
#[derive(Drop)]
pub struct Above {
    /// The version of the text, and 1 before its first line.
    pub version: u8,
    pub section: Section,
    /// The sends and repeats that are open, the innermost last.
    pub blocks: ArrayVec<Block, MOST_BLOCKS>,
    /// The innermost of them has neither an arm nor a statement.
    pub is_bare: bool,
}

impl Above {
    /// Nothing.
    pub(crate) fn nothing() -> Self {
        Above::within(1, Section::Top)
    }

    /// No send and no repeat is open.
    pub(crate) fn within(version: u8, section: Section) -> Self {
        Above {
            version,
            section,
            blocks: ArrayVec::new(),
            is_bare: false,
        }
    }

    /// The innermost block that is open.
    pub fn innermost(&self) -> Option<Block> {
        self.blocks.last().copied()
    }

    /// Whether a repeat is open.
    pub fn is_in_repeat(&self) -> bool {
        self.blocks.iter().any(|block| block.is_repeat)
    }
}

/// A fault of a text, and what the reader knows of it: what stands above the line that has it, and where that line does not
/// keep its shape, if it doesn't. The fault alone is what is promised.
#[derive(Drop)]
pub struct Diagnosis {
    pub error: ReadError,
    pub above: Above,
    pub misfit: Option<Misfit>,
}

impl Diagnosis {
    ghost use Rattle.std.specs.Prelude.{◌≡◌};

    /// The fault, of which nothing more is known.
    pub(crate) fn alone(error: ReadError) -> Self
        ensures { result.error ≡ error }
    {
        Diagnosis {
            error,
            above: Above::nothing(),
            misfit: None,
        }
    }
}

impl From<AllocError> for Diagnosis {
    ghost from_gives = { λ _ d. d.error ≡ Memory };

    ghost use Rattle.std.specs.Prelude.{◌≡◌};

    fn from(_e: AllocError) -> Diagnosis {
        Diagnosis::alone(ReadError::Memory)
    }
}
