//! Why a line doesn't keep its shape.

/// The first word of a line that can't stand where it stands, or that one is missing.
#[derive(Clone, Copy, Debug, PartialEq, Eq)]
pub struct Misfit {
    /// How many bytes of the line there are from this word on, the end of the line counted as one where the word stands at it; zero
    /// where a word is missing.
    pub left: usize,
    pub wanted: Wanted,
}

/// What a line wants at a place (docs/FORMATS.md, 'The lines of a scenario', 'Statements' and 'COMMAND').
#[derive(Clone, Copy, Debug, PartialEq, Eq)]
pub enum Wanted {
    /// A version of the language.
    Version,
    Name,
    /// A key that is not zero.
    Key,
    /// A key, or zero.
    KeyOrZero,
    /// `free` or a key.
    Alternative,
    /// The code of an attention.
    Attention,
    /// A number in decimal digits.
    Count,
    Generation,
    /// `none`, a type with the name of a holder, or a type of all registrants.
    Reservation,
    /// The word `budget`.
    Budget,
    /// The word `conflict`.
    Order,
    /// What a clause permits.
    Action,
    /// The type of a reservation.
    Kind,
    /// The word `if`.
    If,
    /// What follows `if`.
    Condition,
    /// What an arm waits for.
    Arm,
    /// What an arm asks of a GOOD reply.
    Good,
    Sense,
    /// The first word of a command.
    Command,
    /// An option of a command.
    Option,
    /// An option of a command that it doesn't have yet.
    Unsaid,
    /// The address of a block.
    Address,
    /// A number of blocks.
    Blocks,
    /// `--in` or `--out`.
    Direction,
    /// A service action.
    ServiceAction,
    /// The other of `--in` and `--out`, since the service action goes with that.
    OtherDirection,
    /// Neither a key nor a type, since `--in` has none.
    NoParameter,
    /// The option for a type.
    Type,
    /// The end of the line.
    End,
}

impl Misfit {
    /// This word can't stand there, before the rest of its line.
    pub(crate) fn at(word: &[u8], rest: &[u8], wanted: Wanted) -> Self {
        Misfit {
            left: word.len().saturating_add(rest.len()).saturating_add(1),
            wanted,
        }
    }

    /// A word is missing.
    pub(crate) fn missing(wanted: Wanted) -> Self {
        Misfit { left: 0, wanted }
    }
}
