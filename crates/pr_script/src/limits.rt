//! The most of each that a script may have (docs/FORMATS.md, 'Limits').

/// Statements of a script, those in arms and bodies among them.
pub const MOST_STATEMENTS: u32 = 512;

/// Arms of one send.
pub const MOST_ARMS: usize = 16;

/// Repeats that are open at once, and sends that are.
pub const MOST_OPEN: u32 = 8;

/// Rounds of a repeat.
pub const MOST_TURNS: u32 = 1000;

/// Bytes of a name or a word.
pub const MOST_LETTERS: usize = 16;

/// The greatest budget of a script, in commands.
pub const MOST_BUDGET: u32 = 4096;
