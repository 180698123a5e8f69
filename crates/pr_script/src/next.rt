//! What a script does next, and what a reply may come to.

use crate::script::Word;
use pr_cdb::Command;

/// What a script does next.
#[derive(Clone, Copy, Debug, PartialEq, Eq)]
pub enum Next {
    /// It sends the command. `line` is the line of the `send`.
    Send { line: u32, command: Command },
    /// It is stopped with this word, which is `end` where nothing is left to do.
    Stopped(Word),
}

/// No arm of the send matches the reply, so that the script is trapped.
#[derive(Clone, Copy, Debug, PartialEq, Eq, thiserror::Error)]
#[error("no arm matches the reply")]
pub struct NoArm;
