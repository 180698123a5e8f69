//! How a nexus ends.

use pr_script::Word;

/// How a nexus stands at the end of a run.
#[derive(Clone, Copy, Debug, PartialEq, Eq)]
pub enum End {
    /// The host's script is stopped with this word.
    Stopped(Word),

    /// The host's script is ready to send the command on this line.
    Ready(u32),

    /// No arm of the send on this line matched the reply.
    Trapped(u32),

    /// The guest has not reached so many of its planned commands.
    Left(u32),
}
