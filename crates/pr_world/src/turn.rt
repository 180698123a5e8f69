//! What a step answers.

use pr_roles::Entry;
use pr_script::Word;

/// What a nexus of a verified scenario did in its turn.
#[derive(Debug, Drop, PartialEq, Eq)]
pub enum Turn {
    /// Its command reached the unit, and was answered.
    Sent(Entry),

    /// The host's script is stopped with this word. A guest that has sent its whole plan is stopped with `end`.
    Stopped(Word),

    /// The guest's next command would end GOOD, and its role does not permit that: it is passed over.
    Held,
}
