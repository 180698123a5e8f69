//! What a nexus does in its turn.

ghost use Rattle.std.specs.Prelude.{◌≡◌, option_map};
ghost use Rattle.pr_world.specs.inside.Turns.{entry_in};

use pr_roles::Entry;
use pr_script::Word;

/// What a nexus did in its turn.
#[derive(Drop)]
pub(crate) enum Act {
    /// Its command reached the unit, and was answered.
    Sent(Entry),

    /// The host's script is stopped with this word.
    Stopped(Word),

    /// The host's script met a reply without an arm before.
    Trapped,

    /// The guest has no command left.
    Finished,

    /// The guest's next command would end GOOD, and its role does not permit that: it is passed over.
    Held,
}

impl Act {
    /// The entry of the command, if one reached the unit.
    pub(crate) fn entry(&self) -> Option<&Entry>
        ensures { option_map (λ e. e.now) result ≡ entry_in self.now }
    {
        match self {
            Act::Sent(entry) => Some(entry),
            Act::Stopped(_) | Act::Trapped | Act::Finished | Act::Held => None,
        }
    }
}
