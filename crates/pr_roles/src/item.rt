//! What a history is made of.

ghost use Rattle.std.specs.Prelude.{◌≡◌, option_map};
ghost use Rattle.pr_roles.specs.Items.{entry_by, entry_in};
ghost use Rattle.pr_roles.specs.Worlds.{is_sent_by};

use crate::entry::Entry;

/// What happens to a logical unit: a command with its answer, or a reset of the unit, which keeps registrations and
/// reservation (SAM-5, 'Logical unit reset').
#[derive(Debug, Drop, PartialEq, Eq)]
pub enum Item {
    /// A command that reached the unit.
    Sent(Entry),
    /// A reset.
    Reset,
}

impl Item {
    /// The command, if it is one.
    pub fn entry(&self) -> Option<&Entry>
        ensures { option_map (λ e. e.now) result ≡ entry_in self.now }
    {
        match self {
            Item::Sent(entry) => Some(entry),
            Item::Reset => None,
        }
    }

    /// The command, where it is one of this nexus.
    pub fn entry_by(&self, host: usize) -> Option<&Entry>
        ensures { option_map (λ e. e.now) result ≡ entry_by host self.now }
    {
        match self {
            Item::Sent(entry) if usize::from(entry.host) == host => Some(entry),
            Item::Sent(_) | Item::Reset => None,
        }
    }

    /// Whether it is a command of this nexus.
    pub fn is_by(&self, host: usize) -> bool
        ensures { result ≡ is_sent_by host self.now }
    {
        match self {
            Item::Sent(entry) => usize::from(entry.host) == host,
            Item::Reset => false,
        }
    }

    /// An equal one.
    pub fn copy(&self) -> Self
        ensures { result ≡ self.now }
    {
        match self {
            Item::Sent(entry) => Item::Sent(entry.copy()),
            Item::Reset => Item::Reset,
        }
    }
}
