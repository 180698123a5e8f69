//! Whether the condition of a clause holds of a sender, by the reservation and whether the sender is registered.

ghost use Rattle.std.specs.Prelude.{◌≡◌};
ghost use Rattle.pr_regions.specs.Conditions.{holds_as, is_holder_as};

use crate::place::Place;
use pr_registry::Held;
use pr_roles::Condition;

/// Whether the sender holds the reservation: the single holder, or each registrant.
pub(crate) fn is_holder_as(held: Option<Held>, sender: u8, is_registered: bool) -> bool
    ensures { result ≡ is_holder_as held sender is_registered }
{
    match held {
        None => false,
        Some(Held::One(_, holder)) => holder == sender,
        Some(Held::All(_)) => is_registered,
    }
}

impl Place {
    /// Whether the sender meets the condition of a clause, by whether it is registered.
    pub fn meets(&self, condition: Option<Condition>, is_registered: bool) -> bool
        ensures { result ≡ holds_as condition self.now.held self.now.sender is_registered }
    {
        match condition {
            None => true,
            Some(Condition::Registered) => is_registered,
            Some(Condition::Holder) => is_holder_as(self.held, self.sender, is_registered),
            Some(Condition::Reserved) => self.held.is_some(),
        }
    }
}
