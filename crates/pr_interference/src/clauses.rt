//! What the clauses of a role ask for.

ghost use Rattle.std.specs.Prelude.{◌≡◌};
ghost use Rattle.pr_regions.specs.Purposes.{HasNumber};
ghost use Rattle.pr_interference.specs.inside.Clauses.{purpose_for, may_send as may_send_as, is_registered_as, refuses_strangers, AreSenders};

use crate::onlooker::Onlooker;
use pr_regions::{Place, Purpose, Standing, every_key, number_in};
use pr_registry::Held;
use pr_roles::{Action, Condition};
use pr_sets::BitSet;

impl Onlooker<'_> {
    /// What a clause of this action asks for under a reservation, if it changes anything.
    pub(crate) fn purpose_for(&self, action: Action, held: Option<Held>) -> Option<Purpose>
        ensures { result ≡ purpose_for self.now.keys.now action held }
    {
        match action {
            Action::Register(key) => Some(Purpose::Register(number_in(self.keys, key))),
            Action::Unregister => Some(Purpose::Unregister),
            Action::Reserve(kind) => Some(Purpose::Reserve(kind)),
            Action::Release => match held {
                Some(Held::One(kind, _)) | Some(Held::All(kind)) => Some(Purpose::Release(kind)),
                None => None,
            },
            Action::Clear => Some(Purpose::Clear),
            Action::Preempt(0, kind) => Some(Purpose::PreemptAll(kind)),
            Action::Preempt(key, kind) => Some(Purpose::Preempt(number_in(self.keys, key), kind)),
            Action::Read | Action::Write => None,
        }
    }
}

/// Whether a sender whose registration matches so meets the condition, and is not refused as a stranger.
pub(crate) fn may_send(
    condition: Option<Condition>,
    purpose: Purpose,
    place: &Place,
    standing: Standing,
) -> bool
    ensures { result ≡ may_send_as condition purpose place.now.held place.now.sender standing }
{
    let is_registered = is_registered(standing);
    place.meets(condition, is_registered) && (is_registered || !refuses_strangers(purpose))
}

fn is_registered(standing: Standing) -> bool
    ensures { result ≡ is_registered_as standing }
{
    match standing {
        Standing::Unregistered => false,
        Standing::Named | Standing::Other => true,
    }
}

// Whether a sender that is not registered is refused for its key.
fn refuses_strangers(purpose: Purpose) -> bool
    ensures { result ≡ refuses_strangers purpose }
{
    match purpose {
        Purpose::Look
        | Purpose::Read(_)
        | Purpose::Write(_)
        | Purpose::Register(_)
        | Purpose::Unregister => false,
        Purpose::Reserve(_)
        | Purpose::Release(_)
        | Purpose::Clear
        | Purpose::PreemptAll(_)
        | Purpose::Preempt(_, _) => true,
    }
}

/// The registrations with which a sender stands so.
pub(crate) fn senders(purpose: Purpose, standing: Standing) -> BitSet
    requires { HasNumber purpose }
    ensures { AreSenders purpose standing result }
{
    match (standing, purpose.key()) {
        (Standing::Unregistered, _) => BitSet::only(0),
        (Standing::Named, Some(key)) => BitSet::only(key),
        (Standing::Named, None) => BitSet::none(),
        (Standing::Other, Some(key)) => every_key().without(key),
        (Standing::Other, None) => every_key(),
    }
}
