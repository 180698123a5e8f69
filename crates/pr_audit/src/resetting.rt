//! Resets: how often the unit was reset.

ghost use Rattle.std.specs.Prelude.{◌≡◌};
ghost use Rattle.pr_roles.specs.Scenarios.{scenario_of};
ghost use Rattle.pr_roles.specs.Worlds.{is_reset, resets_in, may_reset};

use pr_roles::{Item, Scenario};

/// Whether the unit may be reset once more after this history. It looks at each item.
#[tactic(auto, unfolding(pr_roles::specs::Scenarios::scenario_of))]
pub fn may_reset(scenario: &Scenario, history: &[Item]) -> bool
    ensures { result ≡ may_reset (scenario_of scenario.now) history.now }
{
    resets_in(history) < scenario.parts().resets as usize
}

// How often the unit was reset.
fn resets_in(history: &[Item]) -> usize
    ensures { result ≡ resets_in history.now }
{
    history.iter().filter(|item| is_reset(item)).count()
}

fn is_reset(item: &Item) -> bool
    ensures { result ≡ is_reset item.now }
{
    match item {
        Item::Sent(_) => false,
        Item::Reset => true,
    }
}
