//! Outcomes, each landing once.

ghost use Rattle.std.specs.Prelude.{◌≡◌, ◌≢◌, ◌↔◌, ℕ, true, OnOk, IfSome, IfNone, IsTrue, Some};
ghost use Rattle.std.specs.List.{slice_get};
ghost use Rattle.pr_sets.specs.Wides.{has_wide};
ghost use Rattle.pr_views.specs.declared.possibilities.Possibilities.{Possibilities};
ghost use Rattle.pr_views.specs.Possibilities.{Scope};
ghost use Rattle.pr_views.specs.Views.{IsPossible};
ghost use Rattle.pr_views.specs.Portions.{view_in};
ghost use Rattle.pr_domain.specs.inside.Reporting.{AreKept, AreMore};

use pr_script::Landing;
use pr_views::Possibilities;
use std::alloc::AllocError;

// The place of the outcome with this landing.
fn place_of(outcomes: &[(Landing, Possibilities)], landing: Landing) -> Option<usize>
    ensures some { IfSome result (λ k. (p : Possibilities)
        × (slice_get outcomes.now k ≡ Some (landing, p))) }
    ensures none { IfNone result ((k : ℕ) (p : Possibilities)
        → slice_get outcomes.now k ≢ Some (landing, p)) }
{
    for (place, outcome) in outcomes.iter().enumerate() {
        if outcome.0 == landing {
            return Some(place);
        }
    }
    None
}

/// Adds these possibilities to the outcome with this landing, or to a new one.
pub(crate) fn put(
    outcomes: &mut Vec<(Landing, Possibilities)>,
    landing: Landing,
    found: Possibilities,
) -> Result<(), AllocError>
    requires some { (x : ℕ) × (has_wide found.reservations x ≡ true) }
    requires kept { AreKept outcomes.old.items }
    ensures kept { OnOk result (AreKept outcomes.new.items) }
    ensures more { OnOk result ((s : Scope) → AreMore s outcomes.old.items
        (λ l i. (l ≡ landing) × IsPossible (view_in s found) i) outcomes.new.items) }
{
    match place_of(outcomes, landing) {
        Some(place) => outcomes[place].1.join(&found),
        None => outcomes.push((landing, found))?,
    }
    Ok(())
}
