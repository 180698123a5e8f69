//! What a reset of the unit makes of the states that a view shows.

ghost use Rattle.std.specs.Prelude.{◌≡◌, ◌<◌, ◌≤◌, ℕ, IfOk};
ghost use Rattle.pr_cdb.specs.declared.codes.TheConstants.{MOST_NEXUSES};
ghost use Rattle.pr_views.specs.Possibilities.{Scope};
ghost use Rattle.pr_views.specs.Views.{Fits};
ghost use Rattle.pr_views.specs.Portions.{view_in};
ghost use Rattle.pr_views.specs.Rooms.{scope_of, view_of, AreAlike, AreInRange};
ghost use Rattle.pr_interference.specs.Interference.{IsAfterReset};

use crate::marking::attentions_with;
use pr_attention::POWER_ON_BIT;
use pr_regions::kept;
use pr_sets::ViewSet;
use pr_views::{Possibilities, ViewOf};
use std::alloc::{AllocError, Global};

/// The view of the states that a reset of the unit leads to from a shown one: power on is pending for the owner, and all
/// else is as it was.
pub fn reset<S: ViewSet>(alloc: Global, view: &ViewOf<S>) -> Result<ViewOf<S>, AllocError>
    ensures alike { IfOk result (AreAlike view.now) }
    ensures reset { IfOk result (λ w. (own : ℕ) → own < view.now.hosts
        → IsAfterReset (view_of own view.now) (view_of own w)) }
{
    let left = left_by_reset(view);
    ViewOf::of(alloc, &view.keys, view.hosts, &left)
}

// What is possible after a reset.
fn left_by_reset<S: ViewSet>(view: &ViewOf<S>) -> Possibilities
    ensures range { AreInRange view.now.hosts view.now.keys.items result }
    ensures reset { (own : ℕ) → own < view.now.hosts
        → IsAfterReset (view_of own view.now) (view_in (scope_of own view.now) result) }
{
    after_reset(view.hosts, &view.possibilities())
}

/// What is so in some shown state, with power on among what is pending for the owner.
pub(crate) fn after_reset(hosts: u8, view: &Possibilities) -> Possibilities
    requires { (1 ≤ hosts) × (hosts ≤ MOST_NEXUSES) }
    ensures { (s : Scope) → s.hosts ≡ hosts → Fits (view_in s view.now)
        → IsAfterReset (view_in s view.now) (view_in s result) }
{
    let mut left = kept(hosts, view);
    left.pending = attentions_with(left.pending, POWER_ON_BIT);
    left
}
