//! Whether the views of an outline stand whatever the others do, and through resets of the unit.

ghost use Rattle.std.specs.Prelude.{◌≡◌, ℕ, false, map, IsTrue, IfOk};
ghost use Rattle.std.specs.List.{Contains};
ghost use Rattle.pr_views.specs.Rooms.{view_of};
ghost use Rattle.pr_interference.specs.Interference.{IsClosed};
ghost use Rattle.pr_verify.specs.inside.Asked.{IsFirstLeft, IsOpenIn, scenario_in, view_in};
ghost use Rattle.pr_verify.specs.inside.Kept.{IsMadeAs};
ghost use Rattle.pr_verify.specs.inside.Lacking.{CanCompare, IsClosedTo, IsClosedToResets};

use crate::answers::Questions;
use pr_interference::{interfere, reset};
use pr_roles::nexus_in;
use pr_views::View;
use std::alloc::{AllocError, Global};

/// The first line whose view lacks a state to which a permitted command of another or a reset leads from one that it shows.
pub(crate) fn lacking_by_others(alloc: Global, asked: &Questions) -> Result<Option<u32>, AllocError>
    ensures { IfOk result (IsFirstLeft asked.now) }
{
    let outline = asked.outline;
    for (i, entry) in outline.views.iter().enumerate() {
        // What was found of an equal view before holds of this one.
        let known = is_one_of(&entry.1, &outline.views[..i]);
        if !known && !is_closed(alloc, asked, &entry.1)? {
            return Ok(Some(entry.0));
        }
    }
    Ok(None)
}

// Whether the view is the same as one of these.
fn is_one_of(view: &View, others: &[(u32, View)]) -> bool
    requires { CanCompare others.now view.now }
    ensures { IsTrue result → (own : ℕ) → Contains (map (λ e. view_of own e.1) others.now)
        (view_of own view.now) }
{
    for (_, other) in others {
        if view.within(other) && other.within(view) {
            return true;
        }
    }
    false
}

// Whether the view shows each state to which a permitted command of another or a reset leads from one that it shows.
fn is_closed(alloc: Global, asked: &Questions, view: &View) -> Result<bool, AllocError>
    requires { IsMadeAs (scenario_in asked.now) view.now }
    ensures closed { IfOk result (λ is. IsTrue is
        → IsClosed (scenario_in asked.now) (view_in asked.now view.now)) }
    ensures open { IfOk result (λ is. is ≡ false → IsOpenIn asked.now view.now) }
{
    if !is_closed_to_resets(alloc, asked, view)? {
        return Ok(false);
    }
    is_closed_to_others(alloc, asked, view)
}

// Whether it shows each shown state after a reset, where the scenario has any.
fn is_closed_to_resets(alloc: Global, asked: &Questions, view: &View) -> Result<bool, AllocError>
    requires { IsMadeAs (scenario_in asked.now) view.now }
    ensures closed { IfOk result (λ is. IsTrue is
        → IsClosedToResets (scenario_in asked.now) (view_in asked.now view.now)) }
    ensures open { IfOk result (λ is. is ≡ false → IsOpenIn asked.now view.now) }
{
    if asked.scenario.parts().resets == 0 {
        return Ok(true);
    }
    let left = reset(alloc, view)?;
    Ok(left.within(view))
}

// Whether it shows each state to which a permitted command of another leads from one that it shows.
fn is_closed_to_others(alloc: Global, asked: &Questions, view: &View) -> Result<bool, AllocError>
    requires { IsMadeAs (scenario_in asked.now) view.now }
    ensures closed { IfOk result (λ is. IsTrue is
        → IsClosedTo view.now.hosts (scenario_in asked.now) (view_in asked.now view.now)) }
    ensures open { IfOk result (λ is. is ≡ false → IsOpenIn asked.now view.now) }
{
    let own = asked.outline.host;
    for other in 0..view.hosts {
        if other != own {
            let role = &nexus_in(asked.scenario, other).role;
            let left = interfere(alloc, view, own, other, role)?;
            if !left.within(view) {
                return Ok(false);
            }
        }
    }
    Ok(true)
}
