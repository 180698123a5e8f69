//! Which view of an outline is the first that lacks a possibility.
//!
//! Only `check_outline` asks for it, which no command of the program calls.

ghost use Rattle.std.specs.Prelude.{◌≡◌, ◌↔◌, map, option_map, IsTrue, IfOk, IfSome};
ghost use Rattle.std.specs.List.{Contains};
ghost use Rattle.pr_roles.specs.Starts.{CanStart};
ghost use Rattle.pr_views.specs.Rooms.{view_of};
ghost use Rattle.pr_verify.specs.Outlines.{view_at};
ghost use Rattle.pr_views.specs.Tables.{outline_of};
ghost use Rattle.pr_verify.specs.inside.Asked.{IsFirstUnstarted, scenario_in};
ghost use Rattle.pr_verify.specs.inside.Least.{least};
ghost use Rattle.pr_verify.specs.inside.Lacking.{CanCompare, IsFirstWithout, IsWithinAt};

use crate::answers::Questions;
use pr_domain::of_start;
use pr_views::{Outline, View};
use std::alloc::{AllocError, Global};

/// The smaller of two lines, where they are there.
pub(crate) fn least(line: Option<u32>, other: Option<u32>) -> Option<u32>
    ensures { result ≡ least line other }
{
    match (line, other) {
        (Some(line), Some(other)) => Some(line.min(other)),
        (Some(line), None) => Some(line),
        (None, other) => other,
    }
}

/// The first of the lines, by number, at which the outline has no view with everything that is possible in this one.
pub(crate) fn first_lacking(outline: &Outline, known: &View, lines: &[u32]) -> Option<u32>
    requires { CanCompare outline.now.views.items known.now }
    ensures { IsFirstWithout outline.now known.now lines.now result }
{
    let mut first = None;
    for line in lines {
        if !has_within(outline, *line, known) {
            first = least(first, Some(*line));
        }
    }
    first
}

// Whether the outline has a view at this line in which everything is possible that is possible in this one.
fn has_within(outline: &Outline, line: u32, known: &View) -> bool
    requires { CanCompare outline.now.views.items known.now }
    ensures { IsTrue result ↔ IsWithinAt outline.now known.now line }
{
    match view_at(outline, line) {
        None => false,
        Some(view) => known.within(view),
    }
}

// The view at this line.
fn view_at(outline: &Outline, line: u32) -> Option<&View>
    ensures value { view_at (outline_of outline.now).views line
        ≡ option_map (λ v. view_of outline.now.host v.now) result }
    ensures listed { IfSome result (λ v. Contains (map (λ e. e.1) outline.now.views.items) v.now) }
{
    for (at, view) in &outline.views {
        if *at == line {
            return Some(view);
        }
    }
    None
}

/// The first of these lines, at which the script may be ready first, whose view lacks a state that the scenario may
/// start from.
pub(crate) fn lacking_at_start(
    alloc: Global,
    asked: &Questions,
    lines: &[u32],
) -> Result<Option<u32>, AllocError>
    requires starts { CanStart (scenario_in asked.now) }
    ensures { IfOk result (IsFirstUnstarted asked.now lines.now) }
{
    let outline = asked.outline;
    let start = of_start(alloc, asked.scenario, outline.host)?;
    Ok(first_lacking(outline, &start, lines))
}
