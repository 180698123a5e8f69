//! The first view of an outline that is not sound, and the first send that does not fit.

ghost use Rattle.std.specs.Prelude.{◌≡◌, ◌↔◌, ◌<◌, false, IfOk, IfSome, IsTrue};
ghost use Rattle.std.specs.List.{All};
ghost use Rattle.pr_script.specs.Trees.{script_of};
ghost use Rattle.pr_roles.specs.Starts.{CanStart};
ghost use Rattle.pr_verify.specs.Outlines.{KeepsToRole};
ghost use Rattle.pr_verify.specs.Refusals.{class_number};
ghost use Rattle.pr_verify.specs.inside.Asked.{IsAnswered, IsFirstMisfitIn, IsFirstUnsound, IsMisfitIn, outline_in, scenario_in};
ghost use Rattle.pr_verify.specs.inside.Listing.{lines_in, place_of, AreSendsOf};
ghost use Rattle.pr_verify.specs.inside.Lacking.{CanCompare, IsFirstWithoutAfter};
ghost use Rattle.pr_verify.specs.inside.Reviewing.{IsBy, IsFirstUnarmed};

use crate::answers::Questions;
use crate::lacking::{first_lacking, lacking_at_start, least};
use crate::others::lacking_by_others;
use crate::places::{Spot, first_lines, lines_after};
use pr_domain::permitted;
use pr_roles::{Refusal, nexus_in};
use pr_script::{Class, Landing, Script};
use pr_views::{Outline, View};
use std::alloc::{AllocError, Global};

/// The first line whose view lacks a state that it has to show: an allowed start, one to which a send leads, or one that the
/// others leave.
pub(crate) fn first_unsound(
    alloc: Global,
    script: &Script,
    asked: &Questions,
) -> Result<Option<u32>, AllocError>
    requires starts { CanStart (scenario_in asked.now) }
    requires places { AreSendsOf (script_of script.now) asked.now.spots.now }
    ensures { IfOk result (IsFirstUnsound asked.now (script_of script.now)) }
{
    let firsts = first_lines(alloc, script)?;
    let start = lacking_at_start(alloc, asked, &firsts)?;
    let others = lacking_by_others(alloc, asked)?;
    let mut known = Vec::new(alloc);
    let mut own = None;
    for (i, spot) in asked.spots.iter().enumerate() {
        let answer = asked.answer(alloc, &mut known, i)?;
        let outcomes = &known[answer].outcomes;
        own = least(own, lacking_after(asked.outline, outcomes, &spot.next));
    }
    Ok(least(least(start, own), others))
}

/// The first send whose command the role doesn't permit, or of which no arm takes some reply.
pub(crate) fn first_misfit(alloc: Global, asked: &Questions) -> Result<Option<Refusal>, AllocError>
    ensures { IfOk result (IsFirstMisfitIn asked.now) }
{
    let mut known = Vec::new(alloc);
    for (i, spot) in asked.spots.iter().enumerate() {
        let answer = asked.answer(alloc, &mut known, i)?;
        let outcomes = &known[answer].outcomes;
        let (_, misfit) = review(asked, &asked.outline.views[i].1, spot, outcomes);
        if let Some(refusal) = misfit {
            return Ok(Some(refusal));
        }
    }
    Ok(None)
}

// The first line to which an outcome leads, and whose view lacks something of the outcome's.
fn lacking_after(outline: &Outline, outcomes: &[(Landing, View)], next: &[Vec<u32>]) -> Option<u32>
    requires { All (λ o. CanCompare outline.now.views.items o.1) outcomes.now }
    ensures { IsFirstWithoutAfter outline.now (lines_in next.now) outcomes.now result }
{
    let mut first = None;
    for (landing, left) in outcomes {
        first = least(
            first,
            first_lacking(outline, left, lines_after(*landing, next)),
        );
    }
    first
}

/// Whether the role permits the command of the send wherever it ends GOOD in the view; and how the send does not fit, if it does
/// not: its role comes first, then the first class of replies without an arm.
pub(crate) fn review(
    asked: &Questions,
    view: &View,
    spot: &Spot,
    outcomes: &[(Landing, View)],
) -> (bool, Option<Refusal>)
    requires { IsAnswered asked.now view.now spot.now outcomes.now }
    ensures permitted { IsTrue result.0 ↔ KeepsToRole (scenario_in asked.now) (outline_in asked.now)
        (place_of spot.now) }
    ensures misfit { IsMisfitIn asked.now spot.now result.1 }
{
    let host = asked.outline.host;
    let line = spot.line;
    let role = &nexus_in(asked.scenario, host).role;
    if !permitted(view, role, host, &spot.command) {
        return (false, Some(Refusal::OutOfRole { host, line }));
    }
    match first_unarmed(outcomes, 0) {
        Some(class) => (true, Some(Refusal::NoArm { host, line, class })),
        None => (true, None),
    }
}

/// Of the classes of replies without an arm that have this number or a greater one, the first.
pub(crate) fn first_unarmed(outcomes: &[(Landing, View)], from: u32) -> Option<Class>
    ensures { IsFirstUnarmed from outcomes.now result }
{
    let mut first = None;
    for (landing, _) in outcomes {
        if let Landing::NoArm(class) = landing {
            if from <= number_of(*class) && !is_by(first, *class) {
                first = Some(*class);
            }
        }
    }
    first
}

// Whether there is a class that comes no later than this one.
fn is_by(first: Option<Class>, class: Class) -> bool
    ensures by { IsTrue result → IsBy first class }
    ensures later { result ≡ false → IfSome first (λ f. class_number class < class_number f) }
{
    match first {
        None => false,
        Some(first) => number_of(first) <= number_of(class),
    }
}

/// The number by which classes come one after another.
pub(crate) fn number_of(class: Class) -> u32
    ensures { result ≡ class_number class }
{
    match class {
        Class::Good => 0,
        Class::Conflict => 1,
        Class::Busy => 2,
        Class::Full => 3,
        Class::Sense(sense) => {
            let key = u32::from(sense.key);
            let asc = u32::from(sense.asc);
            4 + ((key * 256 + asc) * 256 + u32::from(sense.ascq))
        }
    }
}
