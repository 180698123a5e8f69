//! The table of a host.

ghost use Rattle.std.specs.Prelude.{◌≡◌, ◌<◌, ◌↔◌, ℕ, map, IsTrue, IfOk};
ghost use Rattle.std.specs.List.{All, AllPairs, AllZip, Contains};
ghost use Rattle.pr_script.specs.declared.landing.Class.{Class};
ghost use Rattle.pr_script.specs.declared.landing.Landing.TheVariants.{Arm, NoArm};
ghost use Rattle.pr_roles.specs.Scenarios.{scenario_of, task};
ghost use Rattle.pr_verify.specs.Outlines.{OnScripted};
ghost use Rattle.pr_verify.specs.Refusals.{class_number};
ghost use Rattle.pr_roles.specs.Tasks.{IsScripted};
ghost use Rattle.pr_verify.specs.Rooms.{IsMadeFor};
ghost use Rattle.pr_verify.specs.Tables.{IsTable};
ghost use Rattle.pr_views.specs.Tables.{table_of};
ghost use Rattle.pr_verify.specs.inside.Asked.{IsAnswered, IsFirstMisfitIn, IsMisfitIn, IsRowIn};
ghost use Rattle.pr_verify.specs.inside.Tabling.{IsCosted, IsInRange, IsJudgement};

use crate::answers::Questions;
use crate::checking::check_cost;
use crate::inferring::{infer, script_in};
use crate::places::{Spot, spots};
use crate::reviewing::{first_unarmed, number_of, review};
use pr_roles::{Refusal, Scenario, Task, nexus_in};
use pr_script::{Class, Landing};
use pr_views::{Row, Table, View};
use std::alloc::{AllocError, Global};

/// The table of a host that has a script, and the first reason against the host, if there is one.
pub(crate) fn judge_host(
    alloc: Global,
    scenario: &Scenario,
    host: u8,
) -> Result<(Table, Option<Refusal>), AllocError>
    requires { IsScripted (task (scenario_of scenario.now) host) }
    ensures host { IfOk result (λ r. r.0.outline.host ≡ host) }
    ensures table { IfOk result (λ r. OnScripted (task (scenario_of scenario.now) host)
        (λ script budget. IsTable (scenario_of scenario.now) script (table_of r.0))) }
    ensures made { IfOk result (λ r. IsMadeFor (scenario_of scenario.now) r.0.outline) }
    ensures judgement { IfOk result (λ r. IsJudgement (scenario_of scenario.now) host r.1) }
{
    let script = script_in(scenario, host);
    let spots = spots(alloc, script)?;
    let outline = infer(alloc, scenario, host)?;
    let questions = Questions {
        scenario,
        outline: &outline,
        spots: &spots,
    };
    let (rows, misfit) = rows(alloc, &questions)?;
    let reason = over_budget(scenario, host).or(misfit);
    Ok((Table { outline, rows }, reason))
}

// That the script of a host costs more than its budget, if it does.
fn over_budget(scenario: &Scenario, host: u8) -> Option<Refusal>
    requires { IsScripted (task (scenario_of scenario.now) host) }
    ensures { OnScripted (task (scenario_of scenario.now) host)
        (λ script budget. IsCosted (scenario_of scenario.now) host script budget result) }
{
    match &nexus_in(scenario, host).task {
        Task::Scripted { script, budget } => check_cost(script, *budget, host).err(),
        Task::Planned(_) => unreachable!(),
    }
}

// A row for each send; and how the first send does not fit that does not, if there is one.
fn rows(alloc: Global, asked: &Questions) -> Result<(Vec<Row>, Option<Refusal>), AllocError>
    ensures rows { IfOk result (λ r. AllZip (IsRowIn asked.now) asked.now.spots.now r.0.items) }
    ensures misfit { IfOk result (λ r. IsFirstMisfitIn asked.now r.1) }
{
    let mut known = Vec::new(alloc);
    let mut rows = Vec::new(alloc);
    let mut first = None;
    for (i, spot) in asked.spots.iter().enumerate() {
        let answer = asked.answer(alloc, &mut known, i)?;
        let outcomes = &known[answer].outcomes;
        let view = &asked.outline.views[i].1;
        let (row, misfit) = row_of_spot(alloc, asked, view, spot, outcomes)?;
        rows.push(row)?;
        first = first.or(misfit);
    }
    Ok((rows, first))
}

// The row of one send: the view at its line, and how its command may end there; and how the send does not fit, if it does not.
fn row_of_spot(
    alloc: Global,
    asked: &Questions,
    view: &View,
    spot: &Spot,
    outcomes: &[(Landing, View)],
) -> Result<(Row, Option<Refusal>), AllocError>
    requires { IsAnswered asked.now view.now spot.now outcomes.now }
    ensures row { IfOk result (λ r. IsRowIn asked.now spot.now r.0) }
    ensures misfit { IfOk result (λ r. IsMisfitIn asked.now spot.now r.1) }
{
    let (permitted, misfit) = review(asked, view, spot, outcomes);
    let tests = Vec::from_slice(alloc, &spot.tests)?;
    let arms = arms_taken(alloc, outcomes, spot.tests.len())?;
    let unarmed = unarmed(alloc, outcomes)?;
    let row = Row {
        command: spot.command,
        tests,
        permitted,
        arms,
        unarmed,
    };
    Ok((row, misfit))
}

// The arms, of so many, in which some outcome lands.
fn arms_taken(
    alloc: Global,
    outcomes: &[(Landing, View)],
    count: usize,
) -> Result<Vec<usize>, AllocError>
    ensures each { IfOk result (λ arms. (n : ℕ)
        → Contains arms.items n ↔ ((n < count)
        × Contains (map (λ o. o.0) outcomes.now) (Arm n))) }
    ensures rise { IfOk result (λ arms. AllPairs (λ m n. m < n) arms.items) }
{
    let mut arms = Vec::new(alloc);
    for arm in 0..count {
        if lands_in(outcomes, Landing::Arm(arm)) {
            arms.push(arm)?;
        }
    }
    Ok(arms)
}

fn lands_in(outcomes: &[(Landing, View)], landing: Landing) -> bool
    ensures { IsTrue result ↔ Contains (map (λ o. o.0) outcomes.now) landing }
{
    for (other, _) in outcomes {
        if *other == landing {
            return true;
        }
    }
    false
}

// How the replies end with which some outcome lands in no arm.
fn unarmed(alloc: Global, outcomes: &[(Landing, View)]) -> Result<Vec<Class>, AllocError>
    ensures each { IfOk result (λ classes. (class : Class)
        → Contains classes.items class ↔ Contains (map (λ o. o.0) outcomes.now) (NoArm class)) }
    ensures rise { IfOk result (λ classes. AllPairs (λ c d. class_number c < class_number d)
        classes.items) }
{
    are_in_range(outcomes);
    let mut classes = Vec::new(alloc);
    let mut from = 0;
    while let Some(class) = first_unarmed(outcomes, from) {
        from = number_of(class) + 1;
        classes.push(class)?;
    }
    Ok(classes)
}

// The senses have their fields in the ranges of their types, as each match knows. So no two have one number.
fn are_in_range(outcomes: &[(Landing, View)])
    ensures { All (λ o. (class : Class) → o.0 ≡ NoArm class → IsInRange class) outcomes.now }
{
    for (landing, _) in outcomes {
        if let Landing::NoArm(class) = landing {
            is_in_range(*class);
        }
    }
}

fn is_in_range(class: Class)
    ensures { IsInRange class }
{
    if let Class::Sense(sense) = class {
        let _ = (sense.key, sense.asc, sense.ascq);
    }
}
