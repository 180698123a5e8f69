//! What a host's own command may come to.

ghost use Rattle.std.specs.Prelude.{◌≡◌, ◌<◌, ◌≤◌, true, length, map, IfOk, IsTrue};
ghost use Rattle.std.specs.List.{All, AllZip};
ghost use Rattle.pr_script.specs.declared.limits.TheConstants.{MOST_ARMS};
ghost use Rattle.pr_script.specs.Grammar.{is_written, test_fits};
ghost use Rattle.pr_views.specs.Rooms.{view_of, AreAlike, AreInRange};
ghost use Rattle.pr_domain.specs.Outcomes.{AreOutcomes};
ghost use Rattle.pr_domain.specs.inside.Reporting.{HasWords};

use crate::reporting::Sending;
use crate::tallying::tally;
use crate::tested::TestedCommand;
use pr_cdb::{Command, in_range};
use pr_roles::Refusals;
use pr_script::{Landing, Test};
use pr_sets::ViewSet;
use pr_views::{Possibilities, ViewOf};
use std::alloc::{AllocError, Global};

/// What a host's own command may come to in the states that its view shows: each landing with the view of the states
/// that it leaves, and each landing once. `refusals` says which of BUSY and TASK SET FULL the host may meet, and whether the unit
/// may report an attention to it before it looks at the reservation.
pub fn outcomes<S: ViewSet>(
    alloc: Global,
    view: &ViewOf<S>,
    host: u8,
    command: &Command,
    tests: &[Test],
    refusals: Refusals,
) -> Result<Vec<(Landing, ViewOf<S>)>, AllocError>
    requires host { host < view.now.hosts }
    requires written { IsTrue (is_written view.now.keys.items command.now) }
    requires tests { All (λ t. test_fits view.now.keys.items command.now t ≡ true) tests.now }
    requires few { length tests.now ≤ MOST_ARMS }
    ensures outcomes { IfOk result (λ outcomes. AreOutcomes (view_of host view.now)
        refusals command.now tests.now (map (λ o. (o.0, view_of host o.1))
        outcomes.items)) }
    ensures alike { IfOk result (λ outcomes. All (λ o. AreAlike view.now o.1) outcomes.items) }
{
    let keys: &[u64] = &view.keys;
    let known = view.possibilities();
    in_range(*command);
    let asked = TestedCommand {
        keys,
        command: *command,
        tests,
    };
    let tally = tally(&known, view.hosts, host, &asked);
    let sending = Sending {
        asked,
        hosts: view.hosts,
        sender: host,
        known,
        tally: &tally,
        refusals,
    };
    let found = sending.outcomes(alloc)?;
    let outcomes = as_views(alloc, view, &found)?;
    Ok(outcomes)
}

// The outcomes with views like this one in place of words.
fn as_views<S: ViewSet>(
    alloc: Global,
    view: &ViewOf<S>,
    found: &[(Landing, Possibilities)],
) -> Result<Vec<(Landing, ViewOf<S>)>, AllocError>
    requires range { All (λ f. AreInRange view.now.hosts view.now.keys.items f.1) found.now }
    ensures { IfOk result (λ views. AllZip (HasWords view.now) found.now views.items) }
{
    let mut views = Vec::new(alloc);
    for (landing, possibilities) in found {
        let left = ViewOf::of(alloc, &view.keys, view.hosts, possibilities)?;
        views.push((*landing, left))?;
    }
    Ok(views)
}
