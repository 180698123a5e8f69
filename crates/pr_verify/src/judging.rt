//! What a scenario comes to: its tables, and the first reason against it.

ghost use Rattle.std.specs.Prelude.{map, IfNone, IfOk, IfSome};
ghost use Rattle.pr_roles.specs.Safety.{IsSafe};
ghost use Rattle.pr_roles.specs.Scenarios.{on_shared_paths, scenario_of};
ghost use Rattle.pr_verify.specs.Outlines.{HaveOutlines};
ghost use Rattle.pr_views.specs.Tables.{table_of};
ghost use Rattle.pr_verify.specs.Rooms.{AreMadeFor};
ghost use Rattle.pr_verify.specs.Tables.{AreTables};
ghost use Rattle.pr_verify.specs.Verdicts.{IsFirstReason};

use crate::laws::outlines_make_safe;
use crate::tabling::judge_host;
use pr_roles::{Refusal, Scenario, has_script};
use pr_views::Table;
use std::alloc::{AllocError, Global};

/// What a scenario comes to.
#[derive(Drop)]
pub struct Judged {
    /// For each host that has a script, in order: its least sound outline, and what its command may come to at each send.
    pub tables: Vec<Table>,
    /// The first reason that the outlines show, as `verify` tells it; none where that accepts the scenario.
    pub refusal: Option<Refusal>,
}

/// Judges the scenario by one inference of each host that has a script. `verify` tells no more than whether there is a reason,
/// and stops at the first; here the tables of all hosts are there too, of an accepted scenario as of a refused one.
pub fn judge(alloc: Global, scenario: &Scenario) -> Result<Judged, AllocError>
    ensures tables { IfOk result (λ judged. AreTables (scenario_of scenario.now)
        (map table_of judged.tables.items)) }
    ensures made { IfOk result (λ judged. AreMadeFor (scenario_of scenario.now)
        judged.tables.items) }
    ensures safe { IfOk result (λ judged. IfNone judged.refusal
        (IsSafe (on_shared_paths (scenario_of scenario.now)))) }
    ensures outlines { IfOk result (λ judged. IfNone judged.refusal
        (HaveOutlines (scenario_of scenario.now))) }
    ensures reason { IfOk result (λ judged. IfSome judged.refusal
        (IsFirstReason (scenario_of scenario.now))) }
    ensures none { IfOk result (λ judged. IfSome judged.refusal
        (λ refusal. ¬ HaveOutlines (scenario_of scenario.now))) }
{
    outlines_make_safe();
    let mut tables = Vec::new(alloc);
    let mut refusal = None;
    let hosts = scenario.parts().nexuses.len() as u8;
    for host in 0..hosts {
        if has_script(scenario, host) {
            let (table, reason) = judge_host(alloc, scenario, host)?;
            tables.push(table)?;
            refusal = refusal.or(reason);
        }
    }
    Ok(Judged { tables, refusal })
}
