//! The nexuses of a scenario.

ghost use Rattle.std.specs.Prelude.{◌≡◌, ◌<◌, length, Some};
ghost use Rattle.pr_roles.specs.Fitting.{Fits};
ghost use Rattle.pr_roles.specs.Scenarios.{nexus, nexus_of, scenario_of, task};
ghost use Rattle.pr_roles.specs.Starts.{CanStart};
ghost use Rattle.pr_roles.specs.Tasks.{has_script};

use crate::parts::{Nexus, Task};
use crate::scenario::Scenario;

/// The nexus with this number, as it is kept.
pub fn nexus_in(scenario: &Scenario, host: u8) -> &Nexus
    requires { host < length (scenario_of scenario.now).nexuses }
    ensures nexus { nexus (scenario_of scenario.now) host ≡ Some (nexus_of result.now) }
    ensures fits { Fits (scenario_of scenario.now) }
    ensures starts { CanStart (scenario_of scenario.now) }
{
    &scenario.parts().nexuses[usize::from(host)]
}

/// Whether the nexus with this number has a script.
pub fn has_script(scenario: &Scenario, host: u8) -> bool
    ensures { result ≡ has_script (task (scenario_of scenario.now) host) }
{
    match scenario.parts().nexuses.get(usize::from(host)) {
        Some(nexus) => matches!(nexus.task, Task::Scripted { .. }),
        None => false,
    }
}
