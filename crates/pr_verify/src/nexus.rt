//! What the nexuses of a scenario may meet.

ghost use Rattle.std.specs.Prelude.{◌≡◌, ◌<◌, length};
ghost use Rattle.pr_roles.specs.DeclaredRefusals.{refusals_of};
ghost use Rattle.pr_roles.specs.Scenarios.{scenario_of};

use pr_roles::{Refusals, Scenario, nexus_in};

/// Which of BUSY and TASK SET FULL it may meet, and whether the unit may report to it before it looks at the reservation.
pub(crate) fn refusals_in(scenario: &Scenario, host: u8) -> Refusals
    requires { host < length (scenario_of scenario.now).nexuses }
    ensures { result ≡ refusals_of (scenario_of scenario.now) host }
{
    nexus_in(scenario, host).refusals(scenario.parts().early)
}
