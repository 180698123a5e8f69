//! Whether a scenario may start from a state of its unit.

ghost use Rattle.std.specs.Prelude.{◌≡◌, ◌<◌, true};
ghost use Rattle.std.specs.List.{Contains};
ghost use Rattle.pr_roles.specs.Scenarios.{scenario_of};
ghost use Rattle.pr_roles.specs.Starts.{IsAllowedStart};
ghost use Rattle.pr_witness.specs.inside.Starting.{MayStart, MayStartBelow};

use pr_registry::{Held, Registry};
use pr_roles::{Nexus, Scenario};
use pr_unit::Unit;

/// Whether the scenario may start from this state. Where the answer is yes, it may.
pub fn is_allowed_start(scenario: &Scenario, unit: &Unit) -> bool
    ensures { result ≡ true → IsAllowedStart (scenario_of scenario.now) unit.now }
{
    let parts = scenario.parts();
    let registry = unit.registry();
    if usize::from(registry.hosts()) != parts.nexuses.len() {
        return false;
    }
    may_hold(&parts.reservations, registry) && may_start_each(&parts.nexuses, unit)
}

// Whether the reservation is one of these.
fn may_hold(reservations: &[Option<Held>], registry: &Registry) -> bool
    ensures { result ≡ true → Contains reservations.now registry.now.held }
{
    reservations.contains(&registry.held())
}

// Whether each nexus may start as it does in this state.
fn may_start_each(nexuses: &[Nexus], unit: &Unit) -> bool
    ensures { result ≡ true → MayStartBelow nexuses.now unit.now unit.now.registry.hosts }
{
    for host in 0..unit.registry().hosts() {
        let Some(nexus) = nexuses.get(usize::from(host)) else {
            return false;
        };
        if !may_start(nexus, unit, host) {
            return false;
        }
    }
    true
}

// Whether the nexus may start as it does in this state.
fn may_start(nexus: &Nexus, unit: &Unit, host: u8) -> bool
    requires { host < unit.now.registry.hosts }
    ensures { result ≡ true → MayStart nexus.now unit.now host }
{
    nexus
        .start
        .alternatives
        .contains(&unit.registry().key(host))
        && unit.pending(host).is_within(&nexus.pending)
}
