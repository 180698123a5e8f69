//! Which commands end in RESERVATION CONFLICT (SPC-4, 'Reservations', the table of commands that are allowed).

ghost use Rattle.std.specs.Prelude.{◌≡◌, ◌<◌, not};
ghost use Rattle.pr_registry.specs.Hosts.{is_key};
ghost use Rattle.pr_unit.specs.Demands.{is_wrong_key, keeps_out, is_not_admitted};
ghost use Rattle.pr_unit.specs.Conduct.{command_conflicts};

use crate::conduct::is_kept;
use crate::demand::{Admission, admission_of, demand_of};
use pr_cdb::Command;
use pr_registry::Registry;

/// Whether the command of the host ends in RESERVATION CONFLICT.
pub(crate) fn command_conflicts(registry: &Registry, host: u8, command: Command) -> bool
    requires { host < registry.now.hosts }
    ensures { result ≡ command_conflicts registry.now host command }
{
    is_not_admitted(registry.key(host), command) || is_kept(registry, host, demand_of(command))
}

/// Whether the command is refused from a sender with this key, if it has one, for the reservation key that it names.
pub fn is_not_admitted(key: Option<u64>, command: Command) -> bool
    ensures { result ≡ is_not_admitted key command }
{
    match admission_of(command) {
        Admission::Open => false,
        Admission::OwnOrNone(rk) => is_wrong_key(key, rk),
        Admission::Own(rk) => !is_key(key, rk),
    }
}

fn is_wrong_key(key: Option<u64>, rk: u64) -> bool
    ensures { result ≡ is_wrong_key key rk }
{
    match key {
        None => rk != 0,
        Some(key) => key != rk,
    }
}

/// Whether this is the key.
pub fn is_key(key: Option<u64>, rk: u64) -> bool
    ensures { result ≡ is_key key rk }
{
    match key {
        None => false,
        Some(key) => key == rk,
    }
}
