//! Whether a role permits a command.

ghost use Rattle.std.specs.Prelude.{◌≡◌, ◌<◌};
ghost use Rattle.std.specs.List.{list_any};
ghost use Rattle.pr_roles.specs.declared.role.Action.TheVariants as action;
ghost use Rattle.pr_roles.specs.Permits.{names, holds, clause_permits, is_always_permitted, command_permitted};

use crate::role::{Action, Clause, Condition, Role};
use pr_cdb::{Command, Kind};
use pr_registry::Registry;
use pr_unit::Unit;

/// Whether the role permits this command of the host, in the unit's state.
pub fn permits(role: &Role, unit: &Unit, host: u8, command: &Command) -> bool
    requires { host < unit.now.registry.hosts }
    ensures { result ≡ command_permitted role.now.clauses.items unit.now.registry host command.now }
{
    is_always_permitted(*command) || is_permitted_by(&role.clauses, unit.registry(), host, *command)
}

/// Whether the command only looks, so that every role permits it.
pub fn is_always_permitted(command: Command) -> bool
    ensures { result ≡ is_always_permitted command }
{
    matches!(
        command,
        Command::TestUnitReady
            | Command::RequestSense
            | Command::ReadKeys { .. }
            | Command::ReadReservation { .. }
            | Command::ReportCapabilities { .. }
    )
}

fn is_permitted_by(clauses: &[Clause], registry: &Registry, host: u8, command: Command) -> bool
    requires { host < registry.now.hosts }
    ensures { result ≡ list_any (λ clause. clause_permits clause registry.now host command)
        clauses.now }
{
    clauses
        .iter()
        .any(|clause| clause_permits(*clause, registry, host, command))
}

/// Whether the clause permits this command of the host: its action names it, and its condition holds.
pub fn clause_permits(clause: Clause, registry: &Registry, host: u8, command: Command) -> bool
    requires { host < registry.now.hosts }
    ensures { result ≡ clause_permits clause registry.now host command }
{
    names(clause.action, command) && holds(clause.condition, registry, host)
}

// Whether the condition holds of the host.
fn holds(condition: Option<Condition>, registry: &Registry, host: u8) -> bool
    requires { host < registry.now.hosts }
    ensures { result ≡ holds condition registry.now host }
{
    match condition {
        None => true,
        Some(Condition::Registered) => registry.is_registered(host),
        Some(Condition::Holder) => registry.is_holder(host),
        Some(Condition::Reserved) => registry.held().is_some(),
    }
}

/// Whether the clause's action names the command.
pub fn names(action: Action, command: Command) -> bool
    ensures { result ≡ names action command }
{
    match action {
        Action::Register(key) => registers(key, command),
        Action::Unregister => registers(0, command),
        Action::Reserve(kind) => reserves(kind, command),
        Action::Release => matches!(command, Command::Release { .. }),
        Action::Clear => matches!(command, Command::Clear { .. }),
        Action::Preempt(key, kind) => preempts(key, kind, command),
        Action::Read => matches!(command, Command::Read { .. }),
        Action::Write => matches!(command, Command::Write { .. }),
    }
}

fn registers(key: u64, command: Command) -> bool
    ensures { result ≡ names (action.Register key) command }
{
    match command {
        Command::Register { sark, .. } | Command::RegisterIgnore { sark } => sark == key,
        _ => false,
    }
}

fn reserves(kind: Kind, command: Command) -> bool
    ensures { result ≡ names (action.Reserve kind) command }
{
    match command {
        Command::Reserve { kind: asked, .. } => asked == kind,
        _ => false,
    }
}

fn preempts(key: u64, kind: Kind, command: Command) -> bool
    ensures { result ≡ names (action.Preempt key kind) command }
{
    match command {
        Command::Preempt {
            sark,
            kind: Some(asked),
            ..
        }
        | Command::PreemptAbort {
            sark,
            kind: Some(asked),
            ..
        } => sark == key && asked == kind,
        _ => false,
    }
}
