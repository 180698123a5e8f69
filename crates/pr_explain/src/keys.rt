//! Which keys commands, arms and roles name.

use pr_cdb::Command;
use pr_roles::{Action, Nexus, Task};
use pr_script::Test;
use pr_unit::{Admission, admission_of, demand_of};

/// Whether the command has this key in one of its fields.
pub(crate) fn names_key(command: &Command, key: u64) -> bool {
    demand_of(*command).key() == Some(key) || admission_of(*command).key() == Some(key)
}

/// Whether the command needs a reservation key and has none: 0 is nobody's, so it always conflicts.
pub(crate) fn is_keyless(command: &Command) -> bool {
    admission_of(*command) == Admission::Own(0)
}

/// The reservation key that the command names, if it needs one.
pub(crate) fn reservation_key(command: &Command) -> Option<u64> {
    admission_of(*command).key().filter(|key| *key != 0)
}

/// Whether the arm waits for this key.
pub(crate) fn waits_for_key(test: Test, key: u64) -> bool {
    matches!(test, Test::GoodHas(known) | Test::GoodHeld(known) if known == key)
}

fn permits_key(action: Action, key: u64) -> bool {
    matches!(action, Action::Register(known) | Action::Preempt(known, _) if known == key)
}

/// Whether the start, the role or the plan of the nexus names this key.
pub(crate) fn declares_key(nexus: &Nexus, key: u64) -> bool {
    nexus.start.alternatives.contains(&Some(key))
        || nexus
            .role
            .clauses
            .iter()
            .any(|clause| permits_key(clause.action, key))
        || plans_key(&nexus.task, key)
}

fn plans_key(task: &Task, key: u64) -> bool {
    match task {
        Task::Scripted { .. } => false,
        Task::Planned(commands) => commands.iter().any(|command| names_key(command, key)),
    }
}
