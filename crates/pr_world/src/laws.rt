//! Laws of replays and schedules: what safety and legality, as they are defined, say of each of them.

ghost use Rattle.pr_world.specs.Laws.{ReplaysAreLegal, SafeReplaysEndUntrapped, SafeReplaysKeepBudgets, SafeReplaysKeepRoles, SafeSchedulesKeepToRooms};

/// The history of a replay are a legal history from the first start.
pub fn replays_are_legal()
    ensures { ReplaysAreLegal }
{}

/// In a replay of a safe scenario no script meets a reply without an arm.
pub fn safe_replays_end_untrapped()
    ensures { SafeReplaysEndUntrapped }
{}

/// In a replay of a safe scenario no host sends more commands than its budget.
pub fn safe_replays_keep_budgets()
    ensures { SafeReplaysKeepBudgets }
{}

/// In a replay of a safe scenario each entry of a host that ends GOOD is a command that its role permits, in the state to which
/// the history before it led.
pub fn safe_replays_keep_roles()
    ensures { SafeReplaysKeepRoles }
{}

/// Where turns and resets led in a safe scenario, no host has sent more commands than its budget, and no guest more than its plan
/// has.
pub fn safe_schedules_keep_to_rooms()
    ensures { SafeSchedulesKeepToRooms }
{}
