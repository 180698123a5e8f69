//! Laws of starts, of refusals, of resets, of fetches and of safe runs, each the contract of a function with nothing to do.

ghost use Rattle.pr_roles.specs.Limits.{LimitsAgree};
ghost use Rattle.pr_roles.specs.SharedAnswers.{FetchesReachAll};
ghost use Rattle.pr_roles.specs.SafeRuns.{FewerPremisesAreNoSafer, RunsGoOn, SafeSendsAreFine, SharedPathsAreNoSafer};
ghost use Rattle.pr_roles.specs.Laws.{StartsAreFound, FirstStartsAreEarliest, RefusalsAreCounted, RefusalsAreDeclared, FirstVersionIsPlain, ResetsAreCounted, ResetsAreDeclared, FirstVersionHasNoReset, FetchesAreUnheard};

/// Where parts fit, some state is allowed to start from exactly where the first start finds a reservation.
pub fn starts_are_found()
    ensures { StartsAreFound }
{}

/// No allowed start has a reservation that is written before that of the first start.
pub fn first_starts_are_earliest()
    ensures { FirstStartsAreEarliest }
{}

/// The limits of a scenario's parts are those that docs/FORMATS.md lists.
pub fn limits_agree()
    ensures { LimitsAgree }
{}

/// The history of a run tells how often a nexus was refused.
pub fn refusals_are_counted()
    ensures { RefusalsAreCounted }
{}

/// No nexus is refused more often than the scenario has it.
pub fn refusals_are_declared()
    ensures { RefusalsAreDeclared }
{}

/// In a scenario of version 1 the unit answers each command.
pub fn first_version_is_plain()
    ensures { FirstVersionIsPlain }
{}

/// The history of a run tells how often the unit was reset.
pub fn resets_are_counted()
    ensures { ResetsAreCounted }
{}

/// The unit is reset no more often than the scenario has it.
pub fn resets_are_declared()
    ensures { ResetsAreDeclared }
{}

/// In a scenario of version 1 there is no reset.
pub fn first_version_has_no_reset()
    ensures { FirstVersionHasNoReset }
{}

/// Where somebody else is told of an attention, it is pending no more, no script goes on, and nothing stands in the history.
pub fn fetches_are_unheard()
    ensures { FetchesAreUnheard }
{}

/// On a shared path each state in which no more is pending for its nexus comes of fetches.
pub fn fetches_reach_all()
    ensures { FetchesReachAll }
{}

/// A run and one event more are a run.
#[tactic(auto, using(crate::proofs::lemmas::SafeRuns::NextEvents::runs_go_on))]
pub fn runs_go_on()
    ensures { RunsGoOn }
{}

/// After any run of a safe scenario a script that sends finds an arm for the reply, and has kept to its budget and its
/// role.
pub fn safe_sends_are_fine()
    ensures { SafeSendsAreFine }
{}

/// A scenario that is safe where somebody else may look at the disk by each path is safe where nobody does.
pub fn shared_paths_are_no_safer()
    ensures { SharedPathsAreNoSafer }
{}

/// A scenario that is safe without two premises, that nobody else sends on the paths and that the disk looks at the reservation
/// first, is safe where others may send and the order is its own.
pub fn fewer_premises_are_no_safer()
    ensures { FewerPremisesAreNoSafer }
{}
