//! Laws of the unit's behaviour, each the contract of a function with nothing to do.

ghost use Rattle.pr_unit.specs.Capacity.{CapacityAgrees};
ghost use Rattle.pr_unit.specs.Laws.{EffectsAreWellFormed, StepsAreWellFormed, StepsKeepHosts, EveryRequestHasAStep, GoodIsFixed, StepsAreNeverBusy, GoodStepsTakeEffect, FreeCommandsEndGood, QuietSteps, ResetsTellEach, ResetsAreWellFormed};

/// A command without conflict and fault leaves a well formed state well formed.
pub fn effects_are_well_formed()
    ensures { EffectsAreWellFormed }
{}

/// A step leads from a well formed state to a well formed one, if the sender is there and the request's
/// fields are in their types' ranges.
pub fn steps_are_well_formed()
    ensures { StepsAreWellFormed }
{}

/// No step changes how many hosts there are.
pub fn steps_keep_hosts()
    ensures { StepsKeepHosts }
{}

/// Each request has an answer, in each state.
pub fn every_request_has_a_step()
    ensures { EveryRequestHasAStep }
{}

/// Whether a request ends GOOD is fixed by the state, the host and the request, whichever attention is
/// reported.
pub fn good_is_fixed()
    ensures { GoodIsFixed }
{}

/// The unit by itself answers neither BUSY nor TASK SET FULL.
pub fn steps_are_never_busy()
    ensures { StepsAreNeverBusy }
{}

/// A command that ends GOOD neither conflicts nor is at fault, and has its effect; but REQUEST SENSE may
/// report an attention instead.
pub fn good_steps_take_effect()
    ensures { GoodStepsTakeEffect }
{}

/// Where nothing is pending for its sender, a command that neither conflicts nor is at fault ends GOOD.
pub fn free_commands_end_good()
    ensures { FreeCommandsEndGood }
{}

/// What does not end GOOD, and every request but PERSISTENT RESERVE OUT, changes at most what is pending
/// for the sender.
pub fn quiet_steps()
    ensures { QuietSteps }
{}

/// After a reset power on is pending for each host, and else what was pending before.
pub fn resets_tell_each()
    ensures { ResetsTellEach }
{}

/// A reset leads from a well formed state to a well formed one.
pub fn resets_are_well_formed()
    ensures { ResetsAreWellFormed }
{}

/// The unit has as many blocks as docs/MODEL.md says.
pub fn capacity_agrees()
    ensures { CapacityAgrees }
{}
