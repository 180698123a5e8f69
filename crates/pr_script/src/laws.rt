//! Laws of the language, each the contract of a function with nothing to do.

ghost use Rattle.pr_script.specs.Limits.{LimitsAgree};
ghost use Rattle.pr_script.specs.Laws.{Settles, CostBoundsSends, FittingIsShallow};

/// What a script has still to do comes to rest: at a send, at a stop, or at its end.
pub fn settles()
    ensures { Settles }
{}

/// Whatever the replies are, and however many, a script sends at most as many commands as it costs.
#[tactic(auto, using(crate::proofs::lemmas::Costs::Budgets::cost_bounds_sends))]
pub fn cost_bounds_sends()
    ensures { CostBoundsSends }
{}

/// A script that may stand in a text nests no deeper than a [`Machine`](crate::Machine) has room for.
#[tactic(auto, using(crate::proofs::lemmas::Depths::FittingScripts::shallow))]
pub fn fitting_is_shallow()
    ensures { FittingIsShallow }
{}

/// The limits of scripts are those that docs/FORMATS.md lists.
pub fn limits_agree()
    ensures { LimitsAgree }
{}
