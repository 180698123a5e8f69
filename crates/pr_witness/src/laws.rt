//! What a breach says of its scenario, each the contract of a function with nothing to do.

ghost use Rattle.pr_witness.specs.Breaches.{BreachesAreLegal, BreachesRefuteSafety};

/// A scenario of which there is a breach is not safe.
pub fn breaches_refute_safety()
    ensures { BreachesRefuteSafety }
{}

/// The history of a breach is a legal history of its scenario from the start of the breach.
pub fn breaches_are_legal()
    ensures { BreachesAreLegal }
{}
