//! What outlines promise, each the contract of a function with nothing to do.

ghost use Rattle.pr_verify.specs.Laws.{OutlinesMakeSafe, ReasonsAreFinal};

/// Outlines that are sound and fit, one for each scripted host, make a scenario safe, if the fields of what is sent are in the
/// ranges of their types.
#[tactic(auto, using(crate::proofs::lemmas::Laws::Outlines::outlines_make_safe))]
pub fn outlines_make_safe()
    ensures { OutlinesMakeSafe }
{}

/// A host with a reason against it has no outline that is sound and fits.
#[tactic(auto, using(crate::proofs::lemmas::Verdicts::Reasons::reasons_are_final))]
pub fn reasons_are_final()
    ensures { ReasonsAreFinal }
{}
