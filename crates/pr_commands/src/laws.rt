//! Laws of what the commands write, each the contract of a function with nothing to do.

ghost use Rattle.pr_commands.specs.AuditedTraces.{ReplaysAreAuditedLegal, RunsAreAuditedLegal};
ghost use Rattle.pr_commands.specs.Replays.{ReplaysAreTraced};

/// What a replay answers has the trace of its scheduled run.
#[tactic(auto, using(crate::proofs::lemmas::Replays::Traces::replays_are_traced))]
pub fn replays_are_traced()
    ensures { ReplaysAreTraced }
{}

/// An audit of what a replay writes says `legal`.
pub fn replays_are_audited_legal()
    ensures { ReplaysAreAuditedLegal }
{}

/// So does an audit of what a run writes that isn't refused.
pub fn runs_are_audited_legal()
    ensures { RunsAreAuditedLegal }
{}
