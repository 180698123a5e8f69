//! Laws of the texts, each the contract of a function with nothing to do.

ghost use Rattle.pr_trace.specs.TraceLaws.{TracesOfRunsAreRead, WrittenTracesAreRead};

/// What is written of entries, under the names of a scenario, is read as them.
#[tactic(auto, using(crate::proofs::lemmas::TraceLaws::Traces::written_are_read))]
pub fn written_traces_are_read()
    ensures { WrittenTracesAreRead }
{}

/// The trace of a run is read as the run's history.
#[tactic(auto, using(crate::proofs::lemmas::TraceLaws::Runs::runs_are_read))]
pub fn traces_of_runs_are_read()
    ensures { TracesOfRunsAreRead }
{}
