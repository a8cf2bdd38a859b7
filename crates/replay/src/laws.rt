//! Laws of the definitions.

ghost use Rattle.replay.specs.Laws.{ReplaysAreRuns, FailuresTellNoRun};

/// The run that lines tell is one of the machine, and where a line fails they tell none.
pub fn replay_laws()
    ensures runs { ReplaysAreRuns }
    ensures failures { FailuresTellNoRun }
{}
