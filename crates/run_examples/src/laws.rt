//! Laws of the definitions.

ghost use Rattle.run_examples.specs.Laws.{AreRuns};

/// A small program with a call, a loop, memory and an extern has a complete run, in which occurrences depend on others by registers, flags
/// and memory, and by the way that a branch went.
pub fn runs_have_dependences()
    ensures { AreRuns }
{}
