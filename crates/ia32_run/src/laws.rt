//! Laws of the definitions.

ghost use Rattle.ia32_run.specs.LastWrites.{SourcesAreDependences};
ghost use Rattle.ia32_run.specs.Traces.{TracesAreRuns};

/// An occurrence of a run depends directly by data on those that wrote last what it reads.
pub fn sources_are_dependences()
    ensures { SourcesAreDependences }
{}

/// What a trace tells of is a run of the machine.
pub fn traces_are_runs()
    ensures { TracesAreRuns }
{}
