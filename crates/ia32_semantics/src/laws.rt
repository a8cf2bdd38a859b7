//! Laws of the definitions.

ghost use Rattle.image_map.specs.declared.image.Image.{Image};
ghost use Rattle.image_map.specs.declared.region.Settings.{Settings};
ghost use Rattle.ia32_semantics.specs.Ia32.{machine};
ghost use Rattle.ia32_semantics.specs.Runs.{BeginningsAreRuns};
ghost use Rattle.ia32_semantics.specs.Laws.{StartsAreWhole, ChangesOnlyWrites, WritesFollowReads, StepsStaySized, StepsStayLaidOut, StepsKeepToTables, DependsOnLastWriters};

/// A state in which a run starts is whole.
pub fn starts_are_whole()
    ensures { StartsAreWhole }
{}

/// Each beginning of a run is a run.
pub fn beginnings_are_runs()
    ensures { (image : Image) (settings : Settings) → BeginningsAreRuns (machine image settings) }
{}

/// A step changes only what it writes or forgets, of all that was there before.
pub fn changes_only_writes()
    ensures { ChangesOnlyWrites }
{}

/// What a step writes and doesn't forget follows from what it reads, and so does where control goes.
pub fn writes_follow_reads()
    ensures { WritesFollowReads }
{}

/// A step leaves registers, eip and bytes in their ranges.
pub fn steps_stay_sized()
    ensures { StepsStaySized }
{}

/// A step leaves segments, stack and blocks as they should lie.
pub fn steps_stay_laid_out()
    ensures { StepsStayLaidOut }
{}

/// What is read and was written before, and not forgotten since, depends on its last writer.
pub fn depends_on_last_writers()
    ensures { (image : Image) (settings : Settings) → DependsOnLastWriters (machine image settings) }
{}

/// What a step of an instruction reads and writes of registers and flags is what its tables say, and what they
/// say is written is, unless it is repeated no times or shifted by 0.
pub fn steps_keep_to_tables()
    ensures { StepsKeepToTables }
{}
