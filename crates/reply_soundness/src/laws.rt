//! Laws of the definitions.

ghost use Rattle.reply_soundness.specs.Told.{RepliesTellRuns};

/// The reply to a question about a round without warnings tells of each run: a slice and a matched slice have a line for each occurrence on
/// which one at their address depends, a forward slice one for each that depends on one at its address, and a chop one for each on the way
/// between two; and where one depends on another there is a path.
pub fn replies_tell_runs()
    ensures { RepliesTellRuns }
{}
