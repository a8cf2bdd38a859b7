//! That replies about a round without warnings tell of each run of the program: slices, matched slices, forward slices, chops and paths. These
//! are laws, and no code.
#![tactic(auto)]

mod laws;

pub use laws::replies_tell_runs;
