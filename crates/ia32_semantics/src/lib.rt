//! What a machine of the 32-bit Intel architecture does that runs an image: its states, its steps, its runs,
//! and which steps of a run depend on which. These are definitions and laws on them, and no code.
#![tactic(auto)]

mod flags;
mod laws;
mod state;

pub use flags::{FlagOut, Flags, FlagsOut};
pub use laws::{
    beginnings_are_runs, changes_only_writes, depends_on_last_writers, starts_are_whole,
    steps_keep_to_tables, steps_stay_laid_out, steps_stay_sized, writes_follow_reads,
};
pub use state::Allocation;
