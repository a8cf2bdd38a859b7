//! Runs of the machine that runs an image, and which steps of a run depend on which by last write.
#![tactic(auto)]

mod acts;
mod answers;
mod externs;
mod finish;
mod heap;
mod laws;
mod log;
mod runs;
mod stepping;
mod writers;

pub use acts::{Act, act_at};
pub use laws::{sources_are_dependences, traces_are_runs};
pub use log::{Finish, Made, Occurrence, RunLog};
pub use runs::{eight_from, start_words, told_of, trace};
pub use stepping::advance;
pub use writers::{Writers, listed};
