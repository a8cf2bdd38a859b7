//! The machine of the 32-bit Intel architecture that runs an image: its start, its steps, and the blocks that it is given.
#![tactic(auto)]

mod apply;
mod fits;
mod machine;
mod step;
#[cfg(test)]
mod tests;
mod touched;

pub use apply::{perform, perform_all};
pub use fits::{all_fit, entry_fits};
pub use machine::Machine;
pub use step::{Choice, StepError, can_move, go_on, move_calls};
pub use touched::{StepOut, Touched};
