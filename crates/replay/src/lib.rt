//! Runs that a file tells, and what is told of them beside a slice.
#![tactic(auto)]

mod digits;
mod file;
mod laws;
mod lines;
mod steps;
#[cfg(test)]
mod tests;
mod text;

pub use file::{ReplayError, replay};
pub use laws::replay_laws;
pub use text::{Asked, replay_text};
