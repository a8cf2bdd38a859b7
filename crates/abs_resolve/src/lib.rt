//! Which places of memory an address may mean in an abstract state: intervals of offsets in regions, and why it may mean others too.
//! An offset beyond an activation's own bytes is followed along the links to the activations that called it.
#![tactic(auto)]

mod levels;
mod owners;
mod parts;
mod search;
#[cfg(test)]
mod tests;
mod verdicts;

pub use owners::Owners;
pub use search::Places;
