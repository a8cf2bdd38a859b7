//! The cuts with which an analysis of an image begins: the ends of segments and relocated words, and the constants of the code.
#![tactic(auto)]

mod constants;
mod cuts;
mod laws;
mod taking;

pub use cuts::{file_cuts, first_lists};
pub use laws::first_lists_are_cut_lists;

#[cfg(test)]
mod tests;
