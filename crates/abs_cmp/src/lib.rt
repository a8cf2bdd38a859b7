//! What a branch on the last comparison tells of the value that was compared.
#![tactic(auto)]

mod rows;
#[cfg(test)]
mod tests;
mod values;

pub use values::refine;
