//! What instructions do to an abstract state, and what they and externs access in memory.
#![tactic(auto)]

mod access_lists;
mod arithmetic;
mod comparisons;
mod externs;
mod moves;
mod products;
mod rows;
mod stack;
mod stores;
mod strings;
#[cfg(test)]
mod tests;
mod view;

pub use access_lists::{accesses, reads, writes};
pub use externs::{extern_accesses, extern_reads, extern_writes};
pub use rows::post;
pub use view::View;
