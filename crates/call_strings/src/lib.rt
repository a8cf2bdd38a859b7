//! Call strings: the places of a program at which an analysis keeps states apart, and their numbers.
//!
//! A node is an address, the procedure that runs, and the newest call sites that led to it. [`NodeTable`] gives each node a
//! number in the order in which they come.
#![tactic(auto)]

mod context;
mod table;
#[cfg(test)]
mod tests;

pub use context::{Context, Node};
pub use table::{MAX_NODES, NodeTable, NumberError};
