//! Backward slices of flow graphs: which nodes' addresses may matter for those at one address.
//!
//! A slice goes back over the edges that it is handed and over control. It marks nodes in a scratch, which is made once for
//! a graph, so that no other call takes memory.
#![tactic(auto)]

mod graph;
mod list;
mod queue;
mod scratch;
mod search;

pub use graph::{RoundGraph, slice_laws};
pub use list::list_slice;
pub use queue::Queue;
pub use scratch::{Absent, Scratch, backward};
pub use search::{begin, follow, follow_edges, sweep};

#[cfg(test)]
mod tests;
