//! Which branches of a flow graph control a node: those from which one successor reaches it, and from another an end is
//! reached round its address.
//!
//! A scratch holds the rows of bits of a flood, which goes back from up to 64 nodes at once. It is made once for a graph, and
//! no other call takes memory.
#![tactic(auto)]

pub mod laws;
mod rows;
mod scratch;
mod split;

pub use rows::with_bit;
pub use scratch::{WalkScratch, controls, flood, flood_all};
pub use split::at_of;

#[cfg(test)]
mod tests;
