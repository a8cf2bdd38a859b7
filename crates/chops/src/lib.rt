//! Forward slices and chops of flow graphs, and shortest paths of arrows: what a node may influence, what lies between two nodes, and by
//! which arrows.
//!
//! Slices and chops mark nodes in a scratch, which is made once for a graph, so that no other call of theirs takes memory. A path goes by
//! a list of all arrows, and by the number of arrows with which each node is reached.
#![tactic(auto)]

mod along;
mod arrows;
mod control;
mod counts;
mod hops;
mod laws;
mod listing;
mod masks;
mod path;
mod search;
mod slices;
mod trace;
mod walker;

pub use control::control_pairs;
pub use hops::{Hop, HopKind};
pub use laws::{chop_laws, path_laws};
pub use listing::Listing;
pub use path::{WhyError, is_present, why};
pub use slices::{ChopAbsent, ChopScratch, chop, forward};

#[cfg(test)]
mod tests;
