//! The data edges of a flow graph: where what a node may define of a place may reach a node that may use it.
//!
//! For each place the nodes that may use it are taken 64 at a time, and each is followed back in a bit of its own as far as
//! nodes don't define the place for certain. `laws` has the plain body, by single walks.
#![tactic(auto)]

mod def_rows;
mod edges;
pub mod laws;
pub mod pairs;
mod spread;

pub use def_rows::{DefRows, numbers, reaching};
pub use edges::{ESP, Edges, data_edges, push_if, used_places, users};
pub use spread::{all_unless, may_define, must_define};

#[cfg(test)]
mod tests;
