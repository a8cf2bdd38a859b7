//! What accesses to memory say of a map from nodes to abstract states: which places each node of its flow graph may use, may define
//! and must define, and where memory is to be cut.
#![tactic(auto)]

mod accesses;
mod calls;
mod cells;
mod core_sets;
mod counts;
mod cuts;
mod ends;
mod facts;
mod graph;
mod graph_cells;
mod kept;
mod kinds;
mod laws;
mod next;
mod node;
mod numbers;
mod places;
mod reach;
mod rows;
mod sets;
mod visits;

pub use cuts::{constraints, kept_lists};
pub use graph::flow;
pub use kinds::step_kinds;
pub use laws::{must_definitions_are_definitions, places_of_cells, places_rise};
pub use reach::{Reach, reaches};

#[cfg(test)]
mod tests;
