//! The texts of what a round of an analysis holds: values, locations, warnings and the graph.
#![tactic(auto)]

mod graph;
mod lines;
mod locations;
mod names;
mod nodes;
mod push;
mod readings;
mod regions;
mod values;
mod warnings;

pub use graph::graph_json;
pub use lines::{Place, push_addresses, push_first_line, push_last_line};
pub use locations::locations_text;
pub use push::{push_number, push_signed};
pub use readings::reading;
pub use values::values_text;
pub use warnings::warnings_text;

#[cfg(test)]
mod tests;
