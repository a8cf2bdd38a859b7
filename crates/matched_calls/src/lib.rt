//! Slices along matched calls: walks on which a return goes back to its call, and the edges and the control that come by such walks.
//!
//! A matched walk goes in two phases, first by steps that may return to callers, and then by steps that may call; a call that comes back
//! is a step of both. For each place it is worked out first which calls come back without defining it for certain.
#![tactic(auto)]

mod extend;
mod graph;
mod kinds;
mod laws;
mod places;
mod search;
mod sites;
mod slice;
mod summary;

pub use graph::{MatchedGraph, matched_graph};
pub use kinds::{StepKinds, are_kinds_of};
pub use laws::matched_laws;
pub use slice::{MatchedError, matched_backward};

#[cfg(test)]
mod tests;
