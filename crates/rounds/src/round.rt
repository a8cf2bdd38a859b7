//! What a round of an analysis has found.

use alocs::Cells;
use slicer::RoundGraph;
use vsa::{States, Warning};

/// A round of an analysis.
#[derive(Drop)]
pub struct Round {
    /// Rounds count from 0.
    pub number: u32,
    /// How many of the newest call sites a node keeps.
    pub lane: u32,
    pub cells: Cells,
    pub states: States,
    /// The flow graph and its data edges, with a node for each node of the states.
    pub graph: RoundGraph,
    /// What can't be followed: by address, then in the order of names, each once.
    pub warnings: Vec<Warning>,
    /// Whether there is no round behind this one.
    pub last: bool,
}
