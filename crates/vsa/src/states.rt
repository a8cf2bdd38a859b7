//! What an analysis gives of a program.

use abs_state::AbsState;
use alocs::Cells;
use call_strings::Node;

/// Which abstract states hold at the nodes of a program.
#[derive(Drop)]
pub struct States {
    /// How many of the newest call sites a node keeps.
    pub lane: u32,
    pub cells: Cells,
    /// The nodes, rising.
    pub nodes: Vec<Node>,
    /// The state of each node.
    pub values: Vec<AbsState>,
    /// Whether more nodes were met than a map may have.
    pub full: bool,
}
