// The graph and its nodes.
ghost use Rattle.std.specs.Prelude.{◌≡◌, length};

use item_list::Items;

/// What is known of one instruction in one context.
#[derive(Debug, Drop)]
pub struct FlowNode {
    /// The instruction's address.
    pub at: u32,
    /// The nodes to which control may go next, by number.
    pub next: Items<u32>,
    /// The places that it may read.
    pub may_use: Items<u32>,
    /// The places that it may write.
    pub may_def: Items<u32>,
    /// The places that it writes always.
    pub must_def: Items<u32>,
    /// Whether its successor depends on what it reads.
    pub branch: bool,
    /// Whether a run may be complete after it.
    pub end: bool,
}

/// The nodes of a program, each named by its index.
#[derive(Debug, Drop)]
pub struct FlowGraph {
    /// The nodes. A number past them, in a list of successors, names no node.
    pub nodes: Items<FlowNode>,
}
