// The rows of a flood, and the branches that it shows.
ghost use Rattle.std.specs.Prelude.{◌≡◌, ℕ, ◌<◌, ◌≤◌, ◌↔◌, ◌∷◌, [], All, Contains, length, IsTrue, IfOk};
ghost use Rattle.std.specs.List.Sorted.{IsStrictlyIncreasing};
ghost use Rattle.flow_graph.specs.FlowGraph.{IsAt, Reaches, Escapes};
ghost use Rattle.flow_graph.specs.Rows.{HasBit, IsBit};
ghost use Rattle.control_walks.specs.ControlWalks.{Controls};
ghost use Rattle.control_walks.specs.Floods.{Floods, Splits};

use super::rows::{flood_escaping, flood_reaching};
use super::split;
use flow_graph::{FlowGraph, sweep_order, word_at};
use std::alloc::{AllocError, Global};
use std::marker::Model;

/// Room for a flood of a graph, so that the flood takes no memory.
#[derive(Debug, Drop)]
pub struct WalkScratch {
    order: Vec<u32>,
    kept: Vec<u64>,
    reaching: Vec<u64>,
    escaping: Vec<u64>,
    list: Vec<u32>,
    listed: usize,
}

impl Model for WalkScratch {
    ghost use Rattle.std.specs.Prelude.{length, take};
    ghost use Rattle.control_walks.specs.Floods.{Flooded, HasRoom};

    ghost Value = { Flooded };

    ghost view = { λ s. record { size = length s.reaching.items; reaching = s.reaching.items; escaping = s.escaping.items; branches = take s.listed s.list.items } };

    ghost invariant = { λ s. HasRoom (length s.reaching.items) (length s.kept.items) (length s.escaping.items) (length s.list.items) s.listed };
}

impl WalkScratch {
    /// Room for the floods of this graph, or of one with no more nodes. It holds the graph's order of sweeps, which no result
    /// hangs on. A graph with more nodes than there are numbers gets no scratch.
    pub fn new(alloc: Global, graph: &FlowGraph) -> Result<WalkScratch, AllocError>
        ensures { IfOk result (λ s. s.size ≡ length graph.now.nodes) }
    {
        let nodes = graph.nodes.as_slice();
        let count = nodes.len();
        if count >= 1 << 32 {
            return Err(AllocError);
        }
        let order = sweep_order(alloc, nodes)?;
        let kept = vec![in alloc; 0; count]?;
        let reaching = vec![in alloc; 0; count]?;
        let escaping = vec![in alloc; 0; count]?;
        let list = vec![in alloc; 0; count]?;
        Ok(WalkScratch {
            order,
            kept,
            reaching,
            escaping,
            list,
            listed: 0,
        })
    }

    /// For how many nodes there is room.
    pub fn size(&self) -> usize
        ensures { result ≡ self.now.size }
    {
        self.reaching.len()
    }

    /// Whether the last flood, of one node, came to this node: a walk of no or more steps goes from here to that node.
    pub fn reaches(&self, node: u32) -> bool
        ensures { IsTrue result ↔ HasBit self.now.reaching node 0 }
    {
        is_odd(word_at(&self.reaching, node as usize))
    }

    /// Whether, by the last flood, of one node, a walk of no or more steps goes from here to an end round that node's address.
    pub fn escapes(&self, node: u32) -> bool
        ensures { IsTrue result ↔ HasBit self.now.escaping node 0 }
    {
        is_odd(word_at(&self.escaping, node as usize))
    }

    /// Whether this branch, by the last flood, controls one of the flooded nodes.
    pub fn splits(&self, graph: &FlowGraph, branch: u32) -> bool
        ensures { IsTrue result ↔ Splits graph.now.nodes self.now.reaching self.now.escaping branch }
    {
        split::splits(
            graph.nodes.as_slice(),
            &self.reaching,
            &self.escaping,
            branch,
        )
    }

    /// The row of the last flood that shows which nodes reach the flooded ones.
    pub fn reaching(&self) -> &[u64]
        ensures { result.now ≡ self.now.reaching }
    {
        self.reaching.as_slice()
    }

    /// The row of the last flood that shows from which nodes an end is reached round the flooded ones' addresses.
    pub fn escaping(&self) -> &[u64]
        ensures { result.now ≡ self.now.escaping }
    {
        self.escaping.as_slice()
    }

    /// The branches last listed by `controls`.
    pub fn branches(&self) -> &[u32]
        ensures { result.now ≡ self.now.branches }
    {
        &self.list[..self.listed]
    }
}

// Whether bit 0 is set.
fn is_odd(word: u64) -> bool
    ensures { IsTrue result ↔ IsBit word 0 }
{
    word % 2 == 1
}

/// Floods a graph back from up to 64 nodes at once: their k-th has bit k in the rows.
pub fn flood_all(graph: &FlowGraph, targets: &[u32], s: &mut WalkScratch)
    requires few { length targets.now ≤ 64 }
    requires inside { All (λ n. n < length graph.now.nodes) targets.now }
    requires made { length graph.now.nodes ≤ s.old.size }
    ensures floods { Floods graph.now.nodes targets.now s.new }
    ensures size { s.new.size ≡ s.old.size }
{
    let nodes = graph.nodes.as_slice();
    flood_reaching(nodes, &s.order, targets, &mut s.kept, &mut s.reaching);
    flood_escaping(nodes, &s.order, targets, &mut s.kept, &mut s.escaping);
}

/// Floods a graph back from a node. `reaches` and `escapes` then show which nodes reach it, and from which an end is reached
/// round its address.
pub fn flood(graph: &FlowGraph, node: u32, s: &mut WalkScratch)
    requires inside { node < length graph.now.nodes }
    requires made { length graph.now.nodes ≤ s.old.size }
    ensures reaches { (m : ℕ) → HasBit s.new.reaching m 0 ↔ Reaches graph.now.nodes m node }
    ensures escapes { (m at : ℕ) → IsAt graph.now.nodes at node → HasBit s.new.escaping m 0 ↔ Escapes graph.now.nodes at m }
    ensures floods { Floods graph.now.nodes (node ∷ []) s.new }
    ensures size { s.new.size ≡ s.old.size }
{
    flood_all(graph, &[node], s);
}

/// Lists the branches that control a node, rising; `branches` shows them.
pub fn controls(graph: &FlowGraph, node: u32, s: &mut WalkScratch)
    requires inside { node < length graph.now.nodes }
    requires made { length graph.now.nodes ≤ s.old.size }
    ensures rising { IsStrictlyIncreasing s.new.branches }
    ensures listed { (b : ℕ) → Contains s.new.branches b ↔ Controls graph.now.nodes b node }
    ensures size { s.new.size ≡ s.old.size }
{
    flood(graph, node, s);
    list_branches(graph, s);
}

// Lists the branches that split the rows of the last flood.
fn list_branches(graph: &FlowGraph, s: &mut WalkScratch)
    requires { length graph.now.nodes ≤ s.old.size }
    ensures rising { IsStrictlyIncreasing s.new.branches }
    ensures listed { (b : ℕ) → Contains s.new.branches b ↔ Splits graph.now.nodes s.old.reaching s.old.escaping b }
    ensures size { s.new.size ≡ s.old.size }
{
    s.listed = split::list_splits(
        graph.nodes.as_slice(),
        &s.reaching,
        &s.escaping,
        &mut s.list,
    );
}
