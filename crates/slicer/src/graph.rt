// A flow graph with its edges.
ghost use Rattle.std.specs.Prelude.{◌≡◌, ◌↔◌, ℕ, Bool, List, IfOk};
ghost use Rattle.flow_graph.specs.declared.graph.FlowNode.{FlowNode};
ghost use Rattle.dep_graph.specs.Edges.{HasEdges};
ghost use Rattle.slicer.specs.Slicer.{FlowEdge, ListedEdge, IsSlice, HasNodes};

use dep_graph::{Edges, data_edges};
use flow_graph::FlowGraph;
use std::alloc::{AllocError, Global};

/// A flow graph and the edges that slices follow in it.
#[derive(Debug, Drop)]
pub struct RoundGraph {
    /// The nodes.
    pub flow: FlowGraph,
    /// Pairs of numbers of nodes, each from what defines to what uses.
    pub edges: Edges,
}

impl RoundGraph {
    /// A flow graph with its data edges. A graph with more nodes than there are numbers is answered by want of memory.
    pub fn new(alloc: Global, flow: FlowGraph) -> Result<RoundGraph, AllocError>
        ensures flow { IfOk result (λ graph. graph.flow ≡ flow) }
        ensures edges { IfOk result (λ graph. HasEdges flow.nodes graph.edges.ordinary graph.edges.sp) }
        ensures nodes { IfOk result (λ graph. HasNodes graph.flow.nodes graph.edges.ordinary graph.edges.sp) }
    {
        let edges = data_edges(alloc, &flow)?;
        Ok(RoundGraph { flow, edges })
    }
}

/// What the slice over a graph's listed edges is: the data edges of a graph go between its nodes, and the slice over the two
/// lists of them is that over the edges themselves.
pub fn slice_laws()
    ensures nodes { (g : List FlowNode) (ordinary sp : List (ℕ × ℕ)) → HasEdges g ordinary sp → HasNodes g ordinary sp }
    ensures edges { (g : List FlowNode) (ordinary sp : List (ℕ × ℕ)) (skip_sp : Bool) (at : ℕ) (addresses : List ℕ) → HasEdges g ordinary sp → IsSlice (ListedEdge ordinary sp skip_sp) g at addresses ↔ IsSlice (FlowEdge g skip_sp) g at addresses }
{}
