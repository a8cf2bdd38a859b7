//! The arrows of a graph, as one list.
ghost use Rattle.std.specs.Prelude.{◌↔◌, ℕ, Contains, IfOk, IsTrue};
ghost use Rattle.slicer.specs.Slicer.{Arrow, ListedEdge};

use crate::control::control_pairs;
use dep_graph::Edges;
use slicer::RoundGraph;
use std::alloc::{AllocError, Global};

// The edges by ESP, or none where they are left out.
fn sp_edges(edges: &Edges, skip_sp: bool) -> &[(u32, u32)]
    ensures { (m n : ℕ) → Contains result.now (m, n) ↔ ((¬ IsTrue skip_sp) × Contains edges.now.sp (m, n)) }
{
    if skip_sp {
        return &[];
    }
    edges.sp.as_slice()
}

/// The arrows along edges and control, those by ESP unless they are left out.
pub(crate) fn list_arrows(
    alloc: Global,
    graph: &RoundGraph,
    skip_sp: bool,
) -> Result<Vec<(u32, u32)>, AllocError>
    ensures { IfOk result (λ arrows. (m n : ℕ) → Contains arrows.items (m, n) ↔ Arrow (ListedEdge graph.now.edges.ordinary graph.now.edges.sp skip_sp) graph.now.flow.nodes m n) }
{
    let mut arrows = control_pairs(alloc, &graph.flow)?;
    arrows.extend_from_slice(graph.edges.ordinary.as_slice())?;
    arrows.extend_from_slice(sp_edges(&graph.edges, skip_sp))?;
    Ok(arrows)
}

// Whether a list has a pair.
fn has_pair(pairs: &[(u32, u32)], from: u32, to: u32) -> bool
    ensures { IsTrue result ↔ Contains pairs.now (from, to) }
{
    pairs.contains(&(from, to))
}

/// Whether an edge goes from one node to another, those by ESP left out where that is asked.
pub(crate) fn has_edge(edges: &Edges, skip_sp: bool, from: u32, to: u32) -> bool
    ensures { IsTrue result ↔ ListedEdge edges.now.ordinary edges.now.sp skip_sp from to }
{
    if has_pair(edges.ordinary.as_slice(), from, to) {
        return true;
    }
    if skip_sp {
        return false;
    }
    has_pair(edges.sp.as_slice(), from, to)
}
