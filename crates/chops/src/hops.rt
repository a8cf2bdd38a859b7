//! Hops along a path.
ghost use Rattle.std.specs.Prelude.{◌<◌, All, IfOk, length, reverse};
ghost use Rattle.slicer.specs.Slicer.{ListedEdge};
ghost use Rattle.chops.specs.Hops.{AreHops, IsHop, IsKind};

use crate::arrows::has_edge;
use slicer::RoundGraph;
use std::alloc::{AllocError, Global};

/// How a path comes to a node.
#[derive(Clone, Copy, Debug, PartialEq, Eq)]
pub enum HopKind {
    /// It begins there.
    First,
    /// By an edge: the node may use what the one before it may define.
    ByPlace,
    /// By control alone: the node before it is a branch that controls it.
    ByBranch,
}

/// A node of a path.
#[derive(Clone, Copy, Debug, PartialEq, Eq)]
pub struct Hop {
    /// Where the node stands.
    pub at: u32,
    /// How the path comes to it.
    pub kind: HopKind,
}

// How a path comes to a node from the one before it.
fn kind_of(graph: &RoundGraph, skip_sp: bool, before: Option<u32>, node: u32) -> HopKind
    ensures { IsKind (ListedEdge graph.now.edges.ordinary graph.now.edges.sp skip_sp) before node result }
{
    match before {
        None => HopKind::First,
        Some(from) => {
            if has_edge(&graph.edges, skip_sp, from, node) {
                return HopKind::ByPlace;
            }
            HopKind::ByBranch
        }
    }
}

// The hop to a node from the one before it.
fn hop_to(graph: &RoundGraph, skip_sp: bool, before: Option<u32>, node: u32) -> Hop
    requires { node < length graph.now.flow.nodes }
    ensures { IsHop (ListedEdge graph.now.edges.ordinary graph.now.edges.sp skip_sp) graph.now.flow.nodes before node result }
{
    let at = graph.flow.nodes.as_slice()[node as usize].at;
    let kind = kind_of(graph, skip_sp, before, node);
    Hop { at, kind }
}

/// The hops along a path, which is read from its end.
pub(crate) fn list_hops(
    alloc: Global,
    graph: &RoundGraph,
    skip_sp: bool,
    trace: &[u32],
) -> Result<Vec<Hop>, AllocError>
    requires { All (λ n. n < length graph.now.flow.nodes) trace.now }
    ensures { IfOk result (λ hops. AreHops (ListedEdge graph.now.edges.ordinary graph.now.edges.sp skip_sp) graph.now.flow.nodes trace.now (reverse hops.items)) }
{
    let mut hops = Vec::new(alloc);
    let mut rest = trace;
    let mut before = None;
    while let Some((node, others)) = rest.split_last() {
        let hop = hop_to(graph, skip_sp, before, *node);
        hops.push(hop)?;
        before = Some(*node);
        rest = others;
    }
    Ok(hops)
}
