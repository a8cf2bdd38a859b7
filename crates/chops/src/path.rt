//! By which arrows one address may influence another.
ghost use Rattle.std.specs.Prelude.{◌↔◌, ◌<◌, ◌^◌, IfOk, IsTrue, length};
ghost use Rattle.slicer.specs.Slicer.{HasNodes, ListedEdge};
ghost use Rattle.chops.specs.Answers.{IsPresent};
ghost use Rattle.chops.specs.Hops.{IsWhy, WhyAnswer};

use crate::arrows::list_arrows;
use crate::counts::count_arrows;
use crate::hops::{Hop, list_hops};
use crate::trace::shortest;
use flow_graph::FlowNode;
use slicer::RoundGraph;
use std::alloc::{AllocError, Global};

/// Why there is no answer.
#[derive(Clone, Copy, Debug, PartialEq, Eq)]
pub enum WhyError {
    /// No node stands at the address that influences.
    From,
    /// Nodes stand there, and none at the address that depends.
    To,
    /// Memory is wanting.
    Memory,
}

/// Whether a node stands at this address.
pub fn is_present(nodes: &[FlowNode], at: u32) -> bool
    ensures { IsTrue result ↔ IsPresent nodes.now at }
{
    for node in nodes {
        if node.at == at {
            return true;
        }
    }
    false
}

// The hops of the shortest path, or none where there is no path.
fn find_hops(
    alloc: Global,
    graph: &RoundGraph,
    from: u32,
    to: u32,
    skip_sp: bool,
) -> Result<Vec<Hop>, AllocError>
    requires { HasNodes graph.now.flow.nodes graph.now.edges.ordinary graph.now.edges.sp }
    ensures { IfOk result (λ hops. IsWhy (ListedEdge graph.now.edges.ordinary graph.now.edges.sp skip_sp) graph.now.flow.nodes from to hops.items) }
{
    let nodes = graph.flow.nodes.as_slice();
    if nodes.len() >= 1 << 32 {
        return Err(AllocError);
    }
    let arrows = list_arrows(alloc, graph, skip_sp)?;
    let counts = count_arrows(alloc, nodes, from, arrows.as_slice())?;
    let trace = shortest(alloc, nodes, from, to, arrows.as_slice(), counts.as_slice())?;
    let hops = list_hops(alloc, graph, skip_sp, trace.as_slice())?;
    Ok(hops)
}

/// The hops along a shortest path of arrows from a node at one address to a node at another, the first node included, and none where
/// there is no path. Of several such paths it is the one whose list of node numbers, read from its end, comes first. With `skip_sp`
/// the edges by ESP are left out. It is an error where no node stands at one of the addresses; a graph with more nodes than there are
/// numbers is answered by want of memory.
pub fn why(
    alloc: Global,
    graph: &RoundGraph,
    from: u32,
    to: u32,
    skip_sp: bool,
) -> Result<Vec<Hop>, WhyError>
    requires { HasNodes graph.now.flow.nodes graph.now.edges.ordinary graph.now.edges.sp }
    ensures path { IfOk result (λ hops. IsWhy (ListedEdge graph.now.edges.ordinary graph.now.edges.sp skip_sp) graph.now.flow.nodes from to hops.items) }
    ensures absent { WhyAnswer graph.now.flow.nodes from to result }
{
    let nodes = graph.flow.nodes.as_slice();
    if !is_present(nodes, from) {
        return Err(WhyError::From);
    }
    if !is_present(nodes, to) {
        return Err(WhyError::To);
    }
    match find_hops(alloc, graph, from, to, skip_sp) {
        Err(AllocError) => Err(WhyError::Memory),
        Ok(hops) => Ok(hops),
    }
}
