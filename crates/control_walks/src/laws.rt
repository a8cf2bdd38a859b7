//! The plain body: two walks for each branch and each two of its successors. It is what the definition says, and slow; tests
//! compare the floods with it.
ghost use Rattle.std.specs.Prelude.{◌≡◌, ◌≢◌, ℕ, ◌+◌, ◌<◌, ◌≤◌, ◌^◌, ◌↔◌, ◌∷◌, [], ◌++◌, if◌then◌else◌, Contains, length, IsTrue, IfOk, OnOk};
ghost use Rattle.std.specs.List.Sorted.{IsStrictlyIncreasing};
ghost use Rattle.flow_graph.specs.FlowGraph.{IsAt};
ghost use Rattle.control_walks.specs.ControlWalks.{Controls};
ghost use Rattle.control_walks.specs.Plain.{ControlsBy, ControlsFrom, ControlsAmong};

use super::split::at_of;
use flow_graph::FlowGraph;
use std::alloc::{AllocError, Global};

// Whether a node is reached from x, and from y an end round its address, where x and y stand at different addresses.
fn controls_by(
    alloc: Global,
    graph: &FlowGraph,
    node: u32,
    x: u32,
    y: u32,
) -> Result<bool, AllocError>
    ensures { IfOk result (λ is. IsTrue is ↔ ControlsBy graph.now.nodes node x y) }
{
    let nodes = graph.nodes.as_slice();
    match (at_of(nodes, x), at_of(nodes, y), at_of(nodes, node)) {
        (Some(x_at), Some(y_at), Some(at)) => {
            if x_at == y_at {
                return Ok(false);
            }
            let marks = graph.reach(alloc, x)?;
            if !marks.get(node as usize).copied().unwrap_or(false) {
                return Ok(false);
            }
            let escapes = graph.walk_to_end_avoiding(alloc, y, at)?;
            Ok(escapes)
        }
        _ => Ok(false),
    }
}

// Whether that holds of x and one of these nodes.
fn controls_from(
    alloc: Global,
    graph: &FlowGraph,
    node: u32,
    x: u32,
    others: &[u32],
) -> Result<bool, AllocError>
    ensures { IfOk result (λ is. IsTrue is ↔ ControlsFrom graph.now.nodes node others.now x) }
{
    for y in others {
        if controls_by(alloc, graph, node, x, *y)? {
            return Ok(true);
        }
    }
    Ok(false)
}

// Whether that holds of two of these nodes.
fn controls_among(
    alloc: Global,
    graph: &FlowGraph,
    node: u32,
    next: &[u32],
) -> Result<bool, AllocError>
    ensures { IfOk result (λ is. IsTrue is ↔ ControlsAmong graph.now.nodes node next.now) }
{
    for x in next {
        if controls_from(alloc, graph, node, *x, next)? {
            return Ok(true);
        }
    }
    Ok(false)
}

// Whether this branch controls a node.
fn is_controlling(
    alloc: Global,
    graph: &FlowGraph,
    node: u32,
    branch: u32,
) -> Result<bool, AllocError>
    ensures { IfOk result (λ is. IsTrue is ↔ Controls graph.now.nodes branch node) }
{
    match graph.nodes.get(branch as usize) {
        Some(here) => {
            if !here.branch {
                return Ok(false);
            }
            let controls = controls_among(alloc, graph, node, here.next.as_slice())?;
            Ok(controls)
        }
        None => Ok(false),
    }
}

// Puts a number at the end, where it is wished.
fn push_if(list: &mut Vec<u32>, item: u32, is_wished: bool) -> Result<(), AllocError>
    ensures { OnOk result (list.new.items ≡ (if is_wished then list.old.items ++ item ∷ [] else list.old.items)) }
{
    if is_wished {
        list.push(item)?;
    }
    Ok(())
}

/// The branches that control a node, rising.
pub fn controls(alloc: Global, graph: &FlowGraph, node: u32) -> Result<Vec<u32>, AllocError>
    requires { length graph.now.nodes < 2 ^ 32 }
    ensures rising { IfOk result (λ branches. IsStrictlyIncreasing branches.items) }
    ensures listed { IfOk result (λ branches. (b : ℕ) → Contains branches.items b ↔ Controls graph.now.nodes b node) }
{
    let mut branches = Vec::new(alloc);
    for branch in 0..graph.nodes.len() as u32 {
        let is_listed = is_controlling(alloc, graph, node, branch)?;
        push_if(&mut branches, branch, is_listed)?;
    }
    Ok(branches)
}
