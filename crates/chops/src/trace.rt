//! The shortest path, from its end back.
ghost use Rattle.std.specs.Prelude.{◌≡◌, ◌⊎◌, ◌↔◌, [], ℕ, ◌+◌, ◌<◌, ◌≤◌, ◌^◌, All, Contains, IfOk, IsTrue, List, length, slice_index};
ghost use Rattle.flow_graph.specs.declared.graph.FlowNode.{FlowNode};
ghost use Rattle.flow_graph.specs.FlowGraph.{IsAt};
ghost use Rattle.chops.specs.Counts.{AreFewest, FallsFrom, IsBack, IsNearest};
ghost use Rattle.chops.specs.Following.{IsAfter};
ghost use Rattle.chops.specs.Paths.{IsShortestTrace, IsTrace};

use flow_graph::FlowNode;
use std::alloc::{AllocError, Global};

// Takes this node with its count, where it stands at an address and has a lower count than the one taken so far.
fn nearer(nodes: &[FlowNode], at: u32, counts: &[u32], n: u32, best: (u32, u32)) -> (u32, u32)
    requires within { n < length nodes.now }
    requires many { length counts.now ≡ length nodes.now }
    ensures { IsNearest nodes.now at counts.now n best.0 best.1 → IsNearest nodes.now at counts.now (n + 1) result.0 result.1 }
{
    if nodes[n as usize].at != at {
        return best;
    }
    if counts[n as usize] >= best.1 {
        return best;
    }
    (n, counts[n as usize])
}

// Of the nodes at an address the least one of those with the lowest count; as many as there are nodes where each is out of reach.
fn nearest(nodes: &[FlowNode], at: u32, counts: &[u32]) -> u32
    requires numbers { length nodes.now < 2 ^ 32 }
    requires many { length counts.now ≡ length nodes.now }
    ensures { (count : ℕ) × IsNearest nodes.now at counts.now (length nodes.now) result count }
{
    let far = nodes.len() as u32;
    let mut best = (far, far);
    for n in 0..far {
        best = nearer(nodes, at, counts, n, best);
    }
    best.0
}

// Whether an arrow goes to this node from one that has one arrow less.
fn is_back(from: u32, to: u32, counts: &[u32], node: u32) -> bool
    requires source { from < length counts.now }
    requires within { node < length counts.now }
    ensures { IsTrue result ↔ ((to ≡ node) × (slice_index counts.now from + 1 ≡ slice_index counts.now node)) }
{
    if to != node {
        return false;
    }
    let near = counts[from as usize];
    let far = counts[node as usize];
    if far <= near {
        return false;
    }
    far - near == 1
}

// The lesser of two numbers, where the second is wished, and else the first.
fn lesser_if(best: u32, other: u32, is_wished: bool) -> u32
    ensures kept { result ≤ best }
    ensures wished { IsTrue is_wished → result ≤ other }
    ensures one { (result ≡ best) ⊎ (IsTrue is_wished × (result ≡ other)) }
{
    if is_wished && other < best {
        return other;
    }
    best
}

// The least node from which an arrow goes to this one and which has one arrow less; the number of nodes where there is none.
fn previous(arrows: &[(u32, u32)], counts: &[u32], node: u32) -> u32
    requires inside { All (λ a. (a.0 < length counts.now) × (a.1 < length counts.now)) arrows.now }
    requires within { node < length counts.now }
    requires numbers { length counts.now < 2 ^ 32 }
    ensures one { (result ≡ length counts.now) ⊎ IsBack arrows.now counts.now node result }
    ensures least { (m : ℕ) → IsBack arrows.now counts.now node m → result ≤ m }
{
    let mut best = counts.len() as u32;
    for arrow in arrows {
        let is_wished = is_back(arrow.0, arrow.1, counts, node);
        best = lesser_if(best, arrow.0, is_wished);
    }
    best
}

// The nodes from this one back to one that needs no arrow.
fn trace_back(
    alloc: Global,
    arrows: &[(u32, u32)],
    counts: &[u32],
    end: u32,
) -> Result<Vec<u32>, AllocError>
    requires inside { All (λ a. (a.0 < length counts.now) × (a.1 < length counts.now)) arrows.now }
    requires numbers { length counts.now < 2 ^ 32 }
    requires within { end < length counts.now }
    requires reached { slice_index counts.now end < length counts.now }
    requires fewest { (g : List FlowNode) × (at : ℕ) × AreFewest (IsAfter arrows.now) (IsAt g at) counts.now }
    ensures { IfOk result (λ trace. FallsFrom arrows.now counts.now end trace.items) }
{
    let mut trace = Vec::new(alloc);
    trace.push(end)?;
    let mut node = end;
    while counts[node as usize] > 0 {
        node = previous(arrows, counts, node);
        trace.push(node)?;
    }
    Ok(trace)
}

/// The nodes of the shortest path to an address, from its end back, or none where there is no path.
pub(crate) fn shortest(
    alloc: Global,
    nodes: &[FlowNode],
    from: u32,
    to: u32,
    arrows: &[(u32, u32)],
    counts: &[u32],
) -> Result<Vec<u32>, AllocError>
    requires inside { All (λ a. (a.0 < length nodes.now) × (a.1 < length nodes.now)) arrows.now }
    requires numbers { length nodes.now < 2 ^ 32 }
    requires many { length counts.now ≡ length nodes.now }
    requires fewest { AreFewest (IsAfter arrows.now) (IsAt nodes.now from) counts.now }
    ensures { IfOk result (λ trace. IsShortestTrace (IsAfter arrows.now) (IsAt nodes.now from) (IsAt nodes.now to) trace.items ⊎ ((trace.items ≡ []) × ((other : List ℕ) → ¬ IsTrace (IsAfter arrows.now) (IsAt nodes.now from) (IsAt nodes.now to) other))) }
{
    let end = nearest(nodes, to, counts);
    if end as usize >= nodes.len() {
        return Ok(Vec::new(alloc));
    }
    let trace = trace_back(alloc, arrows, counts, end)?;
    Ok(trace)
}
