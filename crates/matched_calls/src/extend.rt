//! The graph of a phase: the steps that it takes, and a node between each call that may come back and the place after it.
ghost use Rattle.std.specs.Prelude.{◌≡◌, ◌⊎◌, ◌↔◌, ℕ, ◌+◌, ◌<◌, ◌≤◌, ◌^◌, [], All, Contains, IfOk, IsTrue, OnOk, length};
ghost use Rattle.flow_graph.specs.FlowGraph.{IsStep};
ghost use Rattle.matched_calls.specs.Adding.{AddsItems, IsGrown};
ghost use Rattle.matched_calls.specs.Extended.{IsArrival, IsExtended, IsLink, IsNext};
ghost use Rattle.matched_calls.specs.Matched.{IsOther};
ghost use Rattle.matched_calls.specs.Phases.{IsTaken};

use crate::kinds::{Phase, StepKinds, has_pair};
use dep_graph::push_if;
use flow_graph::FlowNode;
use item_list::Items;
use std::alloc::{AllocError, Global};

// Whether a step is neither a call nor a return.
fn is_other(kinds: &StepKinds, from: u32, to: u32) -> bool
    ensures { IsTrue result ↔ IsOther kinds.now from to }
{
    if has_pair(kinds.calls.as_slice(), from, to) {
        return false;
    }
    !has_pair(kinds.returns.as_slice(), from, to)
}

// Whether a phase beside the level one takes a step, by the list of those that it takes besides others.
fn is_other_or(kinds: &StepKinds, more: &[(u32, u32)], from: u32, to: u32) -> bool
    ensures { IsTrue result ↔ (IsOther kinds.now from to ⊎ Contains more.now (from, to)) }
{
    if has_pair(more, from, to) {
        return true;
    }
    is_other(kinds, from, to)
}

// Whether a phase takes the step from one node to another, if there is one.
fn is_taken(kinds: &StepKinds, phase: Phase, from: u32, to: u32) -> bool
    ensures { IsTrue result ↔ IsTaken kinds.now phase from to }
{
    match phase {
        Phase::Level => is_other(kinds, from, to),
        Phase::Up => is_other_or(kinds, kinds.returns.as_slice(), from, to),
        Phase::Down => is_other_or(kinds, kinds.calls.as_slice(), from, to),
    }
}

// Whether a number is that of a node, and a phase takes the step to it.
fn is_kept(kinds: &StepKinds, phase: Phase, count: u32, from: u32, to: u32) -> bool
    ensures { IsTrue result ↔ ((to < count) × IsTaken kinds.now phase from to) }
{
    if to >= count {
        return false;
    }
    is_taken(kinds, phase, from, to)
}

// Puts those of a node's successors at the end to which a phase goes from it.
fn add_taken(
    kinds: &StepKinds,
    phase: Phase,
    count: u32,
    node: u32,
    next: &[u32],
    list: &mut Vec<u32>,
) -> Result<(), AllocError>
    ensures { OnOk result (AddsItems (λ n. Contains next.now n × (n < count) × IsTaken kinds.now phase node n) list.old.items list.new.items) }
{
    for to in next {
        push_if(list, *to, is_kept(kinds, phase, count, node, *to))?;
    }
    Ok(())
}

// Puts the nodes between a call's node and the places after it at the end.
fn add_links(
    after: &[(u32, u32)],
    count: u32,
    node: u32,
    list: &mut Vec<u32>,
) -> Result<(), AllocError>
    requires { count + length after.now < 2 ^ 32 }
    ensures { OnOk result (AddsItems (IsLink count after.now node) list.old.items list.new.items) }
{
    for j in 0..after.len() as u32 {
        let is_wished = after[j as usize].0 == node;
        push_if(list, count + j, is_wished)?;
    }
    Ok(())
}

// A node of which nothing is known but its successors.
fn bare(alloc: Global, next: Vec<u32>) -> FlowNode
    ensures { result.next ≡ next.items }
{
    FlowNode {
        at: 0,
        next: Items::from_vec(next),
        may_use: Items::new(alloc),
        may_def: Items::new(alloc),
        must_def: Items::new(alloc),
        branch: false,
        end: false,
    }
}

// The nodes to which a phase goes from this one.
fn next_of(
    alloc: Global,
    nodes: &[FlowNode],
    kinds: &StepKinds,
    phase: Phase,
    node: u32,
) -> Result<Vec<u32>, AllocError>
    requires within { node < length nodes.now }
    requires numbers { length nodes.now + length kinds.now.after < 2 ^ 32 }
    ensures { IfOk result (λ next. (n : ℕ) → Contains next.items n ↔ IsNext nodes.now kinds.now phase node n) }
{
    let count = nodes.len() as u32;
    let mut list = Vec::new(alloc);
    let next = nodes[node as usize].next.as_slice();
    add_taken(kinds, phase, count, node, next, &mut list)?;
    add_links(kinds.after.as_slice(), count, node, &mut list)?;
    Ok(list)
}

// Puts the graph's nodes, with the steps of a phase, at the end of no nodes.
fn add_nodes(
    alloc: Global,
    nodes: &[FlowNode],
    kinds: &StepKinds,
    phase: Phase,
    extended: &mut Vec<FlowNode>,
) -> Result<(), AllocError>
    requires numbers { length nodes.now + length kinds.now.after < 2 ^ 32 }
    requires none { extended.old.items ≡ [] }
    ensures { OnOk result (IsGrown (IsNext nodes.now kinds.now phase) (length nodes.now) extended.new.items) }
{
    for node in 0..nodes.len() as u32 {
        let next = next_of(alloc, nodes, kinds, phase, node)?;
        extended.push(bare(alloc, next))?;
    }
    Ok(())
}

// Puts the nodes between calls and the places after them at the end.
fn add_arrivals(
    alloc: Global,
    after: &[(u32, u32)],
    count: usize,
    extended: &mut Vec<FlowNode>,
) -> Result<(), AllocError>
    requires numbers { count + length after.now < 2 ^ 32 }
    requires many { length extended.old.items ≡ count }
    ensures many { OnOk result (length extended.new.items ≡ count + length after.now) }
    ensures steps { OnOk result ((m n : ℕ) → IsStep extended.new.items m n ↔ (IsStep extended.old.items m n ⊎ IsArrival count after.now m n)) }
{
    for pair in after {
        let mut next = Vec::new(alloc);
        next.push(pair.1)?;
        extended.push(bare(alloc, next))?;
    }
    Ok(())
}

/// The graph of a phase.
pub(crate) fn extend(
    alloc: Global,
    nodes: &[FlowNode],
    kinds: &StepKinds,
    phase: Phase,
) -> Result<Vec<FlowNode>, AllocError>
    requires { length nodes.now + length kinds.now.after < 2 ^ 32 }
    ensures { IfOk result (λ extended. IsExtended nodes.now kinds.now phase extended.items) }
{
    let mut extended = Vec::new(alloc);
    add_nodes(alloc, nodes, kinds, phase, &mut extended)?;
    add_arrivals(alloc, kinds.after.as_slice(), nodes.len(), &mut extended)?;
    Ok(extended)
}
