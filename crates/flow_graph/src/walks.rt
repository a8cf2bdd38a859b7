// Walks one by one, by marks and a list of nodes that wait.
ghost use Rattle.std.specs.Prelude.{◌≡◌, ◌⊎◌, ℕ, ◌<◌, ◌↔◌, false, true, slice_set, length, replicate, Contains, IsTrue, IfOk, OnOk};
ghost use Rattle.flow_graph.specs.FlowGraph.{IsStep, IsEnd, IsAt, Avoids, Reaches, Escapes};
ghost use Rattle.flow_graph.specs.Walks.{IsOn, Arrives, Follows, marks_avoiding};

use super::graph::{FlowGraph, FlowNode};
use std::alloc::{AllocError, Global};

// The nodes to which control may go from this one; none from a number that is no node.
fn next_of(nodes: &[FlowNode], node: u32) -> &[u32]
    ensures { (n : ℕ) → Contains result.now n ↔ IsStep nodes.now node n }
{
    match nodes.get(node as usize) {
        Some(here) => here.next.as_slice(),
        None => &[],
    }
}

/// The mark of a node; a number past the marks has none.
pub fn is_on(marks: &[bool], node: usize) -> bool
    ensures { IsTrue result ↔ IsOn marks.now node }
{
    marks.get(node).copied().unwrap_or(false)
}

// Marks a node, which waits if it wasn't marked before.
fn mark(marks: &mut [bool], work: &mut Vec<u32>, node: u32) -> Result<(), AllocError>
    ensures { OnOk result (Follows (λ n. n ≡ node) marks.old work.old.items marks.new work.new.items) }
{
    let place = node as usize;
    if place < marks.len() && !marks[place] {
        marks[place] = true;
        work.push(node)?;
    }
    Ok(())
}

// Marks each of these nodes.
fn follow(marks: &mut [bool], work: &mut Vec<u32>, targets: &[u32]) -> Result<(), AllocError>
    ensures { OnOk result (Follows (Contains targets.now) marks.old work.old.items marks.new work.new.items) }
{
    for node in targets {
        mark(marks, work, *node)?;
    }
    Ok(())
}

// Marks the nodes to which a walk of one or more steps goes from this one over inner nodes that are kept.
fn search(
    alloc: Global,
    nodes: &[FlowNode],
    from: u32,
    kept: &[bool],
    marks: &mut [bool],
) -> Result<(), AllocError>
    requires { marks.old ≡ replicate (length nodes.now) false }
    ensures { OnOk result ((n : ℕ) → n < length nodes.now → IsOn marks.new n ↔ Arrives nodes.now kept.now from n) }
{
    let mut work = Vec::new(alloc);
    follow(marks, &mut work, next_of(nodes, from))?;
    while let Some(node) = work.pop() {
        if is_on(kept, node as usize) {
            follow(marks, &mut work, next_of(nodes, node))?;
        }
    }
    Ok(())
}

/// The nodes to which a walk of one or more steps goes from this one over inner nodes that are kept.
pub fn walk(
    alloc: Global,
    nodes: &[FlowNode],
    from: u32,
    kept: &[bool],
) -> Result<Vec<bool>, AllocError>
    ensures nodes { IfOk result (λ marks. length marks.items ≡ length nodes.now) }
    ensures arrives { IfOk result (λ marks. (n : ℕ) → n < length nodes.now → IsOn marks.items n ↔ Arrives nodes.now kept.now from n) }
{
    let mut marks = vec![in alloc; false; nodes.len()]?;
    search(alloc, nodes, from, kept, &mut marks)?;
    Ok(marks)
}

// These marks, and that of this node.
fn with_mark(mut marks: Vec<bool>, node: u32) -> Vec<bool>
    ensures { result.items ≡ slice_set marks.items node true }
{
    if (node as usize) < marks.len() {
        marks[node as usize] = true;
    }
    marks
}

// Which nodes don't stand at this address.
fn avoiding(alloc: Global, nodes: &[FlowNode], at: u32) -> Result<Vec<bool>, AllocError>
    ensures { IfOk result (λ kept. kept.items ≡ marks_avoiding at nodes.now) }
{
    nodes.iter().map(|node| node.at != at).collect(alloc)
}

// Whether a marked node that is kept is an end.
fn meets_end(nodes: &[FlowNode], marks: &[bool], kept: &[bool]) -> bool
    ensures { IsTrue result ↔ ((n : ℕ) × IsOn marks.now n × IsOn kept.now n × IsEnd nodes.now n) }
{
    for (n, node) in nodes.iter().enumerate() {
        if node.end && is_on(marks, n) && is_on(kept, n) {
            return true;
        }
    }
    false
}

// Whether this node is an end.
fn is_end(nodes: &[FlowNode], node: u32) -> bool
    ensures { IsTrue result ↔ IsEnd nodes.now node }
{
    match nodes.get(node as usize) {
        Some(here) => here.end,
        None => false,
    }
}

impl FlowGraph {
    /// True at each node to which a walk of no or more steps goes from this node, and false at each other.
    pub fn reach(&self, alloc: Global, from: u32) -> Result<Vec<bool>, AllocError>
        ensures nodes { IfOk result (λ marks. length marks.items ≡ length self.now.nodes) }
        ensures reaches { IfOk result (λ marks. (n : ℕ) → n < length self.now.nodes → IsOn marks.items n ↔ Reaches self.now.nodes from n) }
    {
        let nodes = self.nodes.as_slice();
        let kept = vec![in alloc; true; nodes.len()]?;
        let marks = walk(alloc, nodes, from, &kept)?;
        Ok(with_mark(marks, from))
    }

    /// Whether some walk of no or more steps goes from this node to an end, and no node on it stands at this address.
    pub fn walk_to_end_avoiding(
        &self,
        alloc: Global,
        from: u32,
        at: u32,
    ) -> Result<bool, AllocError>
        ensures { IfOk result (λ escapes. IsTrue escapes ↔ Escapes self.now.nodes at from) }
    {
        let nodes = self.nodes.as_slice();
        let elsewhere = avoiding(alloc, nodes, at)?;
        let kept = elsewhere.as_slice();
        if !is_on(kept, from as usize) {
            return Ok(false);
        }
        if is_end(nodes, from) {
            return Ok(true);
        }
        let marks = walk(alloc, nodes, from, kept)?;
        Ok(meets_end(nodes, marks.as_slice(), kept))
    }
}
