//! What kinds of steps a graph has.
ghost use Rattle.std.specs.Prelude.{◌↔◌, ◌<◌, All, Contains, IsTrue, length};
ghost use Rattle.flow_graph.specs.FlowGraph.{IsStep};
ghost use Rattle.matched_calls.specs.Matched.{HasKinds};

use flow_graph::FlowNode;
use item_list::Items;

/// Which steps of a graph are calls and returns, and where calls come back, as pairs of numbers of nodes.
#[derive(Debug, Drop)]
pub struct StepKinds {
    /// A call's node and the callee's entry.
    pub calls: Items<(u32, u32)>,
    /// The node of a return, or of a function that isn't followed, and the place to which it returns.
    pub returns: Items<(u32, u32)>,
    /// A call's node and the place after it.
    pub after: Items<(u32, u32)>,
}

/// Part of a walk: within one call, in calls and returns to their callers, or in calls and further calls.
#[derive(Clone, Copy)]
pub(crate) enum Phase {
    Level,
    Up,
    Down,
}

/// Whether a list has a pair.
pub(crate) fn has_pair(pairs: &[(u32, u32)], from: u32, to: u32) -> bool
    ensures { IsTrue result ↔ Contains pairs.now (from, to) }
{
    pairs.contains(&(from, to))
}

/// Whether control may go from one node to another in one step.
pub(crate) fn is_step(nodes: &[FlowNode], from: u32, to: u32) -> bool
    ensures { IsTrue result ↔ IsStep nodes.now from to }
{
    match nodes.get(from as usize) {
        Some(node) => node.next.as_slice().contains(&to),
        None => false,
    }
}

// Whether two numbers are below a bound.
fn is_below(from: u32, to: u32, count: usize) -> bool
    ensures { IsTrue result ↔ ((from < count) × (to < count)) }
{
    if from as usize >= count {
        return false;
    }
    (to as usize) < count
}

// Whether all numbers of some pairs are below a bound.
fn are_below(pairs: &[(u32, u32)], count: usize) -> bool
    ensures { IsTrue result ↔ All (λ pair. (pair.0 < count) × (pair.1 < count)) pairs.now }
{
    for pair in pairs {
        if !is_below(pair.0, pair.1, count) {
            return false;
        }
    }
    true
}

// Whether all three hold.
fn all_three(one: bool, two: bool, three: bool) -> bool
    ensures { IsTrue result ↔ (IsTrue one × IsTrue two × IsTrue three) }
{
    one && two && three
}

/// Whether all numbers in some kinds are those of nodes of a graph.
pub fn are_kinds_of(nodes: &[FlowNode], kinds: &StepKinds) -> bool
    ensures { IsTrue result ↔ HasKinds nodes.now kinds.now }
{
    let calls = are_below(kinds.calls.as_slice(), nodes.len());
    let returns = are_below(kinds.returns.as_slice(), nodes.len());
    let after = are_below(kinds.after.as_slice(), nodes.len());
    all_three(calls, returns, after)
}
