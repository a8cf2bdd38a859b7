//! With how few arrows each node is reached.
ghost use Rattle.std.specs.Prelude.{◌≡◌, ◌≢◌, ℕ, ◌+◌, ◌<◌, ◌≤◌, ◌^◌, ◌==◌, cond, false, All, Contains, IfOk, length, slice_index, slice_set, List};
ghost use Rattle.flow_graph.specs.declared.graph.FlowNode.{FlowNode};
ghost use Rattle.flow_graph.specs.FlowGraph.{IsAt};
ghost use Rattle.chops.specs.Counts.{AreFewest, AreShort, AreWays, Lowers, first_counts};
ghost use Rattle.chops.specs.Following.{IsAfter};

use flow_graph::FlowNode;
use std::alloc::{AllocError, Global};

// Lets the target of an arrow have one more than its source, if it has more, and says whether it had.
fn lower(from: u32, to: u32, counts: &mut [u32]) -> bool
    requires source { from < length counts.old }
    requires target { to < length counts.old }
    ensures stays { result ≡ false → (counts.new ≡ counts.old) × (slice_index counts.old to ≤ slice_index counts.old from + 1) }
    ensures lowers { result ≢ false → (counts.new ≡ slice_set counts.old to (slice_index counts.old from + 1)) × (slice_index counts.old from + 1 < slice_index counts.old to) }
{
    let near = counts[from as usize];
    let far = counts[to as usize];
    if far <= near {
        return false;
    }
    if far - near == 1 {
        return false;
    }
    counts[to as usize] = near + 1;
    true
}

// Goes over all arrows once, and says whether a count changed.
fn pass(arrows: &[(u32, u32)], counts: &mut [u32]) -> bool
    requires { All (λ a. (a.0 < length counts.old) × (a.1 < length counts.old)) arrows.now }
    ensures lowers { Lowers arrows.now counts.old counts.new result }
    ensures short { result ≡ false → AreShort arrows.now counts.new }
{
    let mut changed = false;
    for arrow in arrows {
        changed |= lower(arrow.0, arrow.1, counts);
    }
    changed
}

// Goes over all arrows until no count changes.
fn settle(arrows: &[(u32, u32)], counts: &mut [u32])
    requires { All (λ a. (a.0 < length counts.old) × (a.1 < length counts.old)) arrows.now }
    ensures many { length counts.new ≡ length counts.old }
    ensures ways { (g : List FlowNode) (at : ℕ) → AreWays (IsAfter arrows.now) (IsAt g at) counts.old → AreWays (IsAfter arrows.now) (IsAt g at) counts.new }
    ensures short { AreShort arrows.now counts.new }
{
    loop {
        if !pass(arrows, counts) {
            return;
        }
    }
}

// The count at the start.
fn first_count(node: &FlowNode, at: u32, far: u32) -> u32
    ensures { result ≡ cond (node.now.at == at) 0 far }
{
    if node.at == at {
        return 0;
    }
    far
}

// No arrow for the nodes at an address, and as many as there are nodes for each other.
fn begin_counts(alloc: Global, nodes: &[FlowNode], at: u32) -> Result<Vec<u32>, AllocError>
    requires { length nodes.now < 2 ^ 32 }
    ensures { IfOk result (λ counts. counts.items ≡ first_counts at nodes.now) }
{
    let far = nodes.len() as u32;
    nodes
        .iter()
        .map(|node| first_count(node, at, far))
        .collect(alloc)
}

/// With how few of these arrows each node is reached from those at an address: the number of nodes where it isn't reached.
pub(crate) fn count_arrows(
    alloc: Global,
    nodes: &[FlowNode],
    at: u32,
    arrows: &[(u32, u32)],
) -> Result<Vec<u32>, AllocError>
    requires numbers { length nodes.now < 2 ^ 32 }
    requires inside { All (λ a. (a.0 < length nodes.now) × (a.1 < length nodes.now)) arrows.now }
    ensures many { IfOk result (λ counts. length counts.items ≡ length nodes.now) }
    ensures fewest { IfOk result (λ counts. AreFewest (IsAfter arrows.now) (IsAt nodes.now at) counts.items) }
{
    let mut counts = begin_counts(alloc, nodes, at)?;
    settle(arrows, counts.as_mut_slice());
    Ok(counts)
}
