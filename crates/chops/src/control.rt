//! All pairs of a branch and a node that it controls.
ghost use Rattle.std.specs.Prelude.{◌≡◌, ◌↔◌, ℕ, ◌<◌, ◌≤◌, ◌^◌, All, Contains, IfOk, OnOk, length};
ghost use Rattle.control_walks.specs.ControlWalks.{Controls};
ghost use Rattle.chops.specs.Pairs.{AddsPairs, ControlsAny, IsShown, IsSplitFor};

use crate::masks::{Rows, split};
use crate::walker::count_up;
use control_walks::{WalkScratch, flood_all};
use dep_graph::pairs::{has_bit, push_if};
use flow_graph::FlowGraph;
use std::alloc::{AllocError, Global};

// Puts a branch with those of up to 64 nodes whose bit is set at the end.
fn add_bits(
    branch: u32,
    word: u64,
    targets: &[u32],
    pairs: &mut Vec<(u32, u32)>,
) -> Result<(), AllocError>
    requires { length targets.now ≤ 64 }
    ensures { OnOk result (AddsPairs (λ b n. (b ≡ branch) × IsShown word targets.now n) pairs.old.items pairs.new.items) }
{
    for (k, target) in targets.iter().enumerate() {
        push_if(pairs, branch, *target, has_bit(word, k))?;
    }
    Ok(())
}

// Puts each branch with those flooded nodes that it splits off at the end.
fn add_splits(rows: &Rows, targets: &[u32], pairs: &mut Vec<(u32, u32)>) -> Result<(), AllocError>
    requires few { length targets.now ≤ 64 }
    requires numbers { length rows.now.nodes.now < 2 ^ 32 }
    ensures { OnOk result (AddsPairs (IsSplitFor rows.now.nodes.now rows.now.reaching.now rows.now.escaping.now targets.now) pairs.old.items pairs.new.items) }
{
    for branch in 0..rows.nodes.len() as u32 {
        let word = split(rows, branch);
        add_bits(branch, word, targets, pairs)?;
    }
    Ok(())
}

// Puts each branch with those of up to 64 nodes that it controls at the end.
fn add_controlled(
    graph: &FlowGraph,
    targets: &[u32],
    walks: &mut WalkScratch,
    pairs: &mut Vec<(u32, u32)>,
) -> Result<(), AllocError>
    requires few { length targets.now ≤ 64 }
    requires inside { All (λ n. n < length graph.now.nodes) targets.now }
    requires made { length graph.now.nodes ≤ walks.old.size }
    requires numbers { length graph.now.nodes < 2 ^ 32 }
    ensures adds { OnOk result (AddsPairs (ControlsAny graph.now.nodes targets.now) pairs.old.items pairs.new.items) }
    ensures walks { walks.new.size ≡ walks.old.size }
{
    flood_all(graph, targets, walks);
    let rows = Rows {
        nodes: graph.nodes.as_slice(),
        reaching: walks.reaching(),
        escaping: walks.escaping(),
    };
    add_splits(&rows, targets, pairs)?;
    Ok(())
}

/// All pairs of a branch and a node that it controls. A graph with more nodes than there are numbers is answered by want of memory.
pub fn control_pairs(alloc: Global, graph: &FlowGraph) -> Result<Vec<(u32, u32)>, AllocError>
    ensures { IfOk result (λ pairs. (b n : ℕ) → Contains pairs.items (b, n) ↔ Controls graph.now.nodes b n) }
{
    let count = graph.nodes.len();
    if count >= 1 << 32 {
        return Err(AllocError);
    }
    let mut walks = WalkScratch::new(alloc, graph)?;
    let numbers = count_up(alloc, count as u32)?;
    let mut pairs = Vec::new(alloc);
    let mut rest = numbers.as_slice();
    while !rest.is_empty() {
        let (some, others) = rest.split_at(rest.len().min(64));
        add_controlled(graph, some, &mut walks, &mut pairs)?;
        rest = others;
    }
    Ok(pairs)
}
