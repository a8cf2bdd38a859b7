//! Along edges and control, until nothing comes in.
ghost use Rattle.std.specs.Prelude.{◌≡◌, ℕ, ◌<◌, ◌≤◌, ◌^◌, All, Contains, IsTrue, length, slice_index};
ghost use Rattle.flow_graph.specs.Rows.{IsBit};
ghost use Rattle.control_walks.specs.ControlWalks.{Controls};
ghost use Rattle.slicer.specs.Slicer.{Arrow, HasNodes, ListedEdge};
ghost use Rattle.slicer.specs.Search.{Adds, Follows, Grows};
ghost use Rattle.chops.specs.Following.{FollowsOn, IsAfter};

use crate::masks::{Rows, split_by};
use control_walks::{WalkScratch, flood_all};
use dep_graph::Edges;
use dep_graph::pairs::has_bit;
use flow_graph::FlowGraph;
use slicer::{Queue, RoundGraph};

// Goes along the edge at this place of a list.
fn follow_edge(pairs: &[(u32, u32)], place: usize, queue: &mut Queue)
    requires within { place < length pairs.now }
    requires room { All (λ pair. pair.1 < queue.old.size) pairs.now }
    ensures grows { Grows (IsAfter pairs.now) queue.old.nodes queue.new.nodes }
    ensures follows { FollowsOn pairs.now place queue.old.nodes queue.new.nodes }
    ensures size { queue.new.size ≡ queue.old.size }
{
    let (from, to) = pairs[place];
    let is_met = queue.has(from);
    queue.mark_if(to, is_met);
}

// Goes along these edges, the first first.
fn sweep(pairs: &[(u32, u32)], queue: &mut Queue)
    requires room { All (λ pair. pair.1 < queue.old.size) pairs.now }
    ensures grows { Grows (IsAfter pairs.now) queue.old.nodes queue.new.nodes }
    ensures follows { Follows (IsAfter pairs.now) queue.old.nodes queue.new.nodes }
    ensures size { queue.new.size ≡ queue.old.size }
{
    for place in 0..pairs.len() {
        follow_edge(pairs, place, queue);
    }
}

/// Goes along the edges of a graph, those by ESP unless they are left out.
pub(crate) fn follow_edges(edges: &Edges, skip_sp: bool, queue: &mut Queue)
    requires ordinary_room { All (λ pair. pair.1 < queue.old.size) edges.now.ordinary }
    requires sp_room { All (λ pair. pair.1 < queue.old.size) edges.now.sp }
    ensures grows { Grows (ListedEdge edges.now.ordinary edges.now.sp skip_sp) queue.old.nodes queue.new.nodes }
    ensures follows { Follows (ListedEdge edges.now.ordinary edges.now.sp skip_sp) queue.old.nodes queue.new.nodes }
    ensures size { queue.new.size ≡ queue.old.size }
{
    sweep(edges.ordinary.as_slice(), queue);
    if !skip_sp {
        sweep(edges.sp.as_slice(), queue);
    }
}

// Marks those of up to 64 nodes whose bit is set.
fn mark_bits(targets: &[u32], word: u64, queue: &mut Queue)
    requires few { length targets.now ≤ 64 }
    requires room { All (λ n. n < queue.old.size) targets.now }
    ensures adds { Adds (λ n. (k : ℕ) × (k < length targets.now) × (slice_index targets.now k ≡ n) × IsBit word k) queue.old.nodes queue.new.nodes }
    ensures size { queue.new.size ≡ queue.old.size }
{
    for (k, target) in targets.iter().enumerate() {
        queue.mark_if(*target, has_bit(word, k));
    }
}

// Whether all of these nodes are marked.
fn are_marked(targets: &[u32], queue: &Queue) -> bool
    ensures { IsTrue result → (n : ℕ) → Contains targets.now n → Contains queue.now.nodes n }
{
    for target in targets {
        if !queue.has(*target) {
            return false;
        }
    }
    true
}

// Goes on to those of up to 64 nodes that a marked branch controls.
fn follow_some(graph: &FlowGraph, targets: &[u32], walks: &mut WalkScratch, queue: &mut Queue)
    requires few { length targets.now ≤ 64 }
    requires inside { All (λ n. n < length graph.now.nodes) targets.now }
    requires made { length graph.now.nodes ≤ walks.old.size }
    requires room { length graph.now.nodes ≤ queue.old.size }
    ensures grows { Grows (Controls graph.now.nodes) queue.old.nodes queue.new.nodes }
    ensures follows { (b n : ℕ) → Contains targets.now n → Controls graph.now.nodes b n → Contains queue.old.nodes b → Contains queue.new.nodes n }
    ensures walks { walks.new.size ≡ walks.old.size }
    ensures size { queue.new.size ≡ queue.old.size }
{
    if are_marked(targets, queue) {
        return;
    }
    flood_all(graph, targets, walks);
    let rows = Rows {
        nodes: graph.nodes.as_slice(),
        reaching: walks.reaching(),
        escaping: walks.escaping(),
    };
    let word = split_by(&rows, queue.nodes());
    mark_bits(targets, word, queue);
}

/// Goes on to those of these nodes that a marked branch controls.
pub(crate) fn follow_control(
    graph: &FlowGraph,
    nodes: &[u32],
    walks: &mut WalkScratch,
    queue: &mut Queue,
)
    requires inside { All (λ n. n < length graph.now.nodes) nodes.now }
    requires made { length graph.now.nodes ≤ walks.old.size }
    requires room { length graph.now.nodes ≤ queue.old.size }
    ensures grows { Grows (Controls graph.now.nodes) queue.old.nodes queue.new.nodes }
    ensures follows { (b n : ℕ) → Contains nodes.now n → Controls graph.now.nodes b n → Contains queue.old.nodes b → Contains queue.new.nodes n }
    ensures walks { walks.new.size ≡ walks.old.size }
    ensures size { queue.new.size ≡ queue.old.size }
{
    let mut rest = nodes;
    while !rest.is_empty() {
        let (some, others) = rest.split_at(rest.len().min(64));
        follow_some(graph, some, walks, queue);
        rest = others;
    }
}
