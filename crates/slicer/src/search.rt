// Back over edges and control, until nothing comes in.
ghost use Rattle.std.specs.Prelude.{◌≡◌, ◌↔◌, ℕ, ◌<◌, ◌≤◌, ◌^◌, All, Contains, length, slice_index};
ghost use Rattle.flow_graph.specs.FlowGraph.{IsAt};
ghost use Rattle.control_walks.specs.ControlWalks.{Controls};
ghost use Rattle.control_walks.specs.Floods.{Splits};
ghost use Rattle.slicer.specs.Slicer.{ListedEdge, Arrow, HasNodes};
ghost use Rattle.slicer.specs.Search.{Adds, Grows, Follows, FollowsAt, IsBefore, IsControlledBelow};

use super::graph::RoundGraph;
use super::queue::Queue;
use control_walks::{WalkScratch, flood_all};
use dep_graph::Edges;
use flow_graph::{FlowGraph, FlowNode};

/// Begins with the nodes at an address.
pub fn begin(nodes: &[FlowNode], at: u32, queue: &mut Queue)
    requires numbers { length nodes.now < 2 ^ 32 }
    requires room { length nodes.now ≤ queue.old.size }
    ensures nodes { (n : ℕ) → Contains queue.new.nodes n ↔ IsAt nodes.now at n }
    ensures size { queue.new.size ≡ queue.old.size }
{
    queue.clear();
    for n in 0..nodes.len() as u32 {
        queue.mark_if(n, nodes[n as usize].at == at);
    }
}

// Goes back over the edge at this place of a list.
fn follow_edge(pairs: &[(u32, u32)], place: usize, queue: &mut Queue)
    requires within { place < length pairs.now }
    requires room { All (λ pair. pair.0 < queue.old.size) pairs.now }
    ensures grows { Grows (IsBefore pairs.now) queue.old.nodes queue.new.nodes }
    ensures follows { FollowsAt pairs.now place queue.old.nodes queue.new.nodes }
    ensures size { queue.new.size ≡ queue.old.size }
{
    let (from, to) = pairs[place];
    let is_met = queue.has(to);
    queue.mark_if(from, is_met);
}

// Goes back over these edges, the last first.
fn sweep_back(pairs: &[(u32, u32)], queue: &mut Queue)
    requires room { All (λ pair. pair.0 < queue.old.size) pairs.now }
    ensures grows { Grows (IsBefore pairs.now) queue.old.nodes queue.new.nodes }
    ensures size { queue.new.size ≡ queue.old.size }
{
    let count = pairs.len();
    for place in 0..count {
        follow_edge(pairs, count - 1 - place, queue);
    }
}

/// Goes back over these edges, the last first and then the first first.
pub fn sweep(pairs: &[(u32, u32)], queue: &mut Queue)
    requires room { All (λ pair. pair.0 < queue.old.size) pairs.now }
    ensures grows { Grows (IsBefore pairs.now) queue.old.nodes queue.new.nodes }
    ensures follows { Follows (IsBefore pairs.now) queue.old.nodes queue.new.nodes }
    ensures size { queue.new.size ≡ queue.old.size }
{
    sweep_back(pairs, queue);
    for place in 0..pairs.len() {
        follow_edge(pairs, place, queue);
    }
}

/// Goes back over the edges of a graph, those by ESP unless they are left out.
pub fn follow_edges(edges: &Edges, skip_sp: bool, queue: &mut Queue)
    requires ordinary_room { All (λ pair. pair.0 < queue.old.size) edges.now.ordinary }
    requires sp_room { All (λ pair. pair.0 < queue.old.size) edges.now.sp }
    ensures grows { Grows (λ n m. ListedEdge edges.now.ordinary edges.now.sp skip_sp m n) queue.old.nodes queue.new.nodes }
    ensures follows { Follows (λ n m. ListedEdge edges.now.ordinary edges.now.sp skip_sp m n) queue.old.nodes queue.new.nodes }
    ensures size { queue.new.size ≡ queue.old.size }
{
    sweep(edges.ordinary.as_slice(), queue);
    if !skip_sp {
        sweep(edges.sp.as_slice(), queue);
    }
}

// Marks the branches that the last flood shows.
fn mark_branches(graph: &FlowGraph, walks: &WalkScratch, queue: &mut Queue)
    requires numbers { length graph.now.nodes < 2 ^ 32 }
    requires room { length graph.now.nodes ≤ queue.old.size }
    ensures adds { Adds (Splits graph.now.nodes walks.now.reaching walks.now.escaping) queue.old.nodes queue.new.nodes }
    ensures size { queue.new.size ≡ queue.old.size }
{
    for branch in 0..graph.nodes.len() as u32 {
        let is_split = walks.splits(graph, branch);
        queue.mark_if(branch, is_split);
    }
}

// Goes back over the control of up to 64 nodes, from the one at this place on, and gives the place after them.
fn follow_some(graph: &FlowGraph, walks: &mut WalkScratch, queue: &mut Queue, done: usize) -> usize
    requires numbers { length graph.now.nodes < 2 ^ 32 }
    requires made { length graph.now.nodes ≤ walks.old.size }
    requires room { length graph.now.nodes ≤ queue.old.size }
    requires inside { All (λ n. n < length graph.now.nodes) queue.old.nodes }
    requires more { done < length queue.old.nodes }
    ensures grows { Grows (λ n b. Controls graph.now.nodes b n) queue.old.nodes queue.new.nodes }
    ensures follows { (k : ℕ) → done ≤ k → k < result → (b : ℕ) → Controls graph.now.nodes b (slice_index queue.old.nodes k) → Contains queue.new.nodes b }
    ensures further { done < result }
    ensures within { result ≤ length queue.old.nodes }
    ensures walks { walks.new.size ≡ walks.old.size }
    ensures size { queue.new.size ≡ queue.old.size }
{
    let end = done + (queue.len() - done).min(64);
    flood_all(graph, &queue.nodes()[done..end], walks);
    mark_branches(graph, walks, queue);
    end
}

// Goes back over control until nothing comes in. Before this place it has been followed already.
fn follow_control(graph: &FlowGraph, walks: &mut WalkScratch, queue: &mut Queue, mut done: usize)
    requires numbers { length graph.now.nodes < 2 ^ 32 }
    requires made { length graph.now.nodes ≤ walks.old.size }
    requires room { length graph.now.nodes ≤ queue.old.size }
    requires inside { All (λ n. n < length graph.now.nodes) queue.old.nodes }
    requires within { done ≤ length queue.old.nodes }
    requires controlled { IsControlledBelow graph.now.nodes queue.old.nodes done }
    ensures grows { Grows (λ n b. Controls graph.now.nodes b n) queue.old.nodes queue.new.nodes }
    ensures controlled { IsControlledBelow graph.now.nodes queue.new.nodes (length queue.new.nodes) }
    ensures walks { walks.new.size ≡ walks.old.size }
    ensures size { queue.new.size ≡ queue.old.size }
{
    while done < queue.len() {
        done = follow_some(graph, walks, queue, done);
    }
}

/// Goes back over edges and control until nothing comes in.
pub fn follow(graph: &RoundGraph, skip_sp: bool, walks: &mut WalkScratch, queue: &mut Queue)
    requires numbers { length graph.now.flow.nodes < 2 ^ 32 }
    requires made { length graph.now.flow.nodes ≤ walks.old.size }
    requires room { length graph.now.flow.nodes ≤ queue.old.size }
    requires nodes { HasNodes graph.now.flow.nodes graph.now.edges.ordinary graph.now.edges.sp }
    requires inside { All (λ n. n < length graph.now.flow.nodes) queue.old.nodes }
    ensures grows { Grows (λ n m. Arrow (ListedEdge graph.now.edges.ordinary graph.now.edges.sp skip_sp) graph.now.flow.nodes m n) queue.old.nodes queue.new.nodes }
    ensures closed { Follows (λ n m. Arrow (ListedEdge graph.now.edges.ordinary graph.now.edges.sp skip_sp) graph.now.flow.nodes m n) queue.new.nodes queue.new.nodes }
    ensures walks { walks.new.size ≡ walks.old.size }
    ensures size { queue.new.size ≡ queue.old.size }
{
    let mut done = 0;
    loop {
        follow_control(&graph.flow, walks, queue, done);
        done = queue.len();
        follow_edges(&graph.edges, skip_sp, queue);
        if queue.len() == done {
            return;
        }
    }
}
