//! Searches from an address, along arrows and back.
ghost use Rattle.std.specs.Prelude.{◌≡◌, ◌↔◌, ℕ, ◌≤◌, ◌<◌, ◌^◌, Contains, IfOk, length};
ghost use Rattle.slicer.specs.Slicer.{HasNodes, InSlice, ListedEdge};
ghost use Rattle.chops.specs.Chops.{InForward};
ghost use Rattle.chops.specs.Following.{AreNumbers};

use crate::along::follow_on;
use control_walks::WalkScratch;
use flow_graph::FlowGraph;
use slicer::{Queue, RoundGraph, begin, follow};
use std::alloc::{AllocError, Global};
use std::marker::Model;

/// Room for searches in graphs with up to so many nodes.
#[derive(Debug, Drop)]
pub(crate) struct Walker {
    walks: WalkScratch,
    numbers: Vec<u32>,
}

impl Model for Walker {
    ghost use Rattle.std.specs.Prelude.{◌≡◌, ◌<◌, ◌^◌, ℕ, length};
    ghost use Rattle.chops.specs.Following.{AreNumbers};

    ghost Value = { ℕ };

    ghost view = { λ w. length w.numbers.items };

    ghost invariant = { λ w. (w.walks.size ≡ length w.numbers.items) × AreNumbers w.numbers.items × (length w.numbers.items < 2 ^ 32) };
}

/// The numbers from 0 up to, and without, this one.
pub(crate) fn count_up(alloc: Global, end: u32) -> Result<Vec<u32>, AllocError>
    ensures numbers { IfOk result (λ v. AreNumbers v.items) }
    ensures many { IfOk result (λ v. length v.items ≡ end) }
{
    let mut numbers = Vec::new(alloc);
    for n in 0..end {
        numbers.push(n)?;
    }
    Ok(numbers)
}

impl Walker {
    /// Room for this graph, or for one with no more nodes. A graph with more nodes than there are numbers gets none.
    pub(crate) fn new(alloc: Global, graph: &FlowGraph) -> Result<Walker, AllocError>
        ensures { IfOk result (λ w. w ≡ length graph.now.nodes) }
    {
        let count = graph.nodes.len();
        if count >= 1 << 32 {
            return Err(AllocError);
        }
        let walks = WalkScratch::new(alloc, graph)?;
        let numbers = count_up(alloc, count as u32)?;
        Ok(Walker { walks, numbers })
    }

    /// Finds the forward slice of an address.
    pub(crate) fn forward(&mut self, graph: &RoundGraph, at: u32, skip_sp: bool, queue: &mut Queue)
        requires edges { HasNodes graph.now.flow.nodes graph.now.edges.ordinary graph.now.edges.sp }
        requires made { length graph.now.flow.nodes ≤ self.old }
        requires room { length graph.now.flow.nodes ≤ queue.old.size }
        ensures nodes { (n : ℕ) → Contains queue.new.nodes n ↔ InForward (ListedEdge graph.now.edges.ordinary graph.now.edges.sp skip_sp) graph.now.flow.nodes at n }
        ensures made { self.new ≡ self.old }
        ensures size { queue.new.size ≡ queue.old.size }
    {
        let nodes = graph.flow.nodes.as_slice();
        let numbers = &self.numbers[..nodes.len()];
        begin(nodes, at, queue);
        follow_on(graph, skip_sp, numbers, &mut self.walks, queue);
    }

    /// Finds the slice of an address.
    pub(crate) fn back(&mut self, graph: &RoundGraph, at: u32, skip_sp: bool, queue: &mut Queue)
        requires edges { HasNodes graph.now.flow.nodes graph.now.edges.ordinary graph.now.edges.sp }
        requires made { length graph.now.flow.nodes ≤ self.old }
        requires room { length graph.now.flow.nodes ≤ queue.old.size }
        ensures nodes { (n : ℕ) → Contains queue.new.nodes n ↔ InSlice (ListedEdge graph.now.edges.ordinary graph.now.edges.sp skip_sp) graph.now.flow.nodes at n }
        ensures made { self.new ≡ self.old }
        ensures size { queue.new.size ≡ queue.old.size }
    {
        let walks = &mut self.walks;
        begin(graph.flow.nodes.as_slice(), at, queue);
        follow(graph, skip_sp, walks, queue);
    }
}
