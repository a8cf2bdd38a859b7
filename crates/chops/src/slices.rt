//! Forward slices and chops.
ghost use Rattle.std.specs.Prelude.{◌≡◌, ◌↔◌, ℕ, ◌≤◌, ◌<◌, All, Contains, length, IfOk, IsErr, IsTrue};
ghost use Rattle.flow_graph.specs.FlowGraph.{IsAt};
ghost use Rattle.slicer.specs.Slicer.{HasNodes, ListedEdge};
ghost use Rattle.chops.specs.Chops.{IsChop, IsForwardSlice};
ghost use Rattle.chops.specs.Answers.{ChopAnswer};

use crate::listing::Listing;
use crate::walker::Walker;
use slicer::{Absent, Queue, RoundGraph};
use std::alloc::{AllocError, Global};
use std::marker::Model;

/// Which end of a chop isn't there.
#[derive(Clone, Copy, Debug, PartialEq, Eq)]
pub enum ChopAbsent {
    /// No node stands at the address that influences.
    From,
    /// Nodes stand there, and none at the address that depends.
    To,
}

/// Room for forward slices and chops of a graph, so that they take no memory.
#[derive(Debug, Drop)]
pub struct ChopScratch {
    walker: Walker,
    first: Queue,
    second: Queue,
    both: Queue,
    listing: Listing,
}

impl Model for ChopScratch {
    ghost use Rattle.std.specs.Prelude.{◌≡◌};
    ghost use Rattle.slicer.specs.Search.{Listed};

    ghost Value = { Listed };

    ghost view = { λ s. record { size = s.walker; addresses = s.listing.addresses } };

    ghost invariant = { λ s. (s.first.size ≡ s.walker) × (s.second.size ≡ s.walker) × (s.both.size ≡ s.walker) × (s.listing.size ≡ s.walker) };
}

impl ChopScratch {
    /// Room for the forward slices and chops of this graph, or of one with no more nodes. A graph with more nodes than there are
    /// numbers gets no scratch.
    pub fn new(alloc: Global, graph: &RoundGraph) -> Result<ChopScratch, AllocError>
        ensures { IfOk result (λ s. s.size ≡ length graph.now.flow.nodes) }
    {
        let count = graph.flow.nodes.len();
        let walker = Walker::new(alloc, &graph.flow)?;
        let first = Queue::new(alloc, count)?;
        let second = Queue::new(alloc, count)?;
        let both = Queue::new(alloc, count)?;
        let listing = Listing::new(alloc, count)?;
        Ok(ChopScratch {
            walker,
            first,
            second,
            both,
            listing,
        })
    }

    /// The addresses of the slice or the chop last made.
    pub fn addresses(&self) -> &[u32]
        ensures { result.now ≡ self.now.addresses }
    {
        self.listing.addresses()
    }
}

// Whether a search has met no node.
fn is_empty(queue: &Queue) -> bool
    ensures none { IsTrue result → (n : ℕ) → ¬ Contains queue.now.nodes n }
    ensures some { ¬ IsTrue result → (n : ℕ) × Contains queue.now.nodes n }
{
    queue.len() == 0
}

// Puts the nodes that both have into a third.
fn meet(first: &Queue, second: &Queue, both: &mut Queue)
    requires inside { All (λ n. n < both.old.size) first.now.nodes }
    ensures nodes { (n : ℕ) → Contains both.new.nodes n ↔ (Contains first.now.nodes n × Contains second.now.nodes n) }
    ensures size { both.new.size ≡ both.old.size }
{
    both.clear();
    for node in first.nodes() {
        both.mark_if(*node, second.has(*node));
    }
}

/// Makes the forward slice of an address over a graph's edges and its control; `addresses` shows it: the addresses of the nodes that
/// those at this one may influence. With `skip_sp` the edges by ESP are left out. It is an error where no node stands at the address,
/// and the slice is then empty.
pub fn forward(
    graph: &RoundGraph,
    at: u32,
    skip_sp: bool,
    s: &mut ChopScratch,
) -> Result<(), Absent>
    requires nodes { HasNodes graph.now.flow.nodes graph.now.edges.ordinary graph.now.edges.sp }
    requires made { length graph.now.flow.nodes ≤ s.old.size }
    ensures slice { IsForwardSlice (ListedEdge graph.now.edges.ordinary graph.now.edges.sp skip_sp) graph.now.flow.nodes at s.new.addresses }
    ensures absent { IsErr result ↔ ((n : ℕ) → ¬ IsAt graph.now.flow.nodes at n) }
    ensures size { s.new.size ≡ s.old.size }
{
    s.walker.forward(graph, at, skip_sp, &mut s.first);
    s.listing.list(graph.flow.nodes.as_slice(), s.first.nodes());
    if is_empty(&s.first) {
        return Err(Absent);
    }
    Ok(())
}

/// Makes the chop between two addresses; `addresses` shows it: the addresses of the nodes that those at `from` may influence and on which
/// those at `to` may depend. With `skip_sp` the edges by ESP are left out. It is an error where no node stands at one of the addresses,
/// and the chop is then empty.
pub fn chop(
    graph: &RoundGraph,
    from: u32,
    to: u32,
    skip_sp: bool,
    s: &mut ChopScratch,
) -> Result<(), ChopAbsent>
    requires nodes { HasNodes graph.now.flow.nodes graph.now.edges.ordinary graph.now.edges.sp }
    requires made { length graph.now.flow.nodes ≤ s.old.size }
    ensures chop { IsChop (ListedEdge graph.now.edges.ordinary graph.now.edges.sp skip_sp) graph.now.flow.nodes from to s.new.addresses }
    ensures absent { ChopAnswer graph.now.flow.nodes from to result }
    ensures size { s.new.size ≡ s.old.size }
{
    s.walker.forward(graph, from, skip_sp, &mut s.first);
    s.walker.back(graph, to, skip_sp, &mut s.second);
    meet(&s.first, &s.second, &mut s.both);
    s.listing.list(graph.flow.nodes.as_slice(), s.both.nodes());
    if is_empty(&s.first) {
        return Err(ChopAbsent::From);
    }
    if is_empty(&s.second) {
        return Err(ChopAbsent::To);
    }
    Ok(())
}
