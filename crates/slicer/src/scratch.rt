// Room for slices, and the slice that was made in it.
ghost use Rattle.std.specs.Prelude.{◌≡◌, ◌↔◌, ℕ, ◌≤◌, length, IfOk, IsErr};
ghost use Rattle.flow_graph.specs.FlowGraph.{IsAt};
ghost use Rattle.slicer.specs.Slicer.{ListedEdge, IsSlice, HasNodes};

use super::graph::RoundGraph;
use super::list::list_slice;
use super::queue::Queue;
use super::search::{begin, follow};
use control_walks::WalkScratch;
use std::alloc::{AllocError, Global};
use std::marker::Model;

/// No node stands at the address.
#[derive(Clone, Copy, Debug, PartialEq, Eq)]
pub struct Absent;

/// Room for slices of a graph, so that a slice takes no memory.
#[derive(Debug, Drop)]
pub struct Scratch {
    walks: WalkScratch,
    queue: Queue,
    found: Vec<u32>,
    list: Vec<u32>,
    listed: usize,
}

impl Model for Scratch {
    ghost use Rattle.std.specs.Prelude.{length, take};
    ghost use Rattle.slicer.specs.Search.{Listed, HasRoom};

    ghost Value = { Listed };

    ghost view = { λ s. record { size = s.queue.size; addresses = take s.listed s.list.items } };

    ghost invariant = { λ s. HasRoom s.queue.size s.walks.size (length s.found.items) (length s.list.items) s.listed };
}

impl Scratch {
    /// Room for the slices of this graph, or of one with no more nodes. A graph with more nodes than there are numbers gets no
    /// scratch.
    pub fn new(alloc: Global, graph: &RoundGraph) -> Result<Scratch, AllocError>
        ensures { IfOk result (λ s. s.size ≡ length graph.now.flow.nodes) }
    {
        let count = graph.flow.nodes.len();
        if count >= 1 << 32 {
            return Err(AllocError);
        }
        let walks = WalkScratch::new(alloc, &graph.flow)?;
        let queue = Queue::new(alloc, count)?;
        let found = vec![in alloc; 0; count]?;
        let list = vec![in alloc; 0; count]?;
        Ok(Scratch {
            walks,
            queue,
            found,
            list,
            listed: 0,
        })
    }

    /// For how many nodes there is room.
    pub fn size(&self) -> usize
        ensures { result ≡ self.now.size }
    {
        self.list.len()
    }

    /// The addresses of the slice last made.
    pub fn addresses(&self) -> &[u32]
        ensures listed { result.now ≡ self.now.addresses }
        ensures within { length self.now.addresses ≤ self.now.size }
    {
        &self.list[..self.listed]
    }
}

// Makes the slice back from an address. It is empty where no node stands there.
fn make_slice(graph: &RoundGraph, at: u32, skip_sp: bool, s: &mut Scratch)
    requires nodes { HasNodes graph.now.flow.nodes graph.now.edges.ordinary graph.now.edges.sp }
    requires made { length graph.now.flow.nodes ≤ s.old.size }
    ensures slice { IsSlice (ListedEdge graph.now.edges.ordinary graph.now.edges.sp skip_sp) graph.now.flow.nodes at s.new.addresses }
    ensures size { s.new.size ≡ s.old.size }
{
    let nodes = graph.flow.nodes.as_slice();
    begin(nodes, at, &mut s.queue);
    follow(graph, skip_sp, &mut s.walks, &mut s.queue);
    s.listed = list_slice(nodes, s.queue.nodes(), &mut s.found, &mut s.list);
}

/// Makes the slice back from an address over a graph's edges and its control; `addresses` shows it. With `skip_sp` the edges by
/// ESP are left out. It is an error where no node stands at the address, and the slice is then empty.
pub fn backward(graph: &RoundGraph, at: u32, skip_sp: bool, s: &mut Scratch) -> Result<(), Absent>
    requires nodes { HasNodes graph.now.flow.nodes graph.now.edges.ordinary graph.now.edges.sp }
    requires made { length graph.now.flow.nodes ≤ s.old.size }
    ensures slice { IsSlice (ListedEdge graph.now.edges.ordinary graph.now.edges.sp skip_sp) graph.now.flow.nodes at s.new.addresses }
    ensures absent { IsErr result ↔ ((n : ℕ) → ¬ IsAt graph.now.flow.nodes at n) }
    ensures size { s.new.size ≡ s.old.size }
{
    make_slice(graph, at, skip_sp, s);
    if s.addresses().is_empty() {
        return Err(Absent);
    }
    Ok(())
}
