//! Slices back over edges and control that are handed in.
ghost use Rattle.std.specs.Prelude.{◌≡◌, ℕ, ◌<◌, ◌≤◌, ◌^◌, All, Contains, IfOk, length};
ghost use Rattle.slicer.specs.Slicer.{ListedEdge};
ghost use Rattle.slicer.specs.Search.{Follows, Grows};
ghost use Rattle.chops.specs.Chops.{AreAddresses};
ghost use Rattle.matched_calls.specs.Slices.{HasPairs, InSliceOver, IsBefore, MatchedAnswer};

use crate::graph::MatchedGraph;
use chops::{Listing, is_present};
use slicer::{Queue, RoundGraph, begin, follow_edges, sweep};
use std::alloc::{AllocError, Global};

/// Why there is no slice.
#[derive(Clone, Copy, Debug, PartialEq, Eq)]
pub enum MatchedError {
    /// No node stands at the address.
    Absent,
    /// Memory is wanting.
    Memory,
}

// Goes back over edges and control until nothing comes in.
fn go_back(m: &MatchedGraph, skip_sp: bool, queue: &mut Queue)
    requires ordinary { All (λ pair. pair.0 < queue.old.size) m.now.edges.ordinary }
    requires sp { All (λ pair. pair.0 < queue.old.size) m.now.edges.sp }
    requires control { All (λ pair. pair.0 < queue.old.size) m.now.control }
    ensures grows { Grows (IsBefore (ListedEdge m.now.edges.ordinary m.now.edges.sp skip_sp) m.now.control) queue.old.nodes queue.new.nodes }
    ensures closed { Follows (IsBefore (ListedEdge m.now.edges.ordinary m.now.edges.sp skip_sp) m.now.control) queue.new.nodes queue.new.nodes }
    ensures size { queue.new.size ≡ queue.old.size }
{
    loop {
        let before = queue.len();
        follow_edges(&m.edges, skip_sp, queue);
        sweep(m.control.as_slice(), queue);
        if queue.len() == before {
            return;
        }
    }
}

// The addresses of the slice's nodes.
fn list_back(
    alloc: Global,
    g: &RoundGraph,
    m: &MatchedGraph,
    at: u32,
    skip_sp: bool,
) -> Result<Vec<u32>, AllocError>
    requires { HasPairs g.now.flow.nodes m.now.edges.ordinary m.now.edges.sp m.now.control }
    ensures { IfOk result (λ list. AreAddresses g.now.flow.nodes (InSliceOver (ListedEdge m.now.edges.ordinary m.now.edges.sp skip_sp) (λ b n. Contains m.now.control (b, n)) g.now.flow.nodes at) list.items) }
{
    let nodes = g.flow.nodes.as_slice();
    if nodes.len() >= 1 << 32 {
        return Err(AllocError);
    }
    let mut queue = Queue::new(alloc, nodes.len())?;
    let mut listing = Listing::new(alloc, nodes.len())?;
    begin(nodes, at, &mut queue);
    go_back(m, skip_sp, &mut queue);
    listing.list(nodes, queue.nodes());
    let list = Vec::from_slice(alloc, listing.addresses())?;
    Ok(list)
}

/// The slice of an address over the edges and the control that are handed in: the addresses of the least set of nodes that holds those
/// at the address and, with a node, each from which an edge or control goes to it. With `skip_sp` the edges by ESP are left out. It is
/// an error where no node stands at the address; a graph with more nodes than there are numbers is answered by want of memory.
pub fn matched_backward(
    alloc: Global,
    g: &RoundGraph,
    m: &MatchedGraph,
    at: u32,
    skip_sp: bool,
) -> Result<Vec<u32>, MatchedError>
    requires { HasPairs g.now.flow.nodes m.now.edges.ordinary m.now.edges.sp m.now.control }
    ensures slice { IfOk result (λ list. AreAddresses g.now.flow.nodes (InSliceOver (ListedEdge m.now.edges.ordinary m.now.edges.sp skip_sp) (λ b n. Contains m.now.control (b, n)) g.now.flow.nodes at) list.items) }
    ensures absent { MatchedAnswer g.now.flow.nodes at result }
{
    if !is_present(g.flow.nodes.as_slice(), at) {
        return Err(MatchedError::Absent);
    }
    match list_back(alloc, g, m, at, skip_sp) {
        Err(AllocError) => Err(MatchedError::Memory),
        Ok(list) => Ok(list),
    }
}
