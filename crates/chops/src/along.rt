//! Along all arrows, until nothing comes in.
ghost use Rattle.std.specs.Prelude.{◌≡◌, ℕ, ◌<◌, ◌≤◌, All, Contains, length};
ghost use Rattle.slicer.specs.Slicer.{Arrow, HasNodes, ListedEdge};
ghost use Rattle.slicer.specs.Search.{Follows, Grows};

use crate::search::{follow_control, follow_edges};
use control_walks::WalkScratch;
use slicer::{Queue, RoundGraph};

/// Goes along edges and control until nothing comes in; `nodes` has the numbers of all nodes.
pub(crate) fn follow_on(
    graph: &RoundGraph,
    skip_sp: bool,
    nodes: &[u32],
    walks: &mut WalkScratch,
    queue: &mut Queue,
)
    requires made { length graph.now.flow.nodes ≤ walks.old.size }
    requires room { length graph.now.flow.nodes ≤ queue.old.size }
    requires edges { HasNodes graph.now.flow.nodes graph.now.edges.ordinary graph.now.edges.sp }
    requires inside { All (λ n. n < length graph.now.flow.nodes) nodes.now }
    requires all { (n : ℕ) → n < length graph.now.flow.nodes → Contains nodes.now n }
    ensures grows { Grows (Arrow (ListedEdge graph.now.edges.ordinary graph.now.edges.sp skip_sp) graph.now.flow.nodes) queue.old.nodes queue.new.nodes }
    ensures closed { Follows (Arrow (ListedEdge graph.now.edges.ordinary graph.now.edges.sp skip_sp) graph.now.flow.nodes) queue.new.nodes queue.new.nodes }
    ensures walks { walks.new.size ≡ walks.old.size }
    ensures size { queue.new.size ≡ queue.old.size }
{
    loop {
        let before = queue.len();
        follow_edges(&graph.edges, skip_sp, queue);
        follow_control(&graph.flow, nodes, walks, queue);
        if queue.len() == before {
            return;
        }
    }
}
