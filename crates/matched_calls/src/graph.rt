//! The edges and the control of a graph along matched walks.
ghost use Rattle.std.specs.Prelude.{◌≡◌, ◌↔◌, ℕ, ◌+◌, ◌<◌, ◌≤◌, ◌^◌, Contains, IfOk, IsTrue, OnOk, length};
ghost use Rattle.flow_graph.specs.Rows.{HasBit};
ghost use Rattle.control_walks.specs.ControlWalks.{Controls};
ghost use Rattle.dep_graph.specs.Edges.{Adds, HasPair, IsSquare};
ghost use Rattle.matched_calls.specs.Matched.{HasKinds, MatchedControl};
ghost use Rattle.matched_calls.specs.Slices.{HasMatches, HasPairs};
ghost use Rattle.matched_calls.specs.Extended.{IsPlan};
ghost use Rattle.matched_calls.specs.Searches.{IsWalk, IsWide};

use crate::kinds::StepKinds;
use crate::places::edges_by;
use crate::search::{Search, add_walks};
use crate::sites::make_plan;
use crate::summary::{Ground, summarize};
use chops::control_pairs;
use dep_graph::pairs::{no_pairs, push_if};
use dep_graph::{ESP, Edges, all_unless, numbers, used_places};
use flow_graph::{FlowGraph, is_on};
use item_list::Items;
use slicer::RoundGraph;
use std::alloc::{AllocError, Global};

/// The edges and the control of a graph along matched walks.
#[derive(Debug, Drop)]
pub struct MatchedGraph {
    /// Pairs of numbers of nodes, each from what defines to what uses.
    pub edges: Edges,
    /// Pairs of numbers of nodes, each of a branch and a node that it controls.
    pub control: Items<(u32, u32)>,
}

// Gives all bits to each node, and none to what stands behind the nodes.
fn seat_all(count: usize, kept: &mut [u64])
    requires { count ≤ length kept.old }
    ensures len { length kept.new ≡ length kept.old }
    ensures all { (n k : ℕ) → n < count → k < 64 → HasBit kept.new n k }
    ensures none { (n k : ℕ) → count ≤ n → ¬ HasBit kept.new n k }
{
    kept.fill(0);
    for n in 0..count {
        kept[n] = all_unless(false);
    }
}

// Keeps all nodes, and works out which calls come back.
fn fill_all(ground: &Ground, kept: &mut [u64], rows: &mut [u64])
    requires plan { IsPlan ground.now.nodes.now ground.now.kinds.now ground.now.plan.now }
    requires room { length kept.old ≡ length ground.now.nodes.now + length ground.now.kinds.now.after }
    requires rows { length rows.old ≡ length kept.old }
    ensures wide { IsWide ground.now.nodes.now ground.now.kinds.now kept.new }
    ensures all { (n k : ℕ) → n < length ground.now.nodes.now → k < 64 → HasBit kept.new n k }
{
    seat_all(ground.nodes.len(), kept);
    summarize(ground, kept, rows);
}

// Marks each two nodes between which a matched walk goes.
fn mark_walks(alloc: Global, ground: &Ground, marks: &mut [Items<bool>]) -> Result<(), AllocError>
    requires plan { IsPlan ground.now.nodes.now ground.now.kinds.now ground.now.plan.now }
    requires numbers { length ground.now.nodes.now + length ground.now.kinds.now.after < 2 ^ 32 }
    requires square { IsSquare (length ground.now.nodes.now) marks.old }
    ensures square { OnOk result (IsSquare (length ground.now.nodes.now) marks.new) }
    ensures adds { OnOk result (Adds (IsWalk ground.now.nodes.now ground.now.kinds.now) marks.old marks.new) }
{
    let nodes = ground.nodes.len();
    let count = nodes + ground.kinds.after.len();
    let mut kept = vec![in alloc; 0; count]?;
    let mut rows = vec![in alloc; 0; count]?;
    let sources = vec![in alloc; true; nodes]?;
    let targets = numbers(alloc, nodes as u32)?;
    fill_all(ground, &mut kept, &mut rows);
    let search = Search {
        ground: *ground,
        kept: &kept,
        sources: &sources,
    };
    add_walks(&search, &mut rows, targets.as_slice(), marks);
    Ok(())
}

// Whether a pair is marked.
fn is_marked(marks: &[Items<bool>], from: u32, to: u32) -> bool
    ensures { IsTrue result ↔ HasPair marks.now from to }
{
    match marks.get(from as usize) {
        Some(row) => is_on(row.as_slice(), to as usize),
        None => false,
    }
}

// Those of these pairs that are marked.
fn list_marked(
    alloc: Global,
    pairs: &[(u32, u32)],
    marks: &[Items<bool>],
) -> Result<Vec<(u32, u32)>, AllocError>
    ensures { IfOk result (λ list. (m n : ℕ) → Contains list.items (m, n) ↔ (Contains pairs.now (m, n) × HasPair marks.now m n)) }
{
    let mut list = Vec::new(alloc);
    for pair in pairs {
        let is_listed = is_marked(marks, pair.0, pair.1);
        push_if(&mut list, pair.0, pair.1, is_listed)?;
    }
    Ok(list)
}

// The control of a graph along matched walks.
fn matched_control(
    alloc: Global,
    graph: &FlowGraph,
    ground: &Ground,
) -> Result<Vec<(u32, u32)>, AllocError>
    requires plan { IsPlan ground.now.nodes.now ground.now.kinds.now ground.now.plan.now }
    requires same { ground.now.nodes.now ≡ graph.now.nodes }
    requires numbers { length ground.now.nodes.now + length ground.now.kinds.now.after < 2 ^ 32 }
    ensures { IfOk result (λ control. (b n : ℕ) → Contains control.items (b, n) ↔ MatchedControl graph.now.nodes ground.now.kinds.now b n) }
{
    let pairs = control_pairs(alloc, graph)?;
    let mut marks = no_pairs(alloc, ground.nodes.len())?;
    mark_walks(alloc, ground, marks.as_mut_slice())?;
    let control = list_marked(alloc, pairs.as_slice(), marks.as_slice())?;
    Ok(control)
}

/// The edges and the control of a graph along matched walks. Where there are too many nodes and calls that may come back for their
/// numbers, it is answered by want of memory.
pub fn matched_graph(
    alloc: Global,
    g: &RoundGraph,
    k: &StepKinds,
) -> Result<MatchedGraph, AllocError>
    requires { HasKinds g.now.flow.nodes k.now }
    ensures matches { IfOk result (λ m. HasMatches g.now.flow.nodes k.now m.edges.ordinary m.edges.sp m.control) }
    ensures nodes { IfOk result (λ m. HasPairs g.now.flow.nodes m.edges.ordinary m.edges.sp m.control) }
{
    let nodes = g.flow.nodes.as_slice();
    let plan = make_plan(alloc, nodes, k)?;
    let ground = Ground {
        nodes,
        kinds: k,
        plan: &plan,
    };
    let places = used_places(alloc, nodes)?;
    let ordinary = edges_by(alloc, &ground, places.as_slice())?;
    let sp = edges_by(alloc, &ground, &[ESP])?;
    let control = matched_control(alloc, &g.flow, &ground)?;
    Ok(MatchedGraph {
        edges: Edges {
            ordinary: Items::from_vec(ordinary),
            sp: Items::from_vec(sp),
        },
        control: Items::from_vec(control),
    })
}
