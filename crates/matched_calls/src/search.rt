//! The pairs of nodes between which a matched walk goes, over nodes of which a fact holds.
ghost use Rattle.std.specs.Prelude.{◌≡◌, ◌⊎◌, ◌↔◌, ℕ, ◌+◌, ◌<◌, ◌≤◌, All, Contains, IsTrue, length};
ghost use Rattle.flow_graph.specs.Rows.{Comes, HasBit};
ghost use Rattle.flow_graph.specs.Walks.{IsOn};
ghost use Rattle.dep_graph.specs.Edges.{Adds, IsSquare};
ghost use Rattle.matched_calls.specs.Extended.{IsPlan};
ghost use Rattle.matched_calls.specs.Searches.{IsFrom, IsHit, IsHitFrom, IsWide};

use crate::sites::PhaseGraph;
use crate::summary::Ground;
use dep_graph::pairs::scatter;
use flow_graph::{FlowNode, begin, grow, met};
use item_list::Items;

/// A ground, a word for each node and each call that may come back, which has all bits where the fact holds or the call does, and marks of
/// the nodes from which walks are sought.
#[derive(Clone, Copy)]
pub(crate) struct Search<'a> {
    pub ground: Ground<'a>,
    pub kept: &'a [u64],
    pub sources: &'a [bool],
}

// Marks what a successor of a source has.
fn add_row(node: &FlowNode, rows: &[u64], is_source: bool, targets: &[u32], row: &mut Items<bool>)
    requires { length targets.now ≤ 64 }
    ensures len { length row.new ≡ length row.old }
    ensures marks { (n : ℕ) → n < length row.old → IsOn row.new n ↔ (IsOn row.old n ⊎ (IsTrue is_source × IsHit node.now.next rows.now targets.now n)) }
{
    if !is_source {
        return;
    }
    scatter(met(rows, node.next.as_slice()), targets, row);
}

// Marks, for each source, what a successor of it has.
fn add_rows(
    graph: &[FlowNode],
    rows: &[u64],
    sources: &[bool],
    targets: &[u32],
    pairs: &mut [Items<bool>],
)
    requires few { length targets.now ≤ 64 }
    requires inside { All (λ n. n < length sources.now) targets.now }
    requires many { length sources.now ≤ length graph.now }
    requires square { IsSquare (length sources.now) pairs.old }
    ensures square { IsSquare (length sources.now) pairs.new }
    ensures adds { Adds (IsHitFrom graph.now rows.now sources.now targets.now) pairs.old pairs.new }
{
    for m in 0..sources.len() {
        let row = &mut pairs[m];
        add_row(&graph[m], rows, sources[m], targets, row);
    }
}

// Lets the bits in the rows come to where a phase leads to them, and marks the sources with a successor that has them.
fn go_back(
    graph: &PhaseGraph,
    search: &Search,
    rows: &mut [u64],
    targets: &[u32],
    pairs: &mut [Items<bool>],
)
    requires few { length targets.now ≤ 64 }
    requires inside { All (λ n. n < length search.now.sources.now) targets.now }
    requires many { length search.now.sources.now ≤ length graph.now.nodes }
    requires room { length graph.now.nodes ≤ length rows.old }
    requires square { IsSquare (length search.now.sources.now) pairs.old }
    ensures rows { (n k : ℕ) → HasBit rows.new n k ↔ Comes graph.now.nodes search.now.kept.now rows.old k n }
    ensures len { length rows.new ≡ length rows.old }
    ensures square { IsSquare (length search.now.sources.now) pairs.new }
    ensures adds { Adds (IsHitFrom graph.now.nodes rows.new search.now.sources.now targets.now) pairs.old pairs.new }
{
    let nodes = graph.nodes.as_slice();
    grow(nodes, graph.order.as_slice(), search.kept, rows);
    add_rows(nodes, rows, search.sources, targets, pairs);
}

// Marks the walks to some of at most 64 nodes.
fn add_chunk(search: &Search, rows: &mut [u64], targets: &[u32], pairs: &mut [Items<bool>])
    requires plan { IsPlan search.now.ground.nodes.now search.now.ground.kinds.now search.now.ground.plan.now }
    requires wide { IsWide search.now.ground.nodes.now search.now.ground.kinds.now search.now.kept.now }
    requires many { length search.now.sources.now ≡ length search.now.ground.nodes.now }
    requires room { length rows.old ≡ length search.now.ground.nodes.now + length search.now.ground.kinds.now.after }
    requires few { length targets.now ≤ 64 }
    requires inside { All (λ n. n < length search.now.ground.nodes.now) targets.now }
    requires square { IsSquare (length search.now.ground.nodes.now) pairs.old }
    ensures len { length rows.new ≡ length rows.old }
    ensures square { IsSquare (length search.now.ground.nodes.now) pairs.new }
    ensures adds { Adds (IsFrom search.now.ground.nodes.now search.now.ground.kinds.now search.now.kept.now search.now.sources.now targets.now) pairs.old pairs.new }
{
    let plan = search.ground.plan;
    begin(rows, targets);
    go_back(&plan.down, search, rows, targets, pairs);
    go_back(&plan.up, search, rows, targets, pairs);
}

/// Marks each pair of a source and one of these nodes between which a matched walk goes over nodes of which the fact holds.
pub(crate) fn add_walks(
    search: &Search,
    rows: &mut [u64],
    targets: &[u32],
    pairs: &mut [Items<bool>],
)
    requires plan { IsPlan search.now.ground.nodes.now search.now.ground.kinds.now search.now.ground.plan.now }
    requires wide { IsWide search.now.ground.nodes.now search.now.ground.kinds.now search.now.kept.now }
    requires many { length search.now.sources.now ≡ length search.now.ground.nodes.now }
    requires room { length rows.old ≡ length search.now.ground.nodes.now + length search.now.ground.kinds.now.after }
    requires inside { All (λ n. n < length search.now.ground.nodes.now) targets.now }
    requires square { IsSquare (length search.now.ground.nodes.now) pairs.old }
    ensures len { length rows.new ≡ length rows.old }
    ensures square { IsSquare (length search.now.ground.nodes.now) pairs.new }
    ensures adds { Adds (IsFrom search.now.ground.nodes.now search.now.ground.kinds.now search.now.kept.now search.now.sources.now targets.now) pairs.old pairs.new }
{
    let mut rest = targets;
    while !rest.is_empty() {
        let (chunk, after) = rest.split_at(rest.len().min(64));
        add_chunk(search, rows, chunk, pairs);
        rest = after;
    }
}
