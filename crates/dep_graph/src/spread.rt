// The users of a place, followed back 64 at a time.
ghost use Rattle.std.specs.Prelude.{◌≡◌, ◌⊎◌, ℕ, ◌<◌, ◌≤◌, ◌^◌, ◌↔◌, All, Contains, length, IsTrue, IfOk, OnOk};
ghost use Rattle.flow_graph.specs.FlowGraph.{MayUse, MustDefine};
ghost use Rattle.flow_graph.specs.Walks.{IsOn};
ghost use Rattle.flow_graph.specs.Rows.{IsBit, HasBit};
ghost use Rattle.dep_graph.specs.Edges.{HasPair, IsSquare, ArrivesAt, Adds, KeepsUnless, IsRowHit, RowHit};

use super::pairs::scatter;
use flow_graph::{FlowNode, begin, grow, met};
use item_list::Items;
use std::alloc::{AllocError, Global};

/// Whether a node may use a place.
pub fn may_use(node: &FlowNode, place: u32) -> bool
    ensures { IsTrue result ↔ Contains node.now.may_use place }
{
    node.may_use.as_slice().contains(&place)
}

/// Whether a node may define a place.
pub fn may_define(node: &FlowNode, place: u32) -> bool
    ensures { IsTrue result ↔ Contains node.now.may_def place }
{
    node.may_def.as_slice().contains(&place)
}

/// Whether a node must define a place.
pub fn must_define(node: &FlowNode, place: u32) -> bool
    ensures { IsTrue result ↔ Contains node.now.must_def place }
{
    node.must_def.as_slice().contains(&place)
}

/// All bits, or none.
pub fn all_unless(is_none: bool) -> u64
    ensures { (k : ℕ) → k < 64 → IsBit result k ↔ (¬ IsTrue is_none) }
{
    if is_none {
        return 0;
    }
    u64::MAX
}

// Each node keeps all bits unless it must define this place.
fn seat_kept(nodes: &[FlowNode], place: u32, kept: &mut [u64])
    requires { length nodes.now ≤ length kept.old }
    ensures { KeepsUnless nodes.now place kept.new }
{
    for (m, node) in nodes.iter().enumerate() {
        kept[m] = all_unless(must_define(node, place));
    }
}

/// A graph's nodes with an order of sweeps, and a place of which edges are sought.
#[derive(Clone, Copy)]
pub struct Ground<'a> {
    pub nodes: &'a [FlowNode],
    pub order: &'a [u32],
    pub place: u32,
}

// Marks what a node may define and a successor has.
fn add_row(node: &FlowNode, rows: &[u64], place: u32, targets: &[u32], row: &mut Items<bool>)
    requires { length targets.now ≤ 64 }
    ensures len { length row.new ≡ length row.old }
    ensures marks { (n : ℕ) → n < length row.old → IsOn row.new n ↔ (IsOn row.old n ⊎ IsRowHit node.now rows.now place targets.now n) }
{
    if !may_define(node, place) {
        return;
    }
    scatter(met(rows, node.next.as_slice()), targets, row);
}

// Marks, for each node, what it may define and a successor has.
fn add_rows(ground: &Ground, rows: &[u64], targets: &[u32], pairs: &mut [Items<bool>])
    requires few { length targets.now ≤ 64 }
    requires inside { All (λ n. n < length ground.now.nodes.now) targets.now }
    requires square { IsSquare (length ground.now.nodes.now) pairs.old }
    ensures square { IsSquare (length ground.now.nodes.now) pairs.new }
    ensures adds { Adds (RowHit ground.now.nodes.now rows.now ground.now.place targets.now) pairs.old pairs.new }
{
    for (m, node) in ground.nodes.iter().enumerate() {
        let row = &mut pairs[m];
        add_row(node, rows, ground.place, targets, row);
    }
}

// Marks what arrives at some of at most 64 nodes.
fn add_chunk(
    ground: &Ground,
    kept: &[u64],
    rows: &mut [u64],
    targets: &[u32],
    pairs: &mut [Items<bool>],
)
    requires few { length targets.now ≤ 64 }
    requires inside { All (λ n. n < length ground.now.nodes.now) targets.now }
    requires room { length ground.now.nodes.now ≤ length rows.old }
    requires keeps { KeepsUnless ground.now.nodes.now ground.now.place kept.now }
    requires square { IsSquare (length ground.now.nodes.now) pairs.old }
    ensures square { IsSquare (length ground.now.nodes.now) pairs.new }
    ensures adds { Adds (ArrivesAt ground.now.nodes.now ground.now.place targets.now) pairs.old pairs.new }
{
    begin(rows, targets);
    grow(ground.nodes, ground.order, kept, rows);
    add_rows(ground, rows, targets, pairs);
}

// Marks what arrives at some of these nodes.
fn add_parts(
    ground: &Ground,
    kept: &[u64],
    rows: &mut [u64],
    targets: &[u32],
    pairs: &mut [Items<bool>],
)
    requires inside { All (λ n. n < length ground.now.nodes.now) targets.now }
    requires room { length ground.now.nodes.now ≤ length rows.old }
    requires keeps { KeepsUnless ground.now.nodes.now ground.now.place kept.now }
    requires square { IsSquare (length ground.now.nodes.now) pairs.old }
    ensures square { IsSquare (length ground.now.nodes.now) pairs.new }
    ensures adds { Adds (ArrivesAt ground.now.nodes.now ground.now.place targets.now) pairs.old pairs.new }
{
    let mut rest = targets;
    while !rest.is_empty() {
        let (chunk, after) = rest.split_at(rest.len().min(64));
        add_chunk(ground, kept, rows, chunk, pairs);
        rest = after;
    }
}

/// Marks each pair m, n where m may define the place, n is one of these nodes, and what m defines arrives at n.
pub fn add_targets(
    alloc: Global,
    ground: &Ground,
    targets: &[u32],
    pairs: &mut [Items<bool>],
) -> Result<(), AllocError>
    requires inside { All (λ n. n < length ground.now.nodes.now) targets.now }
    requires square { IsSquare (length ground.now.nodes.now) pairs.old }
    ensures square { OnOk result (IsSquare (length ground.now.nodes.now) pairs.new) }
    ensures adds { OnOk result (Adds (ArrivesAt ground.now.nodes.now ground.now.place targets.now) pairs.old pairs.new) }
{
    let mut kept = vec![in alloc; 0; ground.nodes.len()]?;
    let mut rows = vec![in alloc; 0; ground.nodes.len()]?;
    seat_kept(ground.nodes, ground.place, &mut kept);
    add_parts(ground, &kept, &mut rows, targets, pairs);
    Ok(())
}
