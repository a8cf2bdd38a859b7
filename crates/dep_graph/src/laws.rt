//! The plain body: one walk for each node and place that it may define. It is what the definition says, and slow; tests compare
//! the rows of bits with it.
ghost use Rattle.std.specs.Prelude.{◌≡◌, ◌⊎◌, ℕ, ◌<◌, ◌≤◌, ◌^◌, ◌↔◌, Contains, length, IsTrue, IfOk, OnOk};
ghost use Rattle.flow_graph.specs.FlowGraph.{MayUse, MayDefine, MustDefine};
ghost use Rattle.flow_graph.specs.Walks.{IsOn};
ghost use Rattle.dep_graph.specs.DepGraph.{DataEdge};
ghost use Rattle.dep_graph.specs.Edges.{IsSquare, Adds, ListsPairs, HasEdges};
ghost use Rattle.dep_graph.specs.Plain.{IsKind, KindEdge};

use super::edges::{ESP, Edges};
use super::pairs::{list_pairs, no_pairs, set_if};
use super::spread::{may_use, must_define};
use flow_graph::{FlowGraph, FlowNode, is_on, walk};
use item_list::Items;
use std::alloc::{AllocError, Global};

// Marks each node unless it must define this place.
fn mark_free(nodes: &[FlowNode], place: u32, free: &mut [bool])
    requires { length nodes.now ≤ length free.old }
    ensures { (m : ℕ) → m < length nodes.now → IsOn free.new m ↔ (¬ MustDefine nodes.now place m) }
{
    for (m, node) in nodes.iter().enumerate() {
        free[m] = !must_define(node, place);
    }
}

// Whether a node is marked and may use a place.
fn is_user(marks: &[bool], n: usize, node: &FlowNode, place: u32) -> bool
    ensures { IsTrue result ↔ (IsOn marks.now n × Contains node.now.may_use place) }
{
    if !is_on(marks, n) {
        return false;
    }
    may_use(node, place)
}

// Marks in a row those of the marked nodes that may use a place.
fn add_users(nodes: &[FlowNode], marks: &[bool], place: u32, row: &mut Items<bool>)
    ensures len { length row.new ≡ length row.old }
    ensures marks { (n : ℕ) → n < length row.old → IsOn row.new n ↔ (IsOn row.old n ⊎ (IsOn marks.now n × MayUse nodes.now place n)) }
{
    for (n, node) in nodes.iter().enumerate() {
        let is_listed = is_user(marks, n, node, place);
        set_if(row, n, is_listed);
    }
}

// Marks the nodes to which an edge goes from a node by one place, which it may define.
fn add_walk(
    alloc: Global,
    nodes: &[FlowNode],
    from: u32,
    place: u32,
    row: &mut Items<bool>,
) -> Result<(), AllocError>
    requires defines { MayDefine nodes.now place from }
    requires wide { length row.old ≡ length nodes.now }
    ensures len { OnOk result (length row.new ≡ length row.old) }
    ensures marks { OnOk result ((n : ℕ) → n < length row.old → IsOn row.new n ↔ (IsOn row.old n ⊎ DataEdge nodes.now place from n)) }
{
    let mut free = vec![in alloc; false; nodes.len()]?;
    mark_free(nodes, place, &mut free);
    let marks = walk(alloc, nodes, from, &free)?;
    add_users(nodes, &marks, place, row);
    Ok(())
}

// Whether a place is ESP's, where that is asked, or isn't, where not.
fn is_kind(place: u32, is_sp: bool) -> bool
    ensures { IsTrue result ↔ IsKind is_sp place }
{
    if is_sp {
        return place == ESP;
    }
    place != ESP
}

// Marks the nodes to which an edge goes from a node, by ESP or by other places, of those that it may define.
fn add_from(
    alloc: Global,
    nodes: &[FlowNode],
    from: u32,
    is_sp: bool,
    row: &mut Items<bool>,
) -> Result<(), AllocError>
    requires inside { from < length nodes.now }
    requires wide { length row.old ≡ length nodes.now }
    ensures len { OnOk result (length row.new ≡ length row.old) }
    ensures marks { OnOk result ((n : ℕ) → n < length row.old → IsOn row.new n ↔ (IsOn row.old n ⊎ KindEdge nodes.now is_sp from n)) }
{
    let places = nodes[from as usize].may_def.as_slice();
    for place in places {
        if is_kind(*place, is_sp) {
            add_walk(alloc, nodes, from, *place, row)?;
        }
    }
    Ok(())
}

// Marks the edges by ESP, or by other places.
fn add_all(
    alloc: Global,
    nodes: &[FlowNode],
    is_sp: bool,
    pairs: &mut [Items<bool>],
) -> Result<(), AllocError>
    requires numbers { length nodes.now < 2 ^ 32 }
    requires square { IsSquare (length nodes.now) pairs.old }
    ensures square { OnOk result (IsSquare (length nodes.now) pairs.new) }
    ensures adds { OnOk result (Adds (KindEdge nodes.now is_sp) pairs.old pairs.new) }
{
    for m in 0..nodes.len() {
        let row = &mut pairs[m];
        add_from(alloc, nodes, m as u32, is_sp, row)?;
    }
    Ok(())
}

// The edges by ESP, or by other places, rising.
fn edges_of(alloc: Global, nodes: &[FlowNode], is_sp: bool) -> Result<Vec<(u32, u32)>, AllocError>
    requires { length nodes.now < 2 ^ 32 }
    ensures { IfOk result (λ edges. ListsPairs (KindEdge nodes.now is_sp) edges.items) }
{
    let mut pairs = no_pairs(alloc, nodes.len())?;
    add_all(alloc, nodes, is_sp, pairs.as_mut_slice())?;
    let edges = list_pairs(alloc, pairs.as_slice())?;
    Ok(edges)
}

/// The data edges of a graph. A graph with more nodes than there are numbers is answered by want of memory.
pub fn data_edges(alloc: Global, graph: &FlowGraph) -> Result<Edges, AllocError>
    ensures { IfOk result (λ edges. HasEdges graph.now.nodes edges.ordinary edges.sp) }
{
    let nodes = graph.nodes.as_slice();
    if nodes.len() >= 1 << 32 {
        return Err(AllocError);
    }
    let ordinary = edges_of(alloc, nodes, false)?;
    let sp = edges_of(alloc, nodes, true)?;
    Ok(Edges {
        ordinary: Items::from_vec(ordinary),
        sp: Items::from_vec(sp),
    })
}
