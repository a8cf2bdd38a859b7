// Small graphs, each with its edges, what controls a node of it, and slices, written out.
ghost use Rattle.std.specs.Prelude.{IfOk};
ghost use Rattle.slicer.specs.Slicer.{HasNodes};

use super::{RoundGraph, Scratch, backward};
use control_walks::{WalkScratch, controls};
use flow_graph::{FlowGraph, FlowNode};
use item_list::Items;
use std::alloc::{AllocError, Global};
use std::test::Fail;

// No number.
const N: u32 = 99;

// The numbers of a row, without those that stand for none.
fn numbers(alloc: Global, row: &[u32]) -> Result<Items<u32>, AllocError> {
    let mut list = Items::new(alloc);
    for number in row {
        if *number != N {
            list.push(*number)?;
        }
    }
    Ok(list)
}

// A node by its address, up to three successors, two places that it uses and two that it defines for certain. It is a branch
// where it has two successors, and an end where it has none.
fn node(alloc: Global, row: &[u32; 8]) -> Result<FlowNode, AllocError> {
    let next = numbers(alloc, &row[1..4])?;
    let branch = next.len() > 1;
    let end = next.is_empty();
    Ok(FlowNode {
        at: row[0],
        next,
        may_use: numbers(alloc, &row[4..6])?,
        may_def: numbers(alloc, &row[6..8])?,
        must_def: numbers(alloc, &row[6..8])?,
        branch,
        end,
    })
}

fn graph(alloc: Global, rows: &[[u32; 8]]) -> Result<RoundGraph, AllocError>
    ensures { IfOk result (λ graph. HasNodes graph.flow.nodes graph.edges.ordinary graph.edges.sp) }
{
    let mut nodes = Items::new(alloc);
    for row in rows {
        nodes.push(node(alloc, row)?)?;
    }
    RoundGraph::new(alloc, FlowGraph { nodes })
}

// Whether these are a graph's edges, by other places and by ESP.
fn has_edges(g: &RoundGraph, ordinary: &[(u32, u32)], sp: &[(u32, u32)]) -> bool {
    g.edges.ordinary.as_slice() == ordinary && g.edges.sp.as_slice() == sp
}

// Whether these branches control a node.
fn is_controlled(
    alloc: Global,
    g: &RoundGraph,
    node: u32,
    branches: &[u32],
) -> Result<bool, AllocError> {
    let mut s = WalkScratch::new(alloc, &g.flow)?;
    if node as usize >= g.flow.nodes.len() {
        return Ok(false);
    }
    controls(&g.flow, node, &mut s);
    Ok(s.branches() == branches)
}

// Whether these are the addresses of a slice.
fn is_slice(
    alloc: Global,
    g: &RoundGraph,
    at: u32,
    skip_sp: bool,
    addresses: &[u32],
) -> Result<bool, AllocError>
    requires { HasNodes g.now.flow.nodes g.now.edges.ordinary g.now.edges.sp }
{
    let mut s = Scratch::new(alloc, g)?;
    let found = backward(g, at, skip_sp, &mut s);
    Ok(found.is_ok() != addresses.is_empty() && s.addresses() == addresses)
}

#[test]
fn slices_branches(rt: HostRuntime) -> Result<(), Fail> {
    let alloc = rt.alloc();
    // a diamond
    let g = graph(
        alloc,
        &[
            [10, 1, 2, N, 8, N, N, N],
            [11, 3, N, N, N, N, 1, N],
            [12, 3, N, N, N, N, 2, N],
            [13, N, N, N, 1, N, N, N],
        ],
    )?;
    assert!(rt; has_edges(&g, &[(1, 3)], &[]));
    assert!(rt; is_controlled(alloc, &g, 1, &[0])? && is_controlled(alloc, &g, 3, &[])?);
    assert!(rt; is_slice(alloc, &g, 13, false, &[10, 11, 13])?);
    assert!(rt; is_slice(alloc, &g, 9, false, &[])?);
    // a branch with three successors
    let g = graph(
        alloc,
        &[
            [10, 1, 2, 3, N, N, N, N],
            [11, 4, N, N, N, N, 0, N],
            [12, 4, N, N, N, N, 0, N],
            [13, 4, N, N, N, N, N, N],
            [14, N, N, N, 0, N, N, N],
        ],
    )?;
    assert!(rt; has_edges(&g, &[(1, 4), (2, 4)], &[]));
    assert!(rt; is_controlled(alloc, &g, 3, &[0])?);
    assert!(rt; is_slice(alloc, &g, 14, false, &[10, 11, 12, 14])?);
    // two nodes at one address
    let g = graph(
        alloc,
        &[
            [10, 1, 2, N, N, N, N, N],
            [11, 3, N, N, N, N, 0, N],
            [11, 3, N, N, N, N, N, N],
            [13, N, N, N, 0, N, N, N],
        ],
    )?;
    assert!(rt; has_edges(&g, &[(1, 3)], &[]));
    assert!(rt; is_controlled(alloc, &g, 1, &[])?);
    assert!(rt; is_slice(alloc, &g, 13, false, &[11, 13])?);
    Ok(())
}

#[test]
fn slices_loops(rt: HostRuntime) -> Result<(), Fail> {
    let alloc = rt.alloc();
    // a loop, with a node that both uses and defines a place
    let g = graph(
        alloc,
        &[
            [10, 1, N, N, N, N, 0, N],
            [11, 2, N, N, 0, N, 0, N],
            [12, 1, 3, N, 0, N, N, N],
            [13, N, N, N, N, N, N, N],
        ],
    )?;
    assert!(rt; has_edges(&g, &[(0, 1), (1, 1), (1, 2)], &[]));
    assert!(rt; is_controlled(alloc, &g, 1, &[2])? && is_controlled(alloc, &g, 3, &[])?);
    assert!(rt; is_slice(alloc, &g, 11, false, &[10, 11, 12])?);
    // two loops, 2 within 1 to 3
    let g = graph(
        alloc,
        &[
            [10, 1, N, N, N, N, 0, N],
            [11, 2, N, N, 0, N, 1, N],
            [12, 2, 3, N, 1, N, 2, N],
            [13, 1, 4, N, 2, N, N, N],
            [14, N, N, N, N, N, N, N],
        ],
    )?;
    assert!(rt; has_edges(&g, &[(0, 1), (1, 2), (2, 3)], &[]));
    assert!(rt; is_controlled(alloc, &g, 2, &[2, 3])? && is_controlled(alloc, &g, 3, &[3])?);
    assert!(rt; is_slice(alloc, &g, 13, false, &[10, 11, 12, 13])?);
    Ok(())
}

#[test]
fn slices_esp(rt: HostRuntime) -> Result<(), Fail> {
    let alloc = rt.alloc();
    // a chain by ESP, with another edge past it
    let g = graph(
        alloc,
        &[
            [10, 1, N, N, N, N, 4, 0],
            [11, 2, N, N, 4, N, 4, N],
            [12, N, N, N, 4, 0, N, N],
        ],
    )?;
    assert!(rt; has_edges(&g, &[(0, 2)], &[(0, 1), (1, 2)]));
    assert!(rt; is_slice(alloc, &g, 12, false, &[10, 11, 12])?);
    assert!(rt; is_slice(alloc, &g, 12, true, &[10, 12])?);
    // an end that can't be reached, so that nothing is controlled
    let g = graph(
        alloc,
        &[
            [10, 1, 2, N, 0, N, N, N],
            [11, 0, N, N, N, N, 0, N],
            [12, 0, N, N, N, N, N, N],
            [13, N, N, N, N, N, N, N],
        ],
    )?;
    assert!(rt; has_edges(&g, &[(1, 0)], &[]));
    assert!(rt; is_controlled(alloc, &g, 1, &[])?);
    assert!(rt; is_slice(alloc, &g, 10, false, &[10, 11])?);
    Ok(())
}
