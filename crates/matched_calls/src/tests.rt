//! Small graphs as text, with calls and returns, and their slices along matched walks.
ghost use Rattle.std.specs.Prelude.{IfOk};
ghost use Rattle.slicer.specs.Slicer.{HasNodes};
ghost use Rattle.matched_calls.specs.Matched.{HasKinds};

use super::{StepKinds, are_kinds_of, matched_backward, matched_graph};
use flow_graph::{FlowGraph, FlowNode};
use item_list::Items;
use slicer::{RoundGraph, Scratch, backward};
use std::alloc::{AllocError, Global};
use std::test::Fail;

// A node by its words: its address, `>` and a successor, `u` and a place that it uses, `d` and one that it defines for certain, `b` for a
// branch. It is an end where it has no successor.
fn node(alloc: Global, text: &str) -> Result<FlowNode, AllocError> {
    let mut at = 0;
    let mut next = Items::new(alloc);
    let mut may_use = Items::new(alloc);
    let mut may_def = Items::new(alloc);
    let mut must_def = Items::new(alloc);
    let mut branch = false;
    for word in text.split_whitespace() {
        if let Some(number) = word.strip_prefix('>') {
            next.push(number.parse().unwrap_or(0))?;
        } else if let Some(number) = word.strip_prefix('u') {
            may_use.push(number.parse().unwrap_or(0))?;
        } else if let Some(number) = word.strip_prefix('d') {
            may_def.push(number.parse().unwrap_or(0))?;
            must_def.push(number.parse().unwrap_or(0))?;
        } else if word == "b" {
            branch = true;
        } else {
            at = word.parse().unwrap_or(0);
        }
    }
    let end = next.is_empty();
    Ok(FlowNode {
        at,
        next,
        may_use,
        may_def,
        must_def,
        branch,
        end,
    })
}

// A graph by its nodes.
fn graph(alloc: Global, text: &str) -> Result<RoundGraph, AllocError>
    ensures { IfOk result (λ graph. HasNodes graph.flow.nodes graph.edges.ordinary graph.edges.sp) }
{
    let mut nodes = Items::new(alloc);
    for part in text.split(';') {
        nodes.push(node(alloc, part)?)?;
    }
    RoundGraph::new(alloc, FlowGraph { nodes })
}

fn numbers(alloc: Global, text: &str) -> Result<Vec<u32>, AllocError> {
    let mut numbers = Vec::new(alloc);
    for word in text.split_whitespace() {
        numbers.push(word.parse().unwrap_or(0))?;
    }
    Ok(numbers)
}

// Pairs by their words, as `1-2`.
fn pairs(alloc: Global, text: &str) -> Result<Items<(u32, u32)>, AllocError> {
    let mut pairs = Items::new(alloc);
    for word in text.split_whitespace() {
        if let Some((from, to)) = word.split_once('-') {
            pairs.push((from.parse().unwrap_or(0), to.parse().unwrap_or(0)))?;
        }
    }
    Ok(pairs)
}

// The slice of an address, and the one along matched walks.
fn slices(
    alloc: Global,
    g: &RoundGraph,
    k: &StepKinds,
    at: u32,
) -> Result<(Vec<u32>, Option<Vec<u32>>), AllocError>
    requires nodes { HasNodes g.now.flow.nodes g.now.edges.ordinary g.now.edges.sp }
    requires kinds { HasKinds g.now.flow.nodes k.now }
{
    let mut s = Scratch::new(alloc, g)?;
    let _ = backward(g, at, true, &mut s);
    let whole = Vec::from_slice(alloc, s.addresses())?;
    let m = matched_graph(alloc, g, k)?;
    Ok((whole, matched_backward(alloc, g, &m, at, true).ok()))
}

// Whether a case holds: a graph, its calls, its returns, the places after its calls, an address, its slice, and its slice along matched
// walks, both without ESP.
fn holds(alloc: Global, case: &str) -> Result<bool, AllocError> {
    let mut parts = case.split('|');
    let g = graph(alloc, parts.next().unwrap_or(""))?;
    let kinds = StepKinds {
        calls: pairs(alloc, parts.next().unwrap_or(""))?,
        returns: pairs(alloc, parts.next().unwrap_or(""))?,
        after: pairs(alloc, parts.next().unwrap_or(""))?,
    };
    let at = parts.next().unwrap_or("").parse().unwrap_or(0);
    let whole = numbers(alloc, parts.next().unwrap_or(""))?;
    let matched = numbers(alloc, parts.next().unwrap_or(""))?;
    if !are_kinds_of(g.flow.nodes.as_slice(), &kinds) {
        return Ok(false);
    }
    let (slice, found) = slices(alloc, &g, &kinds, at)?;
    Ok(slice == whole && found == Some(matched))
}

/// Two calls of one procedure, each behind a definition of what 20 uses.
const CALLERS: &str =
    "0 >1 d3; 5 >6; 10 >3 d3; 15 >6; 20 >5 u3 d1; 22; 23 >7; 24 >2 >4|1-6 3-6|7-2 7-4|1-2 3-4|20|0 10 20|10 20";

/// A procedure that may call itself: the call at 1 comes back to 2, and the one at 5 to 6.
const RECURSION: &str =
    "0 >1 d0; 1 >4 d9; 2 >3; 3; 4 >5 >7 b; 5 >4 d9; 6 >7 u9; 7 >2 >6 u0|1-4 5-4|7-2 7-6|1-2 5-6|6|1 4 5 6|4 5 6";

/// A procedure returns to 1 and to 4, without a call; the call at 2 comes back to neither.
const RETURNS: &str = "0 >1 >4 d0; 1 u0; 2 >0 d1; 3; 4 u0 u1|2-0|0-1 0-4|2-3|4|0 2 4|0 4";

/// No calls, and an edge by ESP.
const PLAIN: &str = "0 >1 d0; 1 >2 >3 b u0; 2 >3 d4; 3 u4 u0||||3|0 3|0 3";

#[test]
fn matched_slices(rt: HostRuntime) -> Result<(), Fail> {
    let alloc = rt.alloc();
    for case in [CALLERS, RECURSION, RETURNS, PLAIN] {
        assert!(rt; holds(alloc, case)?, "{case}");
    }
    Ok(())
}
