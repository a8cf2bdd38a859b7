//! Small graphs as text, their forward slices, chops and shortest paths.
ghost use Rattle.std.specs.Prelude.{IfOk};
ghost use Rattle.slicer.specs.Slicer.{HasNodes};

use super::{ChopAbsent, ChopScratch, Hop, HopKind, WhyError, chop, forward, why};
use flow_graph::{FlowGraph, FlowNode};
use item_list::Items;
use slicer::RoundGraph;
use std::alloc::{AllocError, Global};
use std::test::Fail;

// A node by its words: its address, `>` and a successor, `u` and a place that it uses, `d` and one that it defines for certain. It is a
// branch where it has two successors, and an end where it has none.
fn node(alloc: Global, text: &str) -> Result<FlowNode, AllocError> {
    let mut at = 0;
    let mut next = Items::new(alloc);
    let mut may_use = Items::new(alloc);
    let mut may_def = Items::new(alloc);
    let mut must_def = Items::new(alloc);
    for word in text.split_whitespace() {
        if let Some(number) = word.strip_prefix('>') {
            next.push(number.parse().unwrap_or(0))?;
        } else if let Some(number) = word.strip_prefix('u') {
            may_use.push(number.parse().unwrap_or(0))?;
        } else if let Some(number) = word.strip_prefix('d') {
            may_def.push(number.parse().unwrap_or(0))?;
            must_def.push(number.parse().unwrap_or(0))?;
        } else {
            at = word.parse().unwrap_or(0);
        }
    }
    let branch = next.len() > 1;
    let end = next.is_empty();
    Ok(FlowNode {
        at,
        next,
        may_use,
        may_def,
        must_def,
        branch,
        end,
    })
}

// A graph by its nodes.
fn graph(alloc: Global, text: &str) -> Result<RoundGraph, AllocError>
    ensures { IfOk result (λ graph. HasNodes graph.flow.nodes graph.edges.ordinary graph.edges.sp) }
{
    let mut nodes = Items::new(alloc);
    for part in text.split(';') {
        nodes.push(node(alloc, part)?)?;
    }
    RoundGraph::new(alloc, FlowGraph { nodes })
}

fn numbers(alloc: Global, text: &str) -> Result<Vec<u32>, AllocError> {
    let mut numbers = Vec::new(alloc);
    for word in text.split_whitespace() {
        numbers.push(word.parse().unwrap_or(0))?;
    }
    Ok(numbers)
}

// Whether an address is absent, and its forward slice.
fn sliced(
    alloc: Global,
    g: &RoundGraph,
    at: u32,
    skip_sp: bool,
) -> Result<(bool, Vec<u32>), AllocError>
    requires { HasNodes g.now.flow.nodes g.now.edges.ordinary g.now.edges.sp }
{
    let mut s = ChopScratch::new(alloc, g)?;
    let absent = forward(g, at, skip_sp, &mut s).is_err();
    let listed = Vec::from_slice(alloc, s.addresses())?;
    Ok((absent, listed))
}

// Which address is absent, if one is, and the chop.
fn chopped(
    alloc: Global,
    g: &RoundGraph,
    from: u32,
    to: u32,
    skip_sp: bool,
) -> Result<(Option<ChopAbsent>, Vec<u32>), AllocError>
    requires { HasNodes g.now.flow.nodes g.now.edges.ordinary g.now.edges.sp }
{
    let mut s = ChopScratch::new(alloc, g)?;
    let absent = chop(g, from, to, skip_sp, &mut s).err();
    let listed = Vec::from_slice(alloc, s.addresses())?;
    Ok((absent, listed))
}

// A path by its words: the address where it begins, then `p` or `b` with each address to which it comes by place or by branch.
fn path(alloc: Global, text: &str) -> Result<Vec<Hop>, AllocError> {
    let mut hops = Vec::new(alloc);
    for word in text.split_whitespace() {
        let hop = if let Some(number) = word.strip_prefix('p') {
            hop(number, HopKind::ByPlace)
        } else if let Some(number) = word.strip_prefix('b') {
            hop(number, HopKind::ByBranch)
        } else {
            hop(word, HopKind::First)
        };
        hops.push(hop)?;
    }
    Ok(hops)
}

fn hop(number: &str, kind: HopKind) -> Hop {
    Hop {
        at: number.parse().unwrap_or(0),
        kind,
    }
}

/// 10 defines what 12 uses; 11 decides whether 12 or 13 is done; 14 uses the result of 13 and hands on by ESP to 15.
const WAYS: &str = "10 >1 d0; 11 >2 >3 u1; 12 >4 u0 d2; 13 >4 d3; 14 >5 u3 d4; 15 u4";

/// 22 decides on a loop; the end stands at 21 too, so that 22 doesn't decide whether 21 is done.
const LOOP: &str = "20 >1 d0; 21 >2 u0 d0; 22 >1 >3 u0; 23 >4 u0 d1; 21 u1";

/// A test at 0 decides at 2 whether 4 or 11 is done, each of which defines what 16 uses.
const BRANCH: &str =
    "0 >1 u0 d10; 2 >2 >4 u10; 4 >3 d1; 9 >5; 11 >5 d1; 16 >6 u1 d2; 18 >7 u3 d6; 20 u4";

/// 30 decides on 31, and defines by ESP what 31 uses.
const BOTH: &str = "30 >1 >2 d4; 31 >2 u4; 32";

#[test]
fn forward_slices(rt: HostRuntime) -> Result<(), Fail> {
    let alloc = rt.alloc();
    for (ways, at, skip_sp, listed) in [
        (WAYS, 10, false, "10 12"),
        (WAYS, 11, false, "11 12 13 14 15"),
        (WAYS, 11, true, "11 12 13 14"),
        (WAYS, 15, false, "15"),
        (WAYS, 16, false, ""),
        (LOOP, 20, false, "20 21 22 23"),
        (LOOP, 22, false, "22"),
    ] {
        let (absent, found) = sliced(alloc, &graph(alloc, ways)?, at, skip_sp)?;
        assert_eq!(rt; absent, listed.is_empty(), "{at}");
        assert_eq!(rt; found, numbers(alloc, listed)?, "{at}");
    }
    Ok(())
}

#[test]
fn chops(rt: HostRuntime) -> Result<(), Fail> {
    let alloc = rt.alloc();
    for (from, to, skip_sp, absent, listed) in [
        (11, 14, false, None, "11 13 14"),
        (11, 15, false, None, "11 13 14 15"),
        (11, 15, true, None, ""),
        (13, 13, false, None, "13"),
        (14, 11, false, None, ""),
        (16, 17, false, Some(ChopAbsent::From), ""),
        (11, 17, false, Some(ChopAbsent::To), ""),
    ] {
        let (missing, found) = chopped(alloc, &graph(alloc, WAYS)?, from, to, skip_sp)?;
        assert_eq!(rt; missing, absent, "{from} {to}");
        assert_eq!(rt; found, numbers(alloc, listed)?, "{from} {to}");
    }
    Ok(())
}

#[test]
fn paths(rt: HostRuntime) -> Result<(), Fail> {
    let alloc = rt.alloc();
    for (ways, from, to, skip_sp, expected) in [
        (BRANCH, 0, 16, false, "0 p2 b4 p16"),
        (BRANCH, 16, 16, false, "16"),
        (BRANCH, 0, 18, false, ""),
        (BOTH, 30, 31, false, "30 p31"),
        (BOTH, 30, 31, true, "30 b31"),
        (WAYS, 11, 15, false, "11 b13 p14 p15"),
        (WAYS, 11, 15, true, ""),
        (LOOP, 20, 23, false, "20 p21 p23"),
    ] {
        let found = why(alloc, &graph(alloc, ways)?, from, to, skip_sp);
        assert_eq!(rt; found, Ok(path(alloc, expected)?), "{from} {to}");
    }
    let ways = graph(alloc, WAYS)?;
    for (from, to, error) in [(16, 17, WhyError::From), (11, 17, WhyError::To)] {
        assert_eq!(rt;
            why(alloc, &ways, from, to, false),
            Err(error),
            "{from} {to}"
        );
    }
    Ok(())
}
