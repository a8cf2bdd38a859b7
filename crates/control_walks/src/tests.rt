// A loop with a way out, flooded from its nodes.
use super::{WalkScratch, controls, flood, laws};
use flow_graph::{FlowGraph, FlowNode};
use item_list::Items;
use std::alloc::{AllocError, Global};
use std::test::Fail;

fn node(alloc: Global, at: u32, next: &[u32], end: bool) -> Result<FlowNode, AllocError> {
    Ok(FlowNode {
        at,
        next: Items::from_slice(alloc, next)?,
        may_use: Items::new(alloc),
        may_def: Items::new(alloc),
        must_def: Items::new(alloc),
        branch: next.len() > 1,
        end,
    })
}

// 0 goes into the loop 1, 2 or past it to 3; 2 goes back to 1 or on to 3; 4 is another node at the address of 3, and both end.
fn looped(alloc: Global) -> Result<FlowGraph, AllocError> {
    let mut nodes = Items::new(alloc);
    nodes.push(node(alloc, 10, &[1, 3], false)?)?;
    nodes.push(node(alloc, 11, &[2], false)?)?;
    nodes.push(node(alloc, 12, &[1, 3], false)?)?;
    nodes.push(node(alloc, 13, &[], true)?)?;
    nodes.push(node(alloc, 13, &[3, 4], true)?)?;
    Ok(FlowGraph { nodes })
}

#[test]
fn lists_branches(rt: HostRuntime) -> Result<(), Fail> {
    let graph = looped(rt.alloc())?;
    let mut s = WalkScratch::new(rt.alloc(), &graph)?;
    assert!(rt; graph.nodes.len() == 5 && s.size() == 5);
    controls(&graph, 2, &mut s);
    assert_eq!(rt; s.branches(), [0, 2].as_slice());
    let plain = laws::controls(rt.alloc(), &graph, 2)?;
    assert_eq!(rt; plain.as_slice(), [0, 2].as_slice());
    flood(&graph, 1, &mut s);
    assert!(rt; s.reaches(0) && s.reaches(1) && s.reaches(2) && !s.reaches(3));
    assert!(rt; s.escapes(0) && !s.escapes(1) && s.escapes(2) && s.escapes(3));
    Ok(())
}
