// Walks over small graphs, written out.
use super::{FlowGraph, FlowNode, begin, grow, met, sweep_order};
use item_list::Items;
use std::alloc::{AllocError, Global};
use std::test::Fail;

// A node with these successors that uses and defines nothing.
fn node(alloc: Global, at: u32, next: &[u32], end: bool) -> Result<FlowNode, AllocError> {
    Ok(FlowNode {
        at,
        next: Items::from_slice(alloc, next)?,
        may_use: Items::new(alloc),
        may_def: Items::new(alloc),
        must_def: Items::new(alloc),
        branch: next.len() > 1,
        end,
    })
}

// 0 goes to 1 and 2, both to 3, which goes back to 1 or on to the end 4; 5 and 4 stand at one address, and 5 goes to 4.
fn looped(alloc: Global) -> Result<FlowGraph, AllocError> {
    let mut nodes = Items::new(alloc);
    nodes.push(node(alloc, 10, &[1, 2], false)?)?;
    nodes.push(node(alloc, 11, &[3], false)?)?;
    nodes.push(node(alloc, 12, &[3], false)?)?;
    nodes.push(node(alloc, 13, &[1, 4], false)?)?;
    nodes.push(node(alloc, 14, &[], true)?)?;
    nodes.push(node(alloc, 14, &[4], false)?)?;
    Ok(FlowGraph { nodes })
}

#[test]
fn reaches(rt: HostRuntime) -> Result<(), Fail> {
    let graph = looped(rt.alloc())?;
    let marks = graph.reach(rt.alloc(), 1)?;
    assert_eq!(rt;
        marks.as_slice(),
        [false, true, false, true, true, false].as_slice()
    );
    let marks = graph.reach(rt.alloc(), 9)?;
    assert_eq!(rt;
        marks.as_slice(),
        [false, false, false, false, false, false].as_slice()
    );
    Ok(())
}

#[test]
fn walks_round(rt: HostRuntime) -> Result<(), Fail> {
    let graph = looped(rt.alloc())?;
    assert!(rt; graph.walk_to_end_avoiding(rt.alloc(), 0, 11)?);
    assert!(rt; !graph.walk_to_end_avoiding(rt.alloc(), 0, 13)?);
    assert!(rt; !graph.walk_to_end_avoiding(rt.alloc(), 5, 14)?);
    assert!(rt; graph.walk_to_end_avoiding(rt.alloc(), 4, 10)?);
    Ok(())
}

#[test]
fn grows(rt: HostRuntime) -> Result<(), Fail> {
    let graph = looped(rt.alloc())?;
    let nodes = graph.nodes.as_slice();
    let order = sweep_order(rt.alloc(), nodes)?;
    assert_eq!(rt; order.as_slice(), [4, 1, 3, 2, 0, 5].as_slice());
    let mut rows = [0; 6];
    assert!(rt; nodes.len() <= rows.len());
    begin(&mut rows, &[4, 2]);
    grow(nodes, order.as_slice(), &[1, 1, 3, 3, 0, 0], &mut rows);
    assert_eq!(rt; rows.as_slice(), [1, 1, 3, 1, 1, 0].as_slice());
    assert_eq!(rt; met(&rows, &[2, 9]), 3);
    Ok(())
}
