// Edges of a small loop, written out.
use super::{data_edges, laws, reaching};
use flow_graph::{FlowGraph, FlowNode};
use item_list::Items;
use std::alloc::{AllocError, Global};
use std::test::Fail;

fn node(
    alloc: Global,
    next: &[u32],
    uses: &[u32],
    defines: &[u32],
    must: &[u32],
) -> Result<FlowNode, AllocError> {
    Ok(FlowNode {
        at: 0,
        next: Items::from_slice(alloc, next)?,
        may_use: Items::from_slice(alloc, uses)?,
        may_def: Items::from_slice(alloc, defines)?,
        must_def: Items::from_slice(alloc, must)?,
        branch: false,
        end: false,
    })
}

// 0 goes to 1, 1 to 2, and 2 to 1 or 3. Place 0 is set by 0 and for certain by 1, which uses it too, and used by 2 and 3;
// ESP is set by 0, perhaps by 2, and used by 3.
fn looped(alloc: Global) -> Result<FlowGraph, AllocError> {
    let mut nodes = Items::new(alloc);
    nodes.push(node(alloc, &[1], &[], &[0, 4], &[0, 4])?)?;
    nodes.push(node(alloc, &[2], &[0], &[0], &[0])?)?;
    nodes.push(node(alloc, &[1, 3], &[0], &[4], &[])?)?;
    nodes.push(node(alloc, &[], &[0, 4], &[], &[])?)?;
    Ok(FlowGraph { nodes })
}

#[test]
fn lists_edges(rt: HostRuntime) -> Result<(), Fail> {
    let graph = looped(rt.alloc())?;
    let edges = data_edges(rt.alloc(), &graph)?;
    assert_eq!(rt;
        edges.ordinary.as_slice(),
        [(0, 1), (1, 1), (1, 2), (1, 3)].as_slice()
    );
    assert_eq!(rt; edges.sp.as_slice(), [(0, 3), (2, 3)].as_slice());
    let plain = laws::data_edges(rt.alloc(), &graph)?;
    assert!(rt; plain.ordinary.as_slice() == edges.ordinary.as_slice());
    assert!(rt; plain.sp.as_slice() == edges.sp.as_slice());
    let rows = reaching(rt.alloc(), &graph, 0)?;
    assert!(rt; rows.has(1, 0) && rows.has(3, 1) && !rows.has(2, 0) && !rows.has(0, 0));
    assert!(rt; !rows.has(1, 2) && !rows.has(9, 0) && !rows.has(1, 9));
    Ok(())
}
