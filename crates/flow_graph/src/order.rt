// An order of nodes for sweeps.
use super::graph::FlowNode;
use std::alloc::{AllocError, Global};

// What a search in depth does next with a node.
#[derive(Clone, Copy)]
enum Visit {
    Enter(u32),
    Leave(u32),
}

// Whether a node is met for the first time; it is seen from now on.
fn is_first(seen: &mut [bool], node: u32) -> bool {
    let place = node as usize;
    if place < seen.len() && !seen[place] {
        seen[place] = true;
        return true;
    }
    false
}

// Lists the nodes that a search in depth meets from this one, each as it is left.
fn list_leaving(
    alloc: Global,
    nodes: &[FlowNode],
    root: u32,
    seen: &mut [bool],
    order: &mut Vec<u32>,
) -> Result<(), AllocError> {
    let mut stack = Vec::new(alloc);
    stack.push(Visit::Enter(root))?;
    for _ in 0..u64::MAX {
        match stack.pop() {
            None => return Ok(()),
            Some(Visit::Leave(node)) => order.push(node)?,
            Some(Visit::Enter(node)) => {
                if is_first(seen, node) {
                    stack.push(Visit::Leave(node))?;
                    push_successors(nodes, node, &mut stack)?;
                }
            }
        }
    }
    Ok(())
}

fn push_successors(
    nodes: &[FlowNode],
    node: u32,
    stack: &mut Vec<Visit>,
) -> Result<(), AllocError> {
    if let Some(here) = nodes.get(node as usize) {
        for next in here.next.as_slice() {
            stack.push(Visit::Enter(*next))?;
        }
    }
    Ok(())
}

/// The nodes in an order for `grow`: where control goes from one to another and not back, the other comes first.
/// It is a hint, and no result hangs on it.
pub fn sweep_order(alloc: Global, nodes: &[FlowNode]) -> Result<Vec<u32>, AllocError> {
    let mut seen = vec![in alloc; false; nodes.len()]?;
    let mut order = Vec::new(alloc);
    let count = u32::try_from(nodes.len()).unwrap_or(u32::MAX);
    for root in 0..count {
        list_leaving(alloc, nodes, root, &mut seen, &mut order)?;
    }
    Ok(order)
}
