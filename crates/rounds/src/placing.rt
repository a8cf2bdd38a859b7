//! The nodes of a map beside their states.
ghost use Rattle.std.specs.Prelude.{◌≡◌, length, map, IfOk};
ghost use Rattle.transfer_flow.specs.Successors.{placed_of};
ghost use Rattle.vsa.specs.Views.{placed_with};

use abs_state::AbsState;
use call_strings::Node;
use std::alloc::{AllocError, Global};

/// Nodes, each beside its state.
pub(crate) fn placed<'a>(
    alloc: Global,
    nodes: &'a [Node],
    values: &'a [AbsState],
) -> Result<Vec<(&'a Node, &'a AbsState)>, AllocError>
    requires { length nodes.now ≡ length values.now }
    ensures { IfOk result (λ v. map placed_of v.items ≡ placed_with nodes.now values.now) }
{
    let mut out = Vec::new(alloc);
    for i in 0..nodes.len() {
        out.push((&nodes[i], &values[i]))?;
    }
    Ok(out)
}
