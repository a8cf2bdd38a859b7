//! The flow graph of a map from nodes to abstract states.
ghost use Rattle.std.specs.Prelude.{◌≡◌, Bool, IfOk, map, not};
ghost use Rattle.transfer_flow.specs.Contents.{IsContent, meant};
ghost use Rattle.transfer_flow.specs.Successors.{placed_of, states_of, view_at};
ghost use Rattle.access_facts.specs.Flow.{flow as flow_spec, flow_node as flow_node_spec, is_empty as is_empty_spec};
ghost use Rattle.access_facts.specs.Maps.{IsOfImage};
ghost use Rattle.access_facts.specs.NodeSets.{AreSets};
ghost use Rattle.access_facts.specs.Places.{graph_cells};
ghost use Rattle.access_facts.specs.Rows.{AreRows, cells_in_rows};

use crate::accesses::node_accesses;
use crate::core_sets::cores_of;
use crate::ends::{is_branch, is_end};
use crate::graph_cells::graph_rows;
use crate::next::next_numbers;
use crate::node::{NodeSets, node_sets};
use crate::numbers::names_in;
use crate::rows::Row;
use abs_state::AbsState;
use call_strings::Node;
use flow_graph::{FlowGraph, FlowNode};
use item_list::Items;
use std::alloc::{AllocError, Global};
use transfer::View;
use transfer_flow::{Content, Program, Site, content_at};

fn has_some(next: &Items<u32>) -> bool
    ensures { result ≡ not (is_empty_spec next.now) }
{
    match next.as_slice() {
        [] => false,
        [_, ..] => true,
    }
}

// The sets of a node, by what stands there and whether it has a successor.
fn sets_at(
    alloc: Global,
    site: &Site<'_>,
    rows: &[Row],
    content: &Content,
    goes_on: bool,
) -> Result<NodeSets, AllocError>
    requires rows { AreRows 14 rows.now }
    requires content { IsContent (meant content.now) }
    ensures { IfOk result (AreSets site.now.program.now.image.now (cells_in_rows rows.now) (view_at site.now) (meant content.now) goes_on) }
{
    let image = site.program.image;
    let view = View {
        state: site.state,
        cells: site.program.cells,
        procedure: site.node.context.proc,
    };
    let cores = cores_of(site.state, content);
    let accesses = node_accesses(alloc, &view, image, content, goes_on)?;
    let sets = node_sets(alloc, rows, image, &cores, &accesses)?;
    Ok(sets)
}

fn flow_node(
    alloc: Global,
    program: &Program<'_>,
    placed: &[(&Node, &AbsState)],
    rows: &[Row],
    other: (&Node, &AbsState),
) -> Result<FlowNode, AllocError>
    requires program { IsOfImage program.now }
    requires rows { AreRows 14 rows.now }
    requires cells { cells_in_rows rows.now ≡ graph_cells (states_of program.now placed.now) }
    ensures { IfOk result (λ n. n ≡ flow_node_spec program.now.image.now program.now.settings.now (states_of program.now placed.now) (placed_of other.entry)) }
{
    let (node, state) = other;
    let site = Site {
        program,
        node,
        state,
    };
    let content = content_at(program.image, program.settings, node.at);
    let next = next_numbers(alloc, &site, placed)?;
    let sets = sets_at(alloc, &site, rows, &content, has_some(&next))?;
    Ok(FlowNode {
        at: node.at,
        next,
        may_use: sets.may_use,
        may_def: sets.may_def,
        must_def: sets.must_def,
        branch: is_branch(&content),
        end: is_end(&content, program.settings, node),
    })
}

fn flow_nodes(
    alloc: Global,
    program: &Program<'_>,
    placed: &[(&Node, &AbsState)],
    rows: &[Row],
) -> Result<Vec<FlowNode>, AllocError>
    requires program { IsOfImage program.now }
    requires rows { AreRows 14 rows.now }
    requires cells { cells_in_rows rows.now ≡ graph_cells (states_of program.now placed.now) }
    ensures { IfOk result (λ v. v.items ≡ flow_spec program.now.image.now program.now.settings.now (states_of program.now placed.now)) }
{
    let mut nodes = Vec::new(alloc);
    for other in placed {
        let node = flow_node(alloc, program, placed, rows, *other)?;
        nodes.push(node)?;
    }
    Ok(nodes)
}

/// The flow graph of a map of a program, whose nodes are in the order of the map. The lists of a node rise, each number once.
pub fn flow(
    alloc: Global,
    program: &Program<'_>,
    placed: &[(&Node, &AbsState)],
) -> Result<FlowGraph, AllocError>
    requires { IsOfImage program.now }
    ensures { IfOk result (λ g. g.nodes ≡ flow_spec program.now.image.now program.now.settings.now (states_of program.now placed.now)) }
{
    let names = names_in(alloc, placed)?;
    let rows = graph_rows(alloc, program.cells, &names)?;
    let nodes = flow_nodes(alloc, program, placed, rows.as_slice())?;
    Ok(FlowGraph {
        nodes: Items::from_vec(nodes),
    })
}
