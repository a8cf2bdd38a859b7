//! The check of a map.

ghost use Rattle.std.specs.Prelude.{◌≡◌, [], length, map, IfOk, OnOk};
ghost use Rattle.std.specs.List.{flat_map, fold};
ghost use Rattle.image_map.specs.CallModel.{AreSettings};
ghost use Rattle.image_map.specs.Whole.{IsImage};
ghost use Rattle.alocs.specs.Extents.{AreOfImage};
ghost use Rattle.abs_state.specs.Views.{seen};
ghost use Rattle.abs_steps.specs.Successors.{at_node};
ghost use Rattle.call_strings.specs.declared.context.Node.{Node};
ghost use Rattle.sweeps.specs.Kept.{zip_with};
ghost use Rattle.vsa.specs.Tables.{Table, state_of};
ghost use Rattle.vsa.specs.Closed.{is_closed as is_closed_spec};
ghost use Rattle.vsa.specs.Views.{told, placed_with, lent_tables, states_with, NodesRise};
ghost use Rattle.vsa.specs.Warned.{with_warning, warnings_at, of_map, map_warnings};

use crate::domain::Analysis;
use crate::states::States;
use crate::sweep::{entry_node, first_table};
use crate::table::Tabled;
use crate::warning::{Warning, note, note_names};
use abs_state::AbsState;
use abs_steps::WarnName;
use call_strings::Node;
use image_map::{Image, Settings};
use std::alloc::{AllocError, Global};
use sweeps::is_closed;
use transfer::View;
use transfer_flow::{Program, content_at, warns};

/// Puts what can't be followed at a node among other warnings.
fn note_node(
    alloc: Global,
    out: &mut Vec<Warning>,
    program: &Program<'_>,
    node: &Node,
    state: &AbsState,
) -> Result<(), AllocError>
    requires { AreSettings (length program.now.image.now.externs) program.now.settings.now }
    ensures { OnOk result (out.new.items ≡ fold with_warning out.old.items (warnings_at program.now.image.now program.now.settings.now (states_with program.now []) (at_node node.now (seen state.now)))) }
{
    let content = content_at(program.image, program.settings, node.at);
    let view = View {
        state,
        cells: program.cells,
        procedure: node.context.proc,
    };
    let names = warns(alloc, &view, &content, program.image)?;
    note_names(out, node.at, names.as_slice())?;
    Ok(())
}

/// What can't be followed at some nodes.
fn node_warnings(
    alloc: Global,
    program: &Program<'_>,
    nodes: &[Node],
    values: &[AbsState],
) -> Result<Vec<Warning>, AllocError>
    requires settings { AreSettings (length program.now.image.now.externs) program.now.settings.now }
    requires as_many { length nodes.now ≡ length values.now }
    ensures { IfOk result (λ v. v.items ≡ fold with_warning [] (flat_map (warnings_at program.now.image.now program.now.settings.now (states_with program.now [])) (placed_with nodes.now values.now))) }
{
    let mut out = Vec::new(alloc);
    for i in 0..nodes.len() {
        note_node(alloc, &mut out, program, &nodes[i], &values[i])?;
    }
    Ok(out)
}

fn table(state: &AbsState) -> Result<Tabled, AllocError>
    ensures { IfOk result (λ t. state_of t ≡ seen state.now) }
{
    let copy = state.clone()?;
    Ok(Tabled::new(copy))
}

/// The tables of some states.
fn tables(alloc: Global, values: &[AbsState]) -> Result<Vec<Tabled>, AllocError>
    ensures { IfOk result (λ v. map state_of v.items ≡ map seen values.now) }
{
    let mut out = Vec::new(alloc);
    for value in values {
        let made = table(value)?;
        out.push(made)?;
    }
    Ok(out)
}

/// Nodes beside their tables.
fn rows<'a>(
    alloc: Global,
    nodes: &'a [Node],
    tables: &'a [Tabled],
) -> Result<Vec<(&'a Node, &'a Tabled)>, AllocError>
    requires { length nodes.now ≡ length tables.now }
    ensures { IfOk result (λ v. lent_tables v.items ≡ zip_with {Z = Node × Table} (λ n t. (n, t)) nodes.now tables.now) }
{
    let mut out = Vec::new(alloc);
    for i in 0..nodes.len() {
        out.push((&nodes[i], &tables[i]))?;
    }
    Ok(out)
}

/// Whether a map has the entry, above the state in which runs start, and each successor of each of its nodes, above what comes to it.
fn is_map_closed(
    alloc: Global,
    program: &Program<'_>,
    nodes: &[Node],
    values: &[AbsState],
) -> Result<bool, AllocError>
    requires image { IsImage program.now.image.now }
    requires cells { AreOfImage program.now.image.now.segments program.now.cells.now.image }
    requires settings { AreSettings (length program.now.image.now.externs) program.now.settings.now }
    requires rising { NodesRise nodes.now }
    requires as_many { length nodes.now ≡ length values.now }
    ensures { IfOk result (λ b. b ≡ is_closed_spec program.now.image.now program.now.settings.now (states_with program.now (placed_with nodes.now values.now))) }
{
    let domain = Analysis::new(alloc, program);
    let entry = entry_node(alloc, program.settings.entry);
    let first = first_table(alloc, program)?;
    let held = tables(alloc, values)?;
    let lent = rows(alloc, nodes, held.as_slice())?;
    let closed = is_closed(alloc, &domain, &entry, &first, lent.as_slice())?;
    Ok(closed)
}

/// Puts the warnings of a whole map among those of its nodes.
fn note_map(ws: &mut Vec<Warning>, full: bool, closed: bool) -> Result<(), AllocError>
    ensures { OnOk result (ws.new.items ≡ fold with_warning ws.old.items (of_map full closed)) }
{
    if full {
        note(
            ws,
            Warning {
                at: 0,
                name: WarnName::Full,
            },
        )?;
    }
    if !closed {
        note(
            ws,
            Warning {
                at: 0,
                name: WarnName::NotClosed,
            },
        )?;
    }
    Ok(())
}

/// What can't be followed in a map: at each node, at address 0 whether more nodes were met than a map may have, and there too whether
/// it isn't closed under steps. They rise by address, then in the order of names, each once.
///
/// # Errors
/// Where memory is wanting.
pub fn check(
    alloc: Global,
    s: &States,
    image: &Image,
    settings: &Settings,
) -> Result<Vec<Warning>, AllocError>
    requires image { IsImage image.now }
    requires cells { AreOfImage image.now.segments s.now.cells.image }
    requires settings { AreSettings (length image.now.externs) settings.now }
    requires rising { NodesRise s.now.nodes.items }
    requires as_many { length s.now.nodes.items ≡ length s.now.values.items }
    ensures { IfOk result (λ v. v.items ≡ map_warnings image.now settings.now (told s.now) s.now.full) }
{
    let program = Program {
        image,
        settings,
        cells: &s.cells,
        lane: s.lane,
    };
    let nodes = s.nodes.as_slice();
    let values = s.values.as_slice();
    let mut ws = node_warnings(alloc, &program, nodes, values)?;
    let closed = is_map_closed(alloc, &program, nodes, values)?;
    note_map(&mut ws, s.full, closed)?;
    Ok(ws)
}
