//! All sweeps over a program.

ghost use Rattle.std.specs.Prelude.{◌≡◌, length, map, IfOk};
ghost use Rattle.image_map.specs.CallModel.{AreSettings};
ghost use Rattle.image_map.specs.Whole.{IsImage};
ghost use Rattle.alocs.specs.Extents.{AreOfImage};
ghost use Rattle.abs_state.specs.Views.{seen};
ghost use Rattle.call_strings.specs.declared.context.Node.{Node};
ghost use Rattle.vsa.specs.Tables.{state_of};
ghost use Rattle.vsa.specs.Analysis.{analysis_of, program_of};
ghost use Rattle.vsa.specs.Closed.{entry_node as entry_node_spec};
ghost use Rattle.vsa.specs.Swept.{first_table as first_table_spec, analysed, placed_in};
ghost use Rattle.vsa.specs.Views.{told, NodesRise};

use crate::domain::Analysis;
use crate::states::States;
use crate::table::Tabled;
use abs_state::AbsState;
use alocs::Cells;
use call_strings::{Context, Node};
use image_map::{Image, Settings};
use item_list::Items;
use std::alloc::{AllocError, Global};
use sweeps::{Row, Swept, sweep_all as sweep_domain};
use transfer_flow::Program;

/// The node at which runs start.
pub(crate) fn entry_node(alloc: Global, entry: u32) -> Node
    ensures { result ≡ entry_node_spec entry }
{
    Node {
        context: Context {
            proc: entry,
            sites: Items::new(alloc),
        },
        at: entry,
    }
}

/// The state in which runs start.
pub(crate) fn first_table(alloc: Global, program: &Program<'_>) -> Result<Tabled, AllocError>
    requires image { IsImage program.now.image.now }
    requires cells { AreOfImage program.now.image.now.segments program.now.cells.now.image }
    ensures { IfOk result (λ t. t ≡ first_table_spec (program_of program.now)) }
{
    let state = AbsState::initial(alloc, program.cells, program.image, program.settings.entry)?;
    Ok(Tabled::new(state))
}

fn analyse(alloc: Global, program: &Program<'_>) -> Result<Swept<Node, Tabled>, AllocError>
    requires image { IsImage program.now.image.now }
    requires cells { AreOfImage program.now.image.now.segments program.now.cells.now.image }
    requires settings { AreSettings (length program.now.image.now.externs) program.now.settings.now }
    ensures rows { IfOk result (λ w. w.rows.items ≡ (analysed (program_of program.now)).rows) }
    ensures full { IfOk result (λ w. w.full ≡ (analysed (program_of program.now)).full) }
    ensures rising { IfOk result (λ w. NodesRise (map {B = Node} (λ r. r.place) w.rows.items)) }
{
    let domain = Analysis::new(alloc, program);
    let entry = entry_node(alloc, program.settings.entry);
    let first = first_table(alloc, program)?;
    let swept = sweep_domain(alloc, &domain, &entry, &first)?;
    Ok(swept)
}

/// The nodes and the states of some rows.
fn split(
    alloc: Global,
    rows: Vec<Row<Node, Tabled>>,
) -> Result<(Vec<Node>, Vec<AbsState>), AllocError>
    ensures nodes { IfOk result (λ r. r.0.items ≡ map {B = Node} (λ x. x.place) rows.items) }
    ensures values { IfOk result (λ r. map seen r.1.items ≡ map (λ x. state_of x.state) rows.items) }
{
    let mut nodes = Vec::new(alloc);
    let mut values = Vec::new(alloc);
    for row in rows {
        nodes.push(row.place)?;
        values.push(row.state.into_state())?;
    }
    Ok((nodes, values))
}

/// The states that hold at all nodes to which control may come from the entry, where nodes keep the newest `k` call sites: what the sweeps
/// give.
///
/// # Errors
/// Where memory is wanting.
pub fn sweep_all(
    alloc: Global,
    image: &Image,
    cells: Cells,
    settings: &Settings,
    k: u32,
) -> Result<States, AllocError>
    requires image { IsImage image.now }
    requires cells { AreOfImage image.now.segments cells.image }
    requires settings { AreSettings (length image.now.externs) settings.now }
    ensures placed { IfOk result (λ s. (told s).placed ≡ placed_in (analysed (analysis_of image.now settings.now cells k))) }
    ensures full { IfOk result (λ s. s.full ≡ (analysed (analysis_of image.now settings.now cells k)).full) }
    ensures lane { IfOk result (λ s. s.lane ≡ k) }
    ensures cells { IfOk result (λ s. s.cells ≡ cells) }
    ensures rising { IfOk result (λ s. NodesRise s.nodes.items) }
    ensures as_many { IfOk result (λ s. length s.nodes.items ≡ length s.values.items) }
{
    let swept = analyse(
        alloc,
        &Program {
            image,
            settings,
            cells: &cells,
            lane: k,
        },
    )?;
    let full = swept.full;
    let parts = split(alloc, swept.rows)?;
    Ok(States {
        lane: k,
        cells,
        nodes: parts.0,
        values: parts.1,
        full,
    })
}
