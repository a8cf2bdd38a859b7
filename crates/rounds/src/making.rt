//! How a round is made.
ghost use Rattle.std.specs.Prelude.{◌≡◌, ◌+◌, ◌≤◌, ◌↔◌, length, IfOk, IsTrue};
ghost use Rattle.image_map.specs.CallModel.{AreSettings};
ghost use Rattle.image_map.specs.Whole.{IsImage};
ghost use Rattle.alocs.specs.Cells.{AreCutLists, Division};
ghost use Rattle.alocs.specs.Extents.{AreOfImage};
ghost use Rattle.dep_graph.specs.Edges.{HasEdges};
ghost use Rattle.access_facts.specs.Flow.{flow as flow_spec};
ghost use Rattle.access_facts.specs.Maps.{IsOfImage};
ghost use Rattle.vsa.specs.Views.{told};
ghost use Rattle.rounds.specs.Next.{IsLast, AreNext};
ghost use Rattle.rounds.specs.Rounds.{HasCells, HasForm, IsRound};

use crate::next_cuts::{is_last, next_lists};
use crate::placing::placed;
use crate::round::Round;
use access_facts::flow;
use alocs::{Cells, CutList};
use asi_cuts::CutResult;
use first_cuts::first_lists;
use image_map::{Image, Settings};
use item_list::Items;
use slicer::RoundGraph;
use std::alloc::{AllocError, Global};
use transfer_flow::Program;
use vsa::{States, check, sweep_all};

/// A round by its number and the number of call sites that nodes keep.
#[derive(Clone, Copy)]
struct Name {
    number: u32,
    lane: u32,
}

fn copied(alloc: Global, lists: &[CutList]) -> Result<Vec<CutList>, AllocError>
    ensures { IfOk result (λ v. v.items ≡ lists.now) }
{
    let mut copies = Vec::new(alloc);
    for list in lists {
        copies.push(list.clone()?)?;
    }
    Ok(copies)
}

fn cells_with(alloc: Global, image: &Image, lists: &[CutList]) -> Result<Cells, AllocError>
    requires image { IsImage image.now }
    requires lists { AreCutLists lists.now }
    ensures lists { IfOk result (λ cells. cells.lists ≡ lists.now) }
    ensures image { IfOk result (λ cells. AreOfImage image.now.segments cells.image) }
{
    let lists = copied(alloc, lists)?;
    let cells = Cells::from_cuts(alloc, lists, image)?;
    Ok(cells)
}

/// What a map tells.
#[derive(Drop)]
struct Found {
    graph: RoundGraph,
    last: bool,
}

/// The graph of the map of a round of a number, and whether that is the last round.
fn explored(
    alloc: Global,
    program: &Program<'_>,
    states: &States,
    number: u32,
) -> Result<Found, AllocError>
    requires program { IsOfImage program.now }
    requires cells { (program.now.cells.now ≡ states.now.cells) × (program.now.lane ≡ states.now.lane) }
    requires form { HasForm states.now }
    requires number { number + 1 ≤ program.now.settings.now.rounds }
    ensures flow { IfOk result (λ f. f.graph.flow.nodes ≡ flow_spec program.now.image.now program.now.settings.now (told states.now)) }
    ensures edges { IfOk result (λ f. HasEdges f.graph.flow.nodes f.graph.edges.ordinary f.graph.edges.sp) }
    ensures last { IfOk result (λ f. IsTrue f.last ↔ IsLast program.now.image.now program.now.settings.now number (told states.now)) }
{
    let placed = placed(alloc, states.nodes.as_slice(), states.values.as_slice())?;
    let flow = flow(alloc, program, placed.as_slice())?;
    let graph = RoundGraph::new(alloc, flow)?;
    let last = is_last(alloc, program, placed.as_slice(), number)?;
    Ok(Found { graph, last })
}

/// The round of these cuts.
fn made(
    alloc: Global,
    image: &Image,
    settings: &Settings,
    name: Name,
    lists: &[CutList],
) -> Result<Round, AllocError>
    requires image { IsImage image.now }
    requires settings { AreSettings (length image.now.externs) settings.now }
    requires lists { AreCutLists lists.now }
    requires number { name.number + 1 ≤ settings.now.rounds }
    requires cells { (d : Division) → d.lists ≡ lists.now → AreOfImage image.now.segments d.image → HasCells image.now settings.now name.lane name.number d }
    ensures round { IfOk result (IsRound image.now settings.now) }
    ensures name { IfOk result (λ r. (r.number ≡ name.number) × (r.lane ≡ name.lane)) }
{
    let cells = cells_with(alloc, image, lists)?;
    let own = cells_with(alloc, image, lists)?;
    let states = sweep_all(alloc, image, own, settings, name.lane)?;
    let warnings = check(alloc, &states, image, settings)?;
    let program = Program {
        image,
        settings,
        cells: &states.cells,
        lane: states.lane,
    };
    let found = explored(alloc, &program, &states, name.number)?;
    Ok(Round {
        number: name.number,
        lane: name.lane,
        cells,
        states,
        graph: found.graph,
        warnings,
        last: found.last,
    })
}

/// Round 0, in which nodes keep the newest `lane` call sites.
///
/// # Errors
/// Where memory is wanting.
pub fn first(
    alloc: Global,
    image: &Image,
    settings: &Settings,
    lane: u32,
) -> Result<Round, AllocError>
    requires image { IsImage image.now }
    requires settings { AreSettings (length image.now.externs) settings.now }
    ensures round { IfOk result (IsRound image.now settings.now) }
    ensures name { IfOk result (λ r. (r.number ≡ 0) × (r.lane ≡ lane)) }
{
    let lists = first_lists(alloc, image)?;
    made(
        alloc,
        image,
        settings,
        Name { number: 0, lane },
        lists.as_slice(),
    )
}

/// The lists of cuts of the round behind one that isn't the last.
fn lists_behind(
    alloc: Global,
    image: &Image,
    settings: &Settings,
    r: &Round,
) -> Result<Items<CutList>, AllocError>
    requires image { IsImage image.now }
    requires settings { AreSettings (length image.now.externs) settings.now }
    requires round { IsRound image.now settings.now r.now }
    requires more { ¬ IsTrue r.now.last }
    ensures { IfOk result (AreNext image.now settings.now r.now.number (told r.now.states)) }
{
    let program = Program {
        image,
        settings,
        cells: &r.states.cells,
        lane: r.states.lane,
    };
    let placed = placed(alloc, r.states.nodes.as_slice(), r.states.values.as_slice())?;
    match next_lists(alloc, &program, placed.as_slice(), r.number)? {
        CutResult::Cuts(lists) => Ok(lists),
        CutResult::TooMany => unreachable!(),
    }
}

/// The round behind one that isn't the last.
///
/// # Errors
/// Where memory is wanting.
pub fn next(
    alloc: Global,
    image: &Image,
    settings: &Settings,
    r: &Round,
) -> Result<Round, AllocError>
    requires image { IsImage image.now }
    requires settings { AreSettings (length image.now.externs) settings.now }
    requires round { IsRound image.now settings.now r.now }
    requires more { ¬ IsTrue r.now.last }
    ensures round { IfOk result (IsRound image.now settings.now) }
    ensures name { IfOk result (λ q. (q.number ≡ r.now.number + 1) × (q.lane ≡ r.now.lane)) }
{
    let lists = lists_behind(alloc, image, settings, r)?;
    let name = Name {
        number: r.number + 1,
        lane: r.lane,
    };
    made(alloc, image, settings, name, lists.as_slice())
}
