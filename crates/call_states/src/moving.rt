//! Cells of one region that another takes over: where an activation or a block grows old, and where an older one is the newest again.

ghost use Rattle.std.specs.Prelude.{◌≡◌, ◌++◌, ◌∷◌, [], IfOk, OnOk};
ghost use Rattle.abs_semantics.specs.States.{rebuilt};
ghost use Rattle.abs_steps.specs.Calls.{is_in as is_in_spec, as_of as as_of_spec, moved as moved_spec, with_cells};
ghost use Rattle.abs_state.specs.Views.{seen};
ghost use Rattle.call_states.specs.Moving.{taken_value as taken_value_spec, moved_value as moved_value_spec, put_each};

use abs_semantics::CellValue;
use abs_state::AbsState;
use cell_map::{CellMap, held_by};
use image_map::{Cell, RegionId};
use std::alloc::{AllocError, Global};
use vset::ValueSet;

/// What a region's cells hold afterwards.
#[derive(Clone, Copy)]
pub(crate) enum Taking {
    /// What they held.
    Kept,
    /// What the other region's hold.
    Replaced,
    /// What either holds.
    Joined,
}

/// A region that takes over the cells of another.
#[derive(Clone, Copy)]
pub(crate) struct Move {
    pub(crate) to: RegionId,
    pub(crate) from: RegionId,
    pub(crate) taking: Taking,
}

/// The same offsets of a region.
fn as_of(region: RegionId, cell: &Cell) -> Cell
    ensures { result ≡ as_of_spec region cell.now }
{
    Cell { region, ..*cell }
}

/// What a cell of the region holds afterwards.
fn taken_value(
    alloc: Global,
    cells: &CellMap,
    change: &Move,
    cell: &Cell,
) -> Result<ValueSet, AllocError>
    ensures { IfOk result (λ v. v ≡ taken_value_spec cells.now change.now cell.now) }
{
    let other = cells.value(&as_of(change.from, cell))?;
    match change.taking {
        Taking::Kept => cells.value(cell),
        Taking::Replaced => Ok(other),
        Taking::Joined => {
            let own = cells.value(cell)?;
            Ok(held_by(cell, own.join(alloc, &other)?))
        }
    }
}

/// What a cell of any region holds afterwards.
fn moved_value(
    alloc: Global,
    cells: &CellMap,
    change: &Move,
    cell: &Cell,
) -> Result<ValueSet, AllocError>
    ensures { IfOk result (λ v. v ≡ moved_value_spec cells.now change.now cell.now) }
{
    if cell.region == change.to {
        taken_value(alloc, cells, change, cell)
    } else {
        cells.value(cell)
    }
}

/// Puts some cells, with what they hold afterwards.
fn put_listed(
    alloc: Global,
    cells: &CellMap,
    change: &Move,
    entries: &[CellValue],
    out: &mut CellMap,
) -> Result<(), AllocError>
    ensures { OnOk result (out.new ≡ put_each (moved_value_spec cells.now change.now) entries.now out.old) }
{
    for entry in entries {
        let value = moved_value(alloc, cells, change, &entry.cell)?;
        out.put(&entry.cell, value)?;
    }
    Ok(())
}

/// Puts a cell that the region takes over, if it is one.
fn put_taken(
    alloc: Global,
    cells: &CellMap,
    change: &Move,
    entry: &CellValue,
    out: &mut CellMap,
) -> Result<(), AllocError>
    ensures { OnOk result (out.new ≡ put_each (moved_value_spec cells.now change.now) (moved_spec change.now.from change.now.to (entry.now ∷ [])) out.old) }
{
    if entry.cell.region == change.from {
        let cell = as_of(change.to, &entry.cell);
        let value = moved_value(alloc, cells, change, &cell)?;
        out.put(&cell, value)?;
    }
    Ok(())
}

/// Puts those of some cells that the region takes over.
fn put_all_taken(
    alloc: Global,
    cells: &CellMap,
    change: &Move,
    entries: &[CellValue],
    out: &mut CellMap,
) -> Result<(), AllocError>
    ensures { OnOk result (out.new ≡ put_each (moved_value_spec cells.now change.now) (moved_spec change.now.from change.now.to entries.now) out.old) }
{
    for entry in entries {
        put_taken(alloc, cells, change, entry, out)?;
    }
    Ok(())
}

/// The cells after a region has taken over those of another.
fn moved_cells(alloc: Global, cells: &CellMap, change: &Move) -> Result<CellMap, AllocError>
    ensures { IfOk result (λ m. m ≡ rebuilt (moved_value_spec cells.now change.now) (cells.now ++ moved_spec change.now.from change.now.to cells.now)) }
{
    let mut out = CellMap::new(alloc);
    put_listed(alloc, cells, change, cells.entries(), &mut out)?;
    put_all_taken(alloc, cells, change, cells.entries(), &mut out)?;
    Ok(out)
}

/// A region takes over the cells of another.
pub(crate) fn move_cells(alloc: Global, a: &mut AbsState, change: &Move) -> Result<(), AllocError>
    ensures { OnOk result (seen a.new ≡ with_cells change.now.to change.now.from (taken_value_spec (seen a.old).cells change.now) (seen a.old)) }
{
    let cells = moved_cells(alloc, &a.cells, change)?;
    a.cells = cells;
    Ok(())
}
