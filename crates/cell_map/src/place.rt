//! The place of a cell in a rising list.

ghost use Rattle.std.specs.Prelude.{◌≡◌, ◌≤◌, true, false, filter, length, not, OnOk, OnErr};
ghost use Rattle.std.specs.List.Sorted.{IsPartitionPoint};
ghost use Rattle.image_map.specs.Regions.{cell_before};
ghost use Rattle.abs_semantics.specs.declared.parts.CellValue.{CellValue};
ghost use Rattle.abs_semantics.specs.States.{inserted};
ghost use Rattle.abs_semantics.specs.Start.{is_top};
ghost use Rattle.cell_map.specs.Lists.{AreRising};

use abs_semantics::CellValue;
use image_map::Cell;
use std::alloc::AllocError;

/// How many entries stand before a cell: found by a search that halves them.
pub(crate) fn place_of(es: &[CellValue], cell: &Cell) -> usize
    requires { AreRising es.now }
    ensures point { IsPartitionPoint (λ e. cell_before e.cell cell.now ≡ true) (λ e. cell_before e.cell cell.now ≡ false) es.now result }
    ensures within { result ≤ length es.now }
{
    es.partition_point(
        |e: &CellValue| -> bool
            ensures { result ≡ cell_before e.now.cell cell.entry.now }
        { e.cell.is_before(cell) },
    )
}

/// Puts an entry at its place, over the one of its cell, if there is one.
pub(crate) fn put_entry(es: &mut Vec<CellValue>, e: CellValue) -> Result<(), AllocError>
    requires { AreRising es.old.items }
    ensures ok { OnOk result (es.new.items ≡ inserted e es.old.items) }
    ensures err { OnErr result (es.new.items ≡ es.old.items) }
{
    let place = place_of(es.as_slice(), &e.cell);
    if place < es.len() && es[place].cell == e.cell {
        es[place] = e;
        return Ok(());
    }
    es.insert(place, e)?;
    Ok(())
}

fn is_known(e: &CellValue) -> bool
    ensures { result ≡ not (is_top e.now.value) }
{
    e.value.parts().is_some()
}

/// Keeps the entries whose value isn't every value.
pub(crate) fn keep_known(es: &mut Vec<CellValue>)
    ensures { es.new.items ≡ filter (λ (e : CellValue). not (is_top e.value)) es.old.items }
{
    es.retain(|e| is_known(e));
}
