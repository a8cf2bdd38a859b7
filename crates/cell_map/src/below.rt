//! Whether the cells of one state tell no less than those of another, in one pass over both.

ghost use Rattle.std.specs.Prelude.{◌≡◌, false};
ghost use Rattle.image_map.specs.declared.region.Cell.{Cell};
ghost use Rattle.image_map.specs.Regions.{cell_before};
ghost use Rattle.vset.specs.Operations.{below};
ghost use Rattle.abs_semantics.specs.States.{value_in};
ghost use Rattle.cell_map.specs.Lists.{AreRising, IsFrom};
ghost use Rattle.abs_semantics.specs.Below.{implies};
ghost use Rattle.cell_map.specs.Merges.{first_value as first_value_spec, has_region, are_below as are_below_spec};

use crate::regions::Regions;
use abs_semantics::CellValue;
use image_map::Cell;

/// The entries from the first on whose cell doesn't stand before a cell.
fn passed<'a>(xs: &'a [CellValue], cell: &Cell) -> &'a [CellValue]
    ensures keeps { (c : Cell) → cell_before c cell.now ≡ false → value_in c result.now ≡ value_in c xs.now }
    ensures from { IsFrom cell.now result.now }
    ensures rises { AreRising xs.now → AreRising result.now }
{
    let mut left = xs;
    while let Some((x, tail)) = left.split_first() {
        if !x.cell.is_before(cell) {
            return left;
        }
        left = tail;
    }
    left
}

/// Whether what the first entry tells of a cell, where it is the cell's, lies below a value; else the cell may hold every value.
fn is_value_below(left: &[CellValue], y: &CellValue) -> bool
    ensures { result ≡ below (first_value_spec y.now.cell left.now) y.now.value }
{
    match left {
        [x, ..] if x.cell == y.cell => x.value.below(&y.value),
        _ => y.value.parts().is_none(),
    }
}

/// Whether an entry tells no less than the first of others does of its cell, where a state has its region.
fn is_entry_below(a: &Regions<'_>, left: &[CellValue], y: &CellValue) -> bool
    ensures { result ≡ implies (has_region a.now y.now.cell.region) (below (first_value_spec y.now.cell left.now) y.now.value) }
{
    is_value_below(left, y) || !a.has(&y.cell.region)
}

/// Whether each cell of the second list, of a region that the first state has, holds what it holds in the first list.
pub(crate) fn are_below(a: &Regions<'_>, xs: &[CellValue], ys: &[CellValue]) -> bool
    requires first { AreRising xs.now }
    requires second { AreRising ys.now }
    ensures { result ≡ are_below_spec a.now xs.now ys.now }
{
    let mut left = xs;
    for y in ys {
        left = passed(left, &y.cell);
        if !is_entry_below(a, left, y) {
            return false;
        }
    }
    true
}
