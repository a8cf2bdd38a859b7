//! The cells of a graph, row by row.
ghost use Rattle.std.specs.Prelude.{◌≡◌, ◌++◌, ◌+◌, ◌<◌, ◌^◌, IfOk, IfSome, OnOk, map};
ghost use Rattle.std.specs.List.{flat_map};
ghost use Rattle.image_map.specs.declared.region.RegionId.TheVariants as region;
ghost use Rattle.alocs.specs.Cells.{cells_of as cells_of_spec};
ghost use Rattle.access_facts.specs.Places.{regions_of};
ghost use Rattle.access_facts.specs.Rows.{AreInside, AreNumbered, AreOf, AreRows, AreSome, cells_in_rows};

use crate::numbers::Names;
use crate::rows::Row;
use alocs::Cells;
use image_map::{Cell, RegionId};
use item_list::Items;
use std::alloc::{AllocError, Global};
use strided::Si;

// The cells of a region: those that some offset of all touches.
fn cells_of(alloc: Global, cells: &Cells, region: RegionId) -> Result<Vec<Cell>, AllocError>
    requires { AreInside cells.now.image }
    ensures value { IfOk result (λ v. v.items ≡ cells_of_spec cells.now region) }
    ensures some { IfOk result (λ v. AreSome v.items) }
    ensures of { IfOk result (λ v. AreOf region v.items) }
{
    let found = cells.touching(alloc, region, &Si::full(), 1)?;
    Ok(found)
}

// Rows that grow, and the number behind theirs.
#[derive(Drop)]
struct Growing {
    rows: Vec<Row>,
    next: u32,
}

// The number behind so many more; none where there aren't so many. More cells than numbers can't be had.
fn behind(first: u32, count: usize) -> Option<u32>
    ensures { IfSome result (λ next. (next ≡ first + count) × (next < 2 ^ 32)) }
{
    let more = u32::try_from(count).ok()?;
    first.checked_add(more)
}

fn push_region(
    alloc: Global,
    growing: &mut Growing,
    cells: &Cells,
    region: RegionId,
) -> Result<(), AllocError>
    requires inside { AreInside cells.now.image }
    requires rows { AreNumbered growing.old.rows.items growing.old.next }
    ensures rows { OnOk result (AreNumbered growing.new.rows.items growing.new.next) }
    ensures cells { OnOk result (cells_in_rows growing.new.rows.items ≡ cells_in_rows growing.old.rows.items ++ cells_of_spec cells.now region) }
{
    let found = cells_of(alloc, cells, region)?;
    match behind(growing.next, found.len()) {
        None => return Err(AllocError),
        Some(next) => {
            growing.rows.push(Row {
                region,
                first: growing.next,
                cells: Items::from_vec(found),
            })?;
            growing.next = next;
        }
    }
    Ok(())
}

fn push_frames(
    alloc: Global,
    growing: &mut Growing,
    cells: &Cells,
    procedures: &[u32],
) -> Result<(), AllocError>
    requires inside { AreInside cells.now.image }
    requires rows { AreNumbered growing.old.rows.items growing.old.next }
    ensures rows { OnOk result (AreNumbered growing.new.rows.items growing.new.next) }
    ensures cells { OnOk result (cells_in_rows growing.new.rows.items ≡ cells_in_rows growing.old.rows.items ++ flat_map (cells_of_spec cells.now) (map region.Frame procedures.now)) }
{
    for procedure in procedures {
        push_region(alloc, growing, cells, RegionId::Frame(*procedure))?;
    }
    Ok(())
}

fn push_heaps(
    alloc: Global,
    growing: &mut Growing,
    cells: &Cells,
    keys: &[u32],
) -> Result<(), AllocError>
    requires inside { AreInside cells.now.image }
    requires rows { AreNumbered growing.old.rows.items growing.old.next }
    ensures rows { OnOk result (AreNumbered growing.new.rows.items growing.new.next) }
    ensures cells { OnOk result (cells_in_rows growing.new.rows.items ≡ cells_in_rows growing.old.rows.items ++ flat_map (cells_of_spec cells.now) (map region.Heap keys.now)) }
{
    for key in keys {
        push_region(alloc, growing, cells, RegionId::Heap(*key))?;
    }
    Ok(())
}

/// The cells of a graph whose nodes have these procedures, and whose states have blocks of these keys.
pub(crate) fn graph_rows(
    alloc: Global,
    cells: &Cells,
    names: &Names,
) -> Result<Vec<Row>, AllocError>
    requires { AreInside cells.now.image }
    ensures rows { IfOk result (λ rows. AreRows 14 rows.items) }
    ensures cells { IfOk result (λ rows. cells_in_rows rows.items ≡ flat_map (cells_of_spec cells.now) (regions_of names.now.procedures.items names.now.keys.items)) }
{
    let mut growing = Growing {
        rows: Vec::new(alloc),
        next: 14,
    };
    push_region(alloc, &mut growing, cells, RegionId::Global)?;
    push_frames(alloc, &mut growing, cells, names.procedures.as_slice())?;
    push_heaps(alloc, &mut growing, cells, names.keys.as_slice())?;
    Ok(growing.rows)
}
