// The cells of lists of cuts and of the word cuts, by table, and the cells that ranges touch.
ghost use Rattle.std.specs.Prelude.{◌≡◌, [], ◌∷◌, IfOk};
ghost use Rattle.image_map.specs.Whole.{IsImage};

use super::*;
use image_map::{Image, RegionId, Segment, Spans, Symbols};
use item_list::Items;
use std::alloc::{AllocError, Global};
use strided::Si;

/// Two segments, the higher one first.
fn image(alloc: Global) -> Result<Image, AllocError>
    ensures { IfOk result (λ i. IsImage i) }
{
    let mut segments = Items::new(alloc);
    segments.push(Segment {
        start: 0x2000,
        bytes: Items::from_slice(alloc, &[0; 8])?,
        flags: 0,
    })?;
    segments.push(Segment {
        start: 0x1000,
        bytes: Items::from_slice(alloc, &[0; 16])?,
        flags: 0,
    })?;
    Ok(Image {
        segments,
        externs: Items::new(alloc),
        symbols: Symbols::new(alloc)?,
        any_bytes: Spans::new(alloc),
        words: Items::new(alloc),
        entry: 0,
        bias: 0,
    })
}

/// A list of two cuts.
fn list(alloc: Global, region: RegionId, low: i32, high: i32) -> Result<CutList, AllocError>
    ensures { IfOk result (λ l. l ≡ record { region = region; cuts = low ∷ high ∷ [] }) }
{
    let cuts = Items::from_slice(alloc, &[low, high])?;
    Ok(CutList { region, cuts })
}

/// A Frame and Global have lists, each with a cut outside its region.
fn cells(alloc: Global) -> Result<Cells, AllocError> {
    let frame = list(alloc, RegionId::Frame(7), -8, 0x2_0000)?;
    let global = list(alloc, RegionId::Global, 0x1004, 0x1800)?;
    let mut lists = Vec::new(alloc);
    lists.push(frame)?;
    lists.push(global)?;
    Cells::from_cuts(alloc, lists, &image(alloc)?)
}

/// The same lists by their regions.
fn cells_by_region(alloc: Global) -> Result<Cells, AllocError> {
    let frame = list(alloc, RegionId::Frame(7), -8, 0x2_0000)?;
    let global = list(alloc, RegionId::Global, 0x1004, 0x1800)?;
    let mut lists = Vec::new(alloc);
    lists.push(global)?;
    lists.push(frame)?;
    Cells::from_cuts(alloc, lists, &image(alloc)?)
}

#[test]
fn each_offset_has_its_cell(rt: HostRuntime) {
    let cells = cells(rt.alloc()).expect(&rt, "memory");
    let by_region = cells_by_region(rt.alloc()).expect(&rt, "memory");
    assert_eq!(rt; cells.lists().len(), 2);
    for (region, offset, cell) in [
        (RegionId::Frame(7), -9, Some((-0x10_0000, -8))),
        (RegionId::OldFrame(7), -8, Some((-8, 0x1_0000))),
        (RegionId::Frame(8), -1025, Some((-0x10_0000, -1024))),
        (RegionId::OldFrame(8), 63, Some((60, 64))),
        (RegionId::Heap(1), 255, Some((252, 256))),
        (RegionId::OldHeap(1), 256, Some((256, 0x2000_0000))),
        (RegionId::Heap(1), 0x2000_0000, None),
        (RegionId::Global, 0x1003, Some((0x1000, 0x1004))),
        (RegionId::Global, 0x100F, Some((0x1004, 0x1010))),
        (RegionId::Global, 0x1010, None),
        (RegionId::Global, 0x2000, Some((0x2000, 0x2008))),
    ] {
        let found = cells.cell_of(region, offset).map(|c| (c.start, c.end));
        assert_eq!(rt; found, cell);
        let found = by_region.cell_of(region, offset).map(|c| (c.start, c.end));
        assert_eq!(rt; found, cell);
    }
}

#[test]
fn ranges_touch_cells(rt: HostRuntime) {
    let cells = cells(rt.alloc()).expect(&rt, "memory");
    let offsets = Si::new(16, 0, 32).expect(&rt, "canonical");
    for (region, more, count) in [
        (RegionId::Frame(8), 0, 3),
        (RegionId::Frame(8), 4, 6),
        (RegionId::OldFrame(7), 4, 1),
        (RegionId::Global, 3, 0),
        (RegionId::Global, 0x1FE1, 3),
    ] {
        let touched = cells.touching(rt.alloc(), region, &offsets, 1 + (more & 0xFFFF));
        assert_eq!(rt; touched.expect(&rt, "memory").len(), count);
    }
}
