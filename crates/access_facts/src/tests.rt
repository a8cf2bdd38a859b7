// The places that accesses touch, and what they say of cuts, by hand.
ghost use Rattle.std.specs.Prelude.{◌≡◌, IfOk};
ghost use Rattle.image_map.specs.Whole.{IsImage};
ghost use Rattle.access_facts.specs.Rows.{AreInside, AreRows};

use crate::facts::push_reaches;
use crate::graph_cells::graph_rows;
use crate::numbers::Names;
use crate::places::places_of;
use crate::reach::Reach;
use crate::rows::{Row, Test};
use alocs::Cells;
use asi_cuts::Constraint;
use ia32_types::{FlagSet, Reg, RegSet};
use image_map::{Image, RegionId, Segment, Spans, Symbols};
use item_list::Items;
use std::alloc::{AllocError, Global};
use std::test::Fail;
use strided::Si;
use vset::Part;

/// Sixteen bytes that can't be written.
fn image(alloc: Global) -> Result<Image, AllocError>
    ensures { IfOk result (λ i. IsImage i) }
{
    let mut segments = Items::new(alloc);
    segments.push(Segment {
        start: 0x1000,
        bytes: Items::from_slice(alloc, &[0; 16])?,
        flags: 0,
    })?;
    Ok(Image {
        segments,
        externs: Items::new(alloc),
        symbols: Symbols::new(alloc)?,
        any_bytes: Spans::new(alloc),
        words: Items::new(alloc),
        entry: 0,
        bias: 0,
    })
}

fn cells(alloc: Global, image: &Image) -> Result<Cells, AllocError>
    requires { IsImage image.now }
    ensures { IfOk result (λ cells. AreInside cells.image) }
{
    let cells = Cells::from_cuts(alloc, Vec::new(alloc), image)?;
    Ok(cells)
}

/// The segment has the place 14, the words of procedure 1 from -1024 on have 16 and up, and those of the heap's key 5 have 289 and up.
fn rows(alloc: Global, image: &Image) -> Result<Vec<Row>, AllocError>
    requires { IsImage image.now }
    ensures { IfOk result (λ rows. AreRows 14 rows.items) }
{
    let cells = cells(alloc, image)?;
    let names = Names {
        procedures: Vec::from_slice(alloc, &[1])?,
        keys: Vec::from_slice(alloc, &[5])?,
    };
    let rows = graph_rows(alloc, &cells, &names)?;
    Ok(rows)
}

fn reach_at(
    alloc: Global,
    len: u32,
    region: RegionId,
    offset: i32,
) -> Result<[Reach; 1], AllocError> {
    let mut parts = Items::new(alloc);
    parts.push(Part {
        region,
        si: Si::one(offset),
    })?;
    Ok([Reach::Within(len, parts)])
}

fn read_at(alloc: Global, rows: &[Row], reaches: &[Reach]) -> Result<Items<u32>, AllocError>
    requires { AreRows 14 rows.now }
{
    let test = Test::Read(reaches);
    places_of(alloc, RegSet::only(Reg::Esp), FlagSet::none(), rows, &test)
}

fn written_at(
    alloc: Global,
    rows: &[Row],
    image: &Image,
    reaches: &[Reach],
) -> Result<Items<u32>, AllocError>
    requires { AreRows 14 rows.now }
{
    let test = Test::Written(image, reaches);
    places_of(alloc, RegSet::only(Reg::Esp), FlagSet::none(), rows, &test)
}

fn filled_at(
    alloc: Global,
    rows: &[Row],
    older: &[u32],
    reaches: &[Reach],
) -> Result<Items<u32>, AllocError>
    requires { AreRows 14 rows.now }
{
    let test = Test::Filled(older, reaches);
    places_of(alloc, RegSet::only(Reg::Esp), FlagSet::none(), rows, &test)
}

#[test]
fn reads_have_places(rt: HostRuntime) -> Result<(), Fail> {
    let alloc = rt.alloc();
    let rows = rows(alloc, &image(alloc)?)?;
    let older = reach_at(alloc, 4, RegionId::OldFrame(1), -8)?;
    let read = read_at(alloc, rows.as_slice(), &older)?;
    assert_eq!(rt; read.as_slice(), [4, 270].as_slice());
    let block = reach_at(alloc, 4, RegionId::Heap(5), 4)?;
    let read = read_at(alloc, rows.as_slice(), &block)?;
    assert_eq!(rt; read.as_slice(), [4, 290].as_slice());
    let read = read_at(alloc, rows.as_slice(), &[Reach::Anywhere])?;
    assert_eq!(rt; read.len(), 1 + 1 + 274 + 65);
    Ok(())
}

#[test]
fn writes_have_places(rt: HostRuntime) -> Result<(), Fail> {
    let alloc = rt.alloc();
    let image = image(alloc)?;
    let rows = rows(alloc, &image)?;
    let across = reach_at(alloc, 8, RegionId::Frame(1), -6)?;
    let written = written_at(alloc, rows.as_slice(), &image, &across)?;
    assert_eq!(rt; written.as_slice(), [4, 270, 271, 272].as_slice());
    let written = written_at(alloc, rows.as_slice(), &image, &[Reach::Anywhere])?;
    assert_eq!(rt; written.len(), 1 + 274 + 65);
    Ok(())
}

#[test]
fn sure_writes_have_places(rt: HostRuntime) -> Result<(), Fail> {
    let alloc = rt.alloc();
    let rows = rows(alloc, &image(alloc)?)?;
    let across = reach_at(alloc, 8, RegionId::Frame(1), -6)?;
    let filled = filled_at(alloc, rows.as_slice(), &[], &across)?;
    assert_eq!(rt; filled.as_slice(), [4, 271].as_slice());
    let filled = filled_at(alloc, rows.as_slice(), &[1], &across)?;
    assert_eq!(rt; filled.as_slice(), [4].as_slice());
    let block = reach_at(alloc, 4, RegionId::Heap(5), 4)?;
    let filled = filled_at(alloc, rows.as_slice(), &[], &block)?;
    assert_eq!(rt; filled.as_slice(), [4].as_slice());
    Ok(())
}

fn told(fact: &Constraint) -> (i32, i32, u32) {
    match fact {
        Constraint::Bounds { start, end, .. } => (*start, *end, 0),
        Constraint::Elements { start, count, .. } => (*start, 0, *count),
        Constraint::Same {
            a_start,
            b_start,
            len,
            ..
        } => (*a_start, *b_start, *len),
    }
}

#[test]
fn places_say_cuts(rt: HostRuntime) -> Result<(), Fail> {
    let alloc = rt.alloc();
    let mut parts = Items::new(alloc);
    parts.push(Part {
        region: RegionId::Global,
        si: Si::new(4, 0x1000, 0x1008).ok_or("canonical")?,
    })?;
    parts.push(Part {
        region: RegionId::OldFrame(1),
        si: Si::one(-8),
    })?;
    let mut facts = Vec::new(alloc);
    push_reaches(&mut facts, &[Reach::Within(4, parts), Reach::Anywhere])?;
    let mut found = Vec::new(alloc);
    for fact in facts.as_slice() {
        found.push(told(fact))?;
    }
    let wanted = [
        (0x1000, 0x100C, 0),
        (0x1000, 0, 3),
        (0x1000, -8, 4),
        (-8, -4, 0),
    ];
    assert_eq!(rt; found.as_slice(), wanted.as_slice());
    Ok(())
}
