// Writes to a frame whose bytes are divided into cells of four bytes, and reads of them, by table.
ghost use Rattle.std.specs.Prelude.{IfOk};
ghost use Rattle.image_map.specs.Whole.{IsImage};

use abs_semantics::RangeValue;
use abs_state::{AbsState, Memory, Piece, Registers};
use alocs::Cells;
use cell_map::CellMap;
use ia32_types::{FlagSet, Width};
use image_map::{Image, RegionId, Spans, Symbols};
use item_list::Items;
use std::alloc::{AllocError, Global};
use strided::Si;
use vset::{AbsFlags, Part, ValueSet};

fn image(alloc: Global) -> Result<Image, AllocError>
    ensures { IfOk result (λ i. IsImage i) }
{
    Ok(Image {
        segments: Items::new(alloc),
        externs: Items::new(alloc),
        symbols: Symbols::new(alloc)?,
        any_bytes: Spans::new(alloc),
        words: Items::new(alloc),
        entry: 0,
        bias: 0,
    })
}

/// A state in which a procedure runs, and nothing is known.
fn state(alloc: Global, procedure: u32) -> Result<AbsState, AllocError> {
    Ok(AbsState {
        registers: Registers::unknown(alloc)?,
        flags: AbsFlags {
            zero: FlagSet::all(),
            one: FlagSet::all(),
        },
        cells: CellMap::new(alloc),
        live: Items::from_slice(alloc, &[procedure])?,
        older: Items::new(alloc),
        links: Items::new(alloc),
        aligns: Items::new(alloc),
        blocks: Items::new(alloc),
        fact: None,
        root: procedure,
    })
}

fn words(procedure: u32, stride: u32, first: i32, last: i32) -> ValueSet {
    match Si::new(stride, first, last) {
        None => ValueSet::top(),
        Some(si) => ValueSet::one(Part {
            region: RegionId::Frame(procedure),
            si,
        }),
    }
}

fn at(offset: i32) -> ValueSet {
    words(1, 0, offset, offset)
}

fn number(value: i32) -> ValueSet {
    ValueSet::numbers(Si::one(value))
}

/// The one number that a value is, if it is one.
fn only(value: &ValueSet) -> Option<i32> {
    value.only_number()?.only()
}

/// What is read after a write of some bytes at an offset of a frame.
fn read_after(
    alloc: Global,
    written: (i32, u32, i32),
    read: (i32, u32),
) -> Result<Option<i32>, AllocError> {
    let image = image(alloc)?;
    let cells = Cells::from_cuts(alloc, Vec::new(alloc), &image)?;
    let memory = Memory {
        cells: &cells,
        image: &image,
        procedure: 1,
    };
    let mut after = state(alloc, 1)?;
    after.write(
        alloc,
        &memory,
        &at(written.0),
        written.1,
        &number(written.2),
    )?;
    let value = after.read(alloc, &cells, 1, &at(read.0), read.1)?;
    Ok(only(&value))
}

#[test]
fn the_cell_that_was_written_is_read(rt: HostRuntime) {
    for (written, read, found) in [
        ((-8, 4, 7), (-8, 4), Some(7)),
        ((-8, 4, 7), (-4, 4), None),
        ((-8, 4, 7), (-8, 2), None),
        ((-8, 2, 7), (-8, 4), None),
        ((-6, 4, 7), (-8, 4), None),
    ] {
        let value = read_after(rt.alloc(), written, read).expect(&rt, "memory");
        assert_eq!(rt; value, found);
    }
}

/// What is read of many words that hold one number.
fn read_words(alloc: Global, first: i32) -> Result<Option<i32>, AllocError> {
    let image = image(alloc)?;
    let cells = Cells::from_cuts(alloc, Vec::new(alloc), &image)?;
    let memory = Memory {
        cells: &cells,
        image: &image,
        procedure: 1,
    };
    let mut after = state(alloc, 1)?;
    let filled = RangeValue::Number(9, Width::D32);
    after.write_range(alloc, &memory, &at(-400), Some(400), &filled)?;
    let value = after.read(alloc, &cells, 1, &words(1, 4, first, -4), 4)?;
    Ok(only(&value))
}

#[test]
fn sixty_four_words_are_read(rt: HostRuntime) {
    for (first, found) in [(-256, Some(9)), (-260, None)] {
        let value = read_words(rt.alloc(), first).expect(&rt, "memory");
        assert_eq!(rt; value, found);
    }
}

/// What two words hold after a write to eight bytes, the first read in the range and the second by itself.
fn fill(alloc: Global, value: &RangeValue) -> Result<(Option<i32>, Option<i32>), AllocError> {
    let image = image(alloc)?;
    let cells = Cells::from_cuts(alloc, Vec::new(alloc), &image)?;
    let memory = Memory {
        cells: &cells,
        image: &image,
        procedure: 1,
    };
    let mut after = state(alloc, 1)?;
    after.write(alloc, &memory, &at(-24), 4, &number(3))?;
    after.write_range(alloc, &memory, &at(-8), Some(8), value)?;
    let piece = Piece {
        len: 8,
        distance: 0,
        bytes: 4,
    };
    let first = after.read_range(alloc, &cells, 1, &at(-8), piece)?;
    let second = after.read(alloc, &cells, 1, &at(-4), 4)?;
    Ok((only(&first), only(&second)))
}

#[test]
fn ranges_hold_what_is_stored_over_and_over(rt: HostRuntime) {
    let byte = RangeValue::Number(7, Width::B8);
    let dword = RangeValue::Number(5, Width::D32);
    let copy = RangeValue::Copy(at(-24));
    let own = RangeValue::Copy(at(-12));
    for (value, found) in [
        (&byte, (Some(0x0707_0707), Some(0x0707_0707))),
        (&dword, (Some(5), Some(5))),
        (&copy, (Some(3), None)),
        (&own, (None, None)),
        (&RangeValue::Any, (None, None)),
    ] {
        let words = fill(rt.alloc(), value).expect(&rt, "memory");
        assert_eq!(rt; words, found);
    }
}

/// What a join holds in a cell that one state alone has a number in, where the other has its region or hasn't.
fn joined(alloc: Global, other: u32) -> Result<Option<i32>, AllocError> {
    let image = image(alloc)?;
    let cells = Cells::from_cuts(alloc, Vec::new(alloc), &image)?;
    let memory = Memory {
        cells: &cells,
        image: &image,
        procedure: 1,
    };
    let mut first = state(alloc, 1)?;
    first.write(alloc, &memory, &at(-8), 4, &number(6))?;
    let both = first.join(alloc, &state(alloc, other)?)?;
    let value = both.read(alloc, &cells, 1, &at(-8), 4)?;
    Ok(only(&value))
}

#[test]
fn cells_of_a_region_that_one_state_has_stand(rt: HostRuntime) {
    for (other, found) in [(1, None), (2, Some(6))] {
        let value = joined(rt.alloc(), other).expect(&rt, "memory");
        assert_eq!(rt; value, found);
    }
}
