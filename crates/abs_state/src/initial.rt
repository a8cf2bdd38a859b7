//! What is known where a run starts.

ghost use Rattle.std.specs.Prelude.{◌≡◌, ◌<◌, ◌^◌, ◌⊎◌, ◌↔◌, ◌≤ℤ◌, [], ◌∷◌, pos, true, Contains, option_map, IfOk, IfSome};
ghost use Rattle.image_map.specs.declared.region.Cell.{Cell};
ghost use Rattle.image_map.specs.declared.region.RegionId.TheVariants as region;
ghost use Rattle.image_map.specs.Queries.{byte_at as byte_at_spec};
ghost use Rattle.image_map.specs.Regions.{same_region};
ghost use Rattle.image_map.specs.Whole.{IsImage};
ghost use Rattle.ia32_semantics.specs.State.{bytes_at, little_endian};
ghost use Rattle.strided.specs.Interval.{one};
ghost use Rattle.alocs.specs.Extents.{AreOfImage};
ghost use Rattle.vset.specs.Values.{Parts};
ghost use Rattle.vset.specs.Operations.{part};
ghost use Rattle.abs_semantics.specs.Start.{number_or_top as number_or_top_spec, image_value as image_value_spec, first_value as first_value_spec, first_cells as first_cells_spec, initial_state};
ghost use Rattle.abs_state.specs.Writes.{news_of};
ghost use Rattle.abs_state.specs.Views.{seen};

use crate::ranges::number_length;
use crate::reads::{cell_at, element};
use crate::registers::Registers;
use crate::state::AbsState;
use crate::writes::put_all;
use abs_results::word_number;
use abs_semantics::{CellValue, Known};
use alocs::Cells;
use cell_map::CellMap;
use ia32_types::{FlagSet, Reg};
use image_map::{Cell, Image, RegionId};
use item_list::Items;
use std::alloc::{AllocError, Global};
use strided::Si;
use vset::{AbsFlags, Part, ValueSet};

/// What the entry's return slot holds: no address of code.
const HALT: u32 = 0xFFFF_0000;

/// A byte of the image, unless it may be any.
fn byte(image: &Image, address: u32) -> Option<u32>
    ensures value { result ≡ byte_at_spec image.now address }
    ensures below { IfSome result (λ b. b < 256) }
{
    match image.byte_at(address) {
        None => None,
        Some(byte) => Some(u32::from(byte)),
    }
}

/// The number of one, two or four bytes of the image, unless one of them may be any.
#[tactic(auto, unfolding(ia32_semantics::specs::State::bytes_at, ia32_semantics::specs::State::little_endian))]
fn image_number(image: &Image, start: u32, bytes: u32) -> Option<u32>
    requires few { (bytes ≡ 1) ⊎ ((bytes ≡ 2) ⊎ (bytes ≡ 4)) }
    requires low { start < 2 ^ 31 }
    ensures { result ≡ option_map little_endian (bytes_at (byte_at_spec image.now) start bytes) }
{
    let first = byte(image, start)?;
    if bytes == 1 {
        return Some(first);
    }
    let second = byte(image, start + 1)?;
    if bytes == 2 {
        return Some(first + 0x100 * second);
    }
    let third = byte(image, start + 2)?;
    let fourth = byte(image, start + 3)?;
    Some(first + 0x100 * (second + 0x100 * (third + 0x100 * fourth)))
}

fn number_or_top(number: Option<u32>) -> ValueSet
    ensures { result ≡ number_or_top_spec number }
{
    match number {
        None => ValueSet::top(),
        Some(n) => word_number(n),
    }
}

/// What a cell of the image holds at first.
fn image_value(image: &Image, cell: &Cell) -> ValueSet
    requires { pos 0 ≤ℤ cell.now.start }
    ensures { result ≡ image_value_spec image.now cell.now }
{
    match number_length(cell) {
        None => ValueSet::top(),
        Some(bytes) => number_or_top(image_number(image, cell.start as u32, bytes)),
    }
}

/// What a cell holds at first.
fn first_value(image: &Image, entry: u32, cell: &Cell) -> ValueSet
    requires { same_region cell.now.region region.Global ≡ true → pos 0 ≤ℤ cell.now.start }
    ensures { result ≡ first_value_spec image.now entry cell.now }
{
    let slot = Cell {
        region: RegionId::Frame(entry),
        start: 0,
        end: 4,
    };
    if cell.region == RegionId::Global {
        image_value(image, cell)
    } else if slot == *cell {
        word_number(HALT)
    } else {
        ValueSet::top()
    }
}

/// What some cells hold at first.
fn first_entries(
    alloc: Global,
    image: &Image,
    entry: u32,
    found: &[Cell],
) -> Result<Vec<CellValue>, AllocError>
    requires { (c : Cell) → Contains found.now c → same_region c.region region.Global ≡ true → pos 0 ≤ℤ c.start }
    ensures { IfOk result (λ v. v.items ≡ news_of (λ c. true) (first_value_spec image.now entry) found.now) }
{
    let mut out = Vec::new(alloc);
    for i in 0..found.len() {
        let cell = element(found, i);
        let value = first_value(image, entry, &cell);
        out.push(CellValue { cell, value })?;
    }
    Ok(out)
}

/// The cells of the image, and the entry's return slot where it is one.
fn first_cells(
    alloc: Global,
    cells: &Cells,
    image: &Image,
    entry: u32,
) -> Result<Vec<Cell>, AllocError>
    requires image { IsImage image.now }
    requires cells { AreOfImage image.now.segments cells.now.image }
    ensures low { IfOk result (λ v. (c : Cell) → Contains v.items c → same_region c.region region.Global ≡ true → pos 0 ≤ℤ c.start) }
    ensures same { IfOk result (λ v. (c : Cell) → Contains v.items c ↔ Contains (first_cells_spec cells.now entry) c) }
{
    let mut found = cells.touching(alloc, RegionId::Global, &Si::one(0), 1 << 31)?;
    match cell_at(cells, RegionId::Frame(entry), 0, 4) {
        None => Ok(found),
        Some(slot) => {
            found.push(slot)?;
            Ok(found)
        }
    }
}

/// The stack pointer at an entry.
#[tactic(auto, unfolding(vset::specs::Values::settled))]
fn stack_start(entry: u32) -> ValueSet
    ensures { result ≡ Parts (part (region.Frame entry) (one (pos 0)) ∷ []) }
{
    ValueSet::one(Part {
        region: RegionId::Frame(entry),
        si: Si::one(0),
    })
}

impl AbsState {
    /// What is known where a run of an image starts at an entry.
    pub fn initial(
        alloc: Global,
        cells: &Cells,
        image: &Image,
        entry: u32,
    ) -> Result<AbsState, AllocError>
        requires image { IsImage image.now }
        requires cells { AreOfImage image.now.segments cells.now.image }
        ensures { IfOk result (λ s. seen s ≡ initial_state image.now cells.now entry) }
    {
        let mut registers = Registers::unknown(alloc)?;
        registers.set(Reg::Esp, stack_start(entry));
        let found = first_cells(alloc, cells, image, entry)?;
        let entries = first_entries(alloc, image, entry, found.as_slice())?;
        let mut first = CellMap::new(alloc);
        put_all(&mut first, entries.as_slice())?;
        let live = Items::from_slice(alloc, &[entry])?;
        let base = Known {
            region: RegionId::Frame(entry),
            number: 12,
        };
        let aligns = Items::from_slice(alloc, &[base])?;
        Ok(AbsState {
            registers,
            flags: AbsFlags {
                zero: FlagSet::all(),
                one: FlagSet::arithmetic(),
            },
            cells: first,
            live,
            older: Items::new(alloc),
            links: Items::new(alloc),
            aligns,
            blocks: Items::new(alloc),
            fact: None,
            root: entry,
        })
    }
}
