//! Reads and writes of many bytes at once.

ghost use Rattle.std.specs.Prelude.{ℕ, ◌≡◌, ◌≤◌, ◌/◌, ◌*◌, ◌%◌, ◌^◌, ◌<◌, ◌⊎◌, true, pos, ◌≤ℤ◌, ◌<ℤ◌, ◌+ℤ◌, None, Some, int_le, int_lt, filter, IfOk, IfSome, OnOk};
ghost use Rattle.std.specs.Int.{int_gap};
ghost use Rattle.image_map.specs.declared.region.RegionId.TheVariants as region;
ghost use Rattle.strided.specs.Interval.{IsCanonical, greatest};
ghost use Rattle.alocs.specs.Cells.{Division, cells_of};
ghost use Rattle.ia32_types.specs.Numbers.{size};
ghost use Rattle.ia32_semantics.specs.State.{little_endian};
ghost use Rattle.abs_semantics.specs.Touching.{cell_at as cell_at_spec, is_within as is_within_spec, overlap as overlap_spec, sure_place as sure_place_spec};
ghost use Rattle.abs_semantics.specs.Ranges.{value_of_cell as value_of_cell_spec, lone_range as lone_range_spec, read_range as read_range_spec, repeated as repeated_spec, is_clear as is_clear_spec, stored as stored_spec, range_written_there, range_written_by, write_range as write_range_spec};
ghost use Rattle.abs_state.specs.Ranges.{AreWithin, IsInReach, held_in, number_length as number_length_spec, stored_as};
ghost use Rattle.abs_state.specs.Views.{seen};

use crate::reads::{cell_at, sure_entries};
use crate::state::AbsState;
use crate::touching::{any_touches, lone_place, sure_place, touches};
use crate::writes::{Memory, Write};
use abs_results::word_number;
use abs_semantics::RangeValue;
use alocs::Cells;
use cell_map::{has_length, held_by};
use ia32_types::Width;
use image_map::{Cell, RegionId};
use std::alloc::{AllocError, Global};
use std::marker::Model;
use vset::{Part, ValueSet};

/// Some bytes of a range.
#[derive(Clone, Copy)]
pub struct Piece {
    /// How many bytes the range has.
    pub len: u32,
    /// How far from the start of the range.
    pub distance: u32,
    /// How many.
    pub bytes: u32,
}

fn is_at_most(a: i32, b: i32) -> bool
    ensures { result ≡ int_le a b }
{
    a <= b
}

fn ends_by(end: i32, start: i32, len: u32) -> bool
    ensures { result ≡ int_le end (start +ℤ pos len) }
{
    i64::from(end) <= i64::from(start) + i64::from(len)
}

fn starts_below(a: i32, start: i32, len: u32) -> bool
    ensures { result ≡ int_lt a (start +ℤ pos len) }
{
    i64::from(a) < i64::from(start) + i64::from(len)
}

/// Whether a cell lies within the range from a part's one offset.
fn is_within(len: u32, x: &Part, cell: &Cell) -> bool
    ensures { result ≡ is_within_spec len x.now cell.now }
{
    x.region == cell.region
        && is_at_most(x.si.lo(), cell.start)
        && ends_by(cell.end, x.si.lo(), len)
}

/// Whether the ranges from two parts' one offsets share a byte.
fn overlap(len: u32, x: &Part, y: &Part) -> bool
    ensures { result ≡ overlap_spec len x.now y.now }
{
    x.region == y.region
        && starts_below(x.si.lo(), y.si.lo(), len)
        && starts_below(y.si.lo(), x.si.lo(), len)
}

fn is_clear(len: u32, target: &Part, source: &Option<Part>) -> bool
    ensures { result ≡ is_clear_spec len target.now source.now }
{
    match source {
        None => false,
        Some(source) => !overlap(len, source, target),
    }
}

/// The offset so many bytes behind another, unless it is too great for one.
fn offset_behind(start: i32, distance: u32) -> Option<i32>
    ensures some { IfSome result (λ o. o ≡ start +ℤ pos distance) }
    ensures none { result ≡ None → greatest <ℤ (start +ℤ pos distance) }
{
    let offset = i64::from(start) + i64::from(distance);
    if i64::from(i32::MAX) < offset {
        None
    } else {
        Some(offset as i32)
    }
}

/// The cell that is so many bytes, at a distance from an offset of a region.
fn cell_behind(cells: &Cells, place: &Part, piece: Piece) -> Option<Cell>
    requires { place.now.region ≡ region.Global → (place.now.si.lo +ℤ pos piece.distance) ≤ℤ greatest }
    ensures { result ≡ cell_at_spec cells.now place.now.region (place.now.si.lo +ℤ pos piece.distance) piece.bytes }
{
    match offset_behind(place.si.lo(), piece.distance) {
        None => None,
        Some(offset) => cell_at(cells, place.region, offset, piece.bytes),
    }
}

/// The byte of a number of a width that is stored over and over, at a distance from its start.
fn byte_of(width: Width, number: u32, distance: u64) -> u32
    ensures value { result ≡ number / 2 ^ (8 * (distance % size width)) % 256 }
    ensures below { result < 256 }
{
    let shift = 8 * (distance % u64::from(width.bytes()));
    (number >> shift) % 0x100
}

/// What a range holds at a distance from its start, for cells of one, two and four bytes.
fn repeated_word(width: Width, number: u32, distance: u64, bytes: u32) -> u32
    requires few { (bytes ≡ 1) ⊎ ((bytes ≡ 2) ⊎ (bytes ≡ 4)) }
    requires near { distance < 2 ^ 32 }
    ensures { result ≡ little_endian (repeated_spec (size width) number distance bytes) }
{
    let first = byte_of(width, number, distance);
    if bytes == 1 {
        return first;
    }
    let next = distance + 1;
    let second = byte_of(width, number, next);
    if bytes == 2 {
        return first + 0x100 * second;
    }
    let after = next + 1;
    let third = byte_of(width, number, after);
    let fourth = byte_of(width, number, after + 1);
    first + 0x100 * (second + 0x100 * (third + 0x100 * fourth))
}

/// How far an offset is from one that isn't above it.
#[tactic(auto, using(strided::proofs::SpacedLemmas::gap_is))]
fn gap(low: i32, high: i32) -> u32
    requires { low ≤ℤ high }
    ensures { result ≡ int_gap low high }
{
    (i64::from(high) - i64::from(low)) as u32
}

/// How many bytes a cell has, where numbers may be kept in it: one, two or four.
pub(crate) fn number_length(cell: &Cell) -> Option<u32>
    ensures value { result ≡ number_length_spec cell.now }
    ensures few { IfSome result (λ n. (n ≡ 1) ⊎ ((n ≡ 2) ⊎ (n ≡ 4))) }
{
    if has_length(1, cell) {
        return Some(1);
    }
    if has_length(2, cell) {
        return Some(2);
    }
    if has_length(4, cell) {
        return Some(4);
    }
    None
}

/// What a range holds after a write, where the bytes that are copied are those of a place of the state before it.
#[derive(Drop)]
enum Stored {
    Any,
    Number(u32, Width),
    /// The place, where it is one alone that doesn't touch the range.
    Copy(Option<Part>),
}

/// What the bytes of a range at a place hold.
#[derive(Drop)]
struct Filled {
    len: u32,
    place: Part,
    stored: Stored,
}

impl Model for Filled {
    ghost use Rattle.abs_state.specs.Ranges.{Filling, IsInReach};

    ghost Value = { Filling };

    ghost view = { λ f. record { len = f.len; place = f.place; stored = f.stored } };

    ghost invariant = { λ f. IsInReach f.len f.stored };
}

impl Filled {
    fn new(len: u32, place: Part, stored: Stored) -> Filled
        requires { IsInReach len stored }
        ensures { result ≡ record { len = len; place = place; stored = stored } }
    {
        Filled { len, place, stored }
    }

    fn len(&self) -> u32
        ensures { result ≡ self.now.len }
    {
        self.len
    }

    fn place(&self) -> &Part
        ensures { result.now ≡ self.now.place }
    {
        &self.place
    }

    /// What some bytes of the range hold, of which there are one, two or four.
    fn value(&self, before: &AbsState, cells: &Cells, piece: Piece) -> Result<ValueSet, AllocError>
        requires few { (piece.bytes ≡ 1) ⊎ ((piece.bytes ≡ 2) ⊎ (piece.bytes ≡ 4)) }
        requires within { piece.distance ≤ self.now.len }
        ensures { IfOk result (λ v. v ≡ stored_as (seen before.now) cells.now self.now.stored piece.distance piece.bytes) }
    {
        match &self.stored {
            Stored::Any => Ok(ValueSet::top()),
            Stored::Number(number, width) => Ok(word_number(repeated_word(
                *width,
                *number,
                u64::from(piece.distance),
                piece.bytes,
            ))),
            Stored::Copy(None) => Ok(ValueSet::top()),
            Stored::Copy(Some(place)) => before.value_behind(cells, place, piece),
        }
    }
}

/// A write to the bytes of a range at one place and no others.
#[derive(Drop)]
struct Within<'a> {
    before: &'a AbsState,
    cells: &'a Cells,
    filled: Filled,
}

impl Within<'_> {
    /// What a cell within the range holds.
    fn held(&self, cell: &Cell) -> Result<ValueSet, AllocError>
        requires { is_within_spec self.now.filled.len self.now.filled.place cell.now ≡ true }
        ensures { IfOk result (λ v. v ≡ held_in (seen self.now.before.now) self.now.cells.now self.now.filled cell.now) }
    {
        match number_length(cell) {
            None => Ok(ValueSet::top()),
            Some(bytes) => self.held_bytes(cell, bytes),
        }
    }

    /// The same of a cell of one, two or four bytes.
    fn held_bytes(&self, cell: &Cell, bytes: u32) -> Result<ValueSet, AllocError>
        requires within { is_within_spec self.now.filled.len self.now.filled.place cell.now ≡ true }
        requires few { (bytes ≡ 1) ⊎ ((bytes ≡ 2) ⊎ (bytes ≡ 4)) }
        requires length { bytes ≡ int_gap cell.now.start cell.now.end }
        ensures { IfOk result (λ v. v ≡ held_in (seen self.now.before.now) self.now.cells.now self.now.filled cell.now) }
    {
        let piece = Piece {
            len: self.filled.len(),
            distance: gap(self.filled.place().si.lo(), cell.start),
            bytes,
        };
        let value = self.filled.value(self.before, self.cells, piece)?;
        Ok(held_by(cell, value))
    }
}

impl Write for Within<'_> {
    ghost use Rattle.std.specs.Prelude.{if◌then◌else◌};
    ghost use Rattle.vset.specs.Values.{Top};
    ghost use Rattle.abs_semantics.specs.Touching.{touches as touches_spec, is_within as is_within_spec};
    ghost use Rattle.abs_state.specs.Ranges.{held_in};
    ghost use Rattle.abs_state.specs.Views.{seen};

    ghost touched = { λ s c. touches_spec s.filled.len c s.filled.place };

    ghost given = { λ s c v. if is_within_spec s.filled.len s.filled.place c then held_in (seen s.before.now) s.cells.now s.filled c else Top };

    fn touches(&self, cell: &Cell) -> bool {
        touches(self.filled.len(), cell, self.filled.place())
    }

    fn value(&self, _: Global, cell: &Cell, _: &ValueSet) -> Result<ValueSet, AllocError> {
        if is_within(self.filled.len(), self.filled.place(), cell) {
            self.held(cell)
        } else {
            Ok(ValueSet::top())
        }
    }
}

/// A write to one of some ranges, of which no cell is known to hold anything afterwards.
#[derive(Drop)]
struct Lost<'a> {
    len: u32,
    places: &'a [Part],
}

impl Write for Lost<'_> {
    ghost use Rattle.vset.specs.Values.{Top};
    ghost use Rattle.abs_semantics.specs.Touching.{any_touches as any_touches_spec};

    ghost touched = { λ s c. any_touches_spec s.len s.places.now c };

    ghost given = { λ s c v. Top };

    fn touches(&self, cell: &Cell) -> bool {
        any_touches(self.len, self.places, cell)
    }

    fn value(&self, _: Global, _: &Cell, _: &ValueSet) -> Result<ValueSet, AllocError> {
        Ok(ValueSet::top())
    }
}

/// Keeps the cells that lie within a range.
fn keep_within(found: &mut Vec<Cell>, len: u32, x: &Part)
    ensures { found.new.items ≡ filter (is_within_spec len x.now) found.old.items }
{
    found.retain(|cell| is_within(len, x, cell));
}

/// The cells of a region that lie within a range, but for cells without a byte.
fn cells_within(alloc: Global, cells: &Cells, len: u32, x: &Part) -> Result<Vec<Cell>, AllocError>
    requires some { 1 ≤ len }
    requires form { IsCanonical x.now.si }
    ensures { IfOk result (λ v. AreWithin len x.now (cells_of cells.now x.now.region) v.items) }
{
    let mut found = cells.touching(alloc, x.region, &x.si, len)?;
    keep_within(&mut found, len, x);
    Ok(found)
}

impl AbsState {
    /// What the cell holds that is so many bytes, at a distance from an offset of a region.
    fn value_behind(
        &self,
        cells: &Cells,
        place: &Part,
        piece: Piece,
    ) -> Result<ValueSet, AllocError>
        requires { place.now.region ≡ region.Global → (place.now.si.lo +ℤ pos piece.distance) ≤ℤ greatest }
        ensures { IfOk result (λ v. v ≡ value_of_cell_spec (seen self.now) (cell_at_spec cells.now place.now.region (place.now.si.lo +ℤ pos piece.distance) piece.bytes)) }
    {
        match cell_behind(cells, place, piece) {
            None => Ok(ValueSet::top()),
            Some(cell) => self.value_at(&cell),
        }
    }

    /// The place of a range of `len` bytes at an address, where it is one alone.
    pub fn lone_range(
        &self,
        alloc: Global,
        procedure: u32,
        address: &ValueSet,
        len: u32,
    ) -> Result<Option<Part>, AllocError>
        ensures value { IfOk result (λ r. r ≡ lone_range_spec (seen self.now) procedure address.now len) }
        ensures in_reach { IfOk result (λ r. IfSome r (λ x. x.region ≡ region.Global → (x.si.lo +ℤ pos len) ≤ℤ greatest)) }
    {
        let places = self.resolve(alloc, procedure, address, len)?;
        match sure_entries(places) {
            None => Ok(None),
            Some(entries) => Ok(lone_place(entries.as_slice())),
        }
    }

    /// What some bytes of a range at an address hold, at a node of a procedure.
    pub fn read_range(
        &self,
        alloc: Global,
        cells: &Cells,
        procedure: u32,
        address: &ValueSet,
        piece: Piece,
    ) -> Result<ValueSet, AllocError>
        requires { piece.distance ≤ piece.len }
        ensures { IfOk result (λ v. v ≡ read_range_spec (seen self.now) cells.now procedure address.now piece.len piece.distance piece.bytes) }
    {
        match self.lone_range(alloc, procedure, address, piece.len)? {
            None => Ok(ValueSet::top()),
            Some(place) => self.value_behind(cells, &place, piece),
        }
    }

    /// What a range at a place holds after a write.
    fn stored_at(
        &self,
        alloc: Global,
        procedure: u32,
        len: u32,
        place: &Part,
        value: &RangeValue,
    ) -> Result<Stored, AllocError>
        ensures value { IfOk result (λ s. (d : Division) (distance count : ℕ) → stored_as (seen self.now) d s distance count ≡ stored_spec (seen self.now) d procedure len place.now value.now distance count) }
        ensures in_reach { IfOk result (λ s. IsInReach len s) }
    {
        match value {
            RangeValue::Any => Ok(Stored::Any),
            RangeValue::Number(number, width) => Ok(Stored::Number(*number, *width)),
            RangeValue::Copy(source) => {
                let source = self.lone_range(alloc, procedure, source, len)?;
                if is_clear(len, place, &source) {
                    Ok(Stored::Copy(source))
                } else {
                    Ok(Stored::Copy(None))
                }
            }
        }
    }

    /// The state after a write to a range at one place of one thing.
    fn write_range_there(
        &mut self,
        alloc: Global,
        memory: &Memory<'_>,
        len: u32,
        place: Part,
        value: &RangeValue,
    ) -> Result<(), AllocError>
        requires some { 1 ≤ len }
        requires form { IsCanonical place.si }
        ensures { OnOk result (seen self.new ≡ range_written_there memory.now.image.now (seen self.old) memory.now.cells.now memory.now.procedure len value.now place) }
    {
        let before = self.clone()?;
        let stored = before.stored_at(alloc, memory.procedure, len, &place, value)?;
        let more = cells_within(alloc, memory.cells, len, &place)?;
        let write = Within {
            before: &before,
            cells: memory.cells,
            filled: Filled::new(len, place, stored),
        };
        self.overwrite(alloc, memory.image, &write, more.as_slice())
    }

    /// The state after a write to ranges that are known.
    fn write_range_to(
        &mut self,
        alloc: Global,
        memory: &Memory<'_>,
        lost: &Lost<'_>,
        value: &RangeValue,
    ) -> Result<(), AllocError>
        requires { 1 ≤ lost.now.len }
        ensures { OnOk result (seen self.new ≡ range_written_by memory.now.image.now (seen self.old) memory.now.cells.now memory.now.procedure lost.now.len value.now lost.now.places.now (sure_place_spec lost.now.places.now)) }
    {
        match sure_place(lost.places) {
            None => self.overwrite(alloc, memory.image, lost, &[]),
            Some(place) => self.write_range_there(alloc, memory, lost.len, place, value),
        }
    }

    /// Writes many bytes, which are at least one, to an address; it may be that it isn't known how many.
    pub fn write_range(
        &mut self,
        alloc: Global,
        memory: &Memory<'_>,
        address: &ValueSet,
        len: Option<u32>,
        value: &RangeValue,
    ) -> Result<(), AllocError>
        requires { IfSome len (λ n. 1 ≤ n) }
        ensures { OnOk result (seen self.new ≡ write_range_spec (seen self.old) memory.now.cells.now memory.now.image.now memory.now.procedure address.now len value.now) }
    {
        match len {
            None => self.overwrite_anywhere(alloc, memory.image),
            Some(len) => self.write_bytes(alloc, memory, address, len, value),
        }
    }

    /// Writes so many bytes.
    fn write_bytes(
        &mut self,
        alloc: Global,
        memory: &Memory<'_>,
        address: &ValueSet,
        len: u32,
        value: &RangeValue,
    ) -> Result<(), AllocError>
        requires { 1 ≤ len }
        ensures { OnOk result (seen self.new ≡ write_range_spec (seen self.old) memory.now.cells.now memory.now.image.now memory.now.procedure address.now (Some len) value.now) }
    {
        let places = self.resolve(alloc, memory.procedure, address, len)?;
        match sure_entries(places) {
            None => self.overwrite_anywhere(alloc, memory.image),
            Some(entries) => self.write_range_to(
                alloc,
                memory,
                &Lost {
                    len,
                    places: entries.as_slice(),
                },
                value,
            ),
        }
    }
}
