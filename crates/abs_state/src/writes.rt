//! What writes to memory leave in abstract states.

ghost use Rattle.std.specs.Prelude.{◌≡◌, ◌&&◌, IfOk, OnOk};
ghost use Rattle.abs_semantics.specs.States.{value_at};
ghost use Rattle.abs_semantics.specs.Touching.{sure_place as sure_place_spec};
ghost use Rattle.abs_semantics.specs.Accesses.{lasts as lasts_spec, untouched_fact as untouched_fact_spec, overwritten as overwritten_spec, written_there, written_by, overwritten_anywhere as overwritten_anywhere_spec, may_change as may_change_spec, write as write_spec};
ghost use Rattle.abs_state.specs.Views.{seen};
ghost use Rattle.abs_state.specs.Puts.{folded};
ghost use Rattle.abs_state.specs.Writes.{news_of, put_value};

use crate::reads::{cell_at, element, sure_entries};
use crate::state::AbsState;
use crate::touching::{any_crosses, any_touches, is_range, may_change, sure_place, touches};
use abs_semantics::CellValue;
use alocs::Cells;
use cell_map::{CellMap, Change, held_by};
use image_map::{Cell, Image};
use std::alloc::{AllocError, Global};
use vset::{CmpFact, CmpPlace, Part, ValueSet};

/// A write: which cells it touches, and what they hold afterwards.
pub(crate) trait Write {
    ghost use Rattle.std.specs.Prelude.{Bool};
    ghost use Rattle.image_map.specs.declared.region.Cell.{Cell};
    ghost use Rattle.vset.specs.Values.{Values};

    ghost touched: { Self → Cell → Bool };

    /// What a cell holds that is touched and held a value.
    ghost given: { Self → Cell → Values → Values };

    fn touches(&self, cell: &Cell) -> bool
        ensures { result ≡ touched self.now cell.now };

    fn value(&self, alloc: Global, cell: &Cell, old: &ValueSet) -> Result<ValueSet, AllocError>
        ensures { IfOk result (λ v. v ≡ given self.now cell.now old.now) };
}

/// Whether a write changes a cell.
fn changes<W: Write>(image: &Image, write: &W, cell: &Cell) -> bool
    ensures { result ≡ (W.touched write.now cell.now && may_change_spec image.now cell.now) }
{
    write.touches(cell) && may_change(image, cell)
}

/// A write to the memory of an image, which leaves cells outside the segments that may be written.
#[derive(Drop)]
struct Overwriting<'a, W> {
    image: &'a Image,
    write: &'a W,
}

impl<'a, W: Write> Change for Overwriting<'a, W> {
    ghost use Rattle.std.specs.Prelude.{◌&&◌, if◌then◌else◌};
    ghost use Rattle.abs_semantics.specs.Accesses.{may_change as may_change_spec};

    ghost given = { λ s c v. if W.touched s.write.now c && may_change_spec s.image.now c then W.given s.write.now c v else v };

    fn value(&self, alloc: Global, entry: &CellValue) -> Result<Option<ValueSet>, AllocError> {
        if changes(self.image, self.write, &entry.cell) {
            let value = self.write.value(alloc, &entry.cell, &entry.value)?;
            Ok(Some(value))
        } else {
            Ok(None)
        }
    }
}

/// The bytes of one place and no others.
#[derive(Drop)]
struct There<'a> {
    len: u32,
    place: Part,
    value: &'a ValueSet,
}

impl Write for There<'_> {
    ghost use Rattle.abs_semantics.specs.Touching.{touches as touches_spec};
    ghost use Rattle.abs_semantics.specs.Accesses.{value_if_range};

    ghost touched = { λ s c. touches_spec s.len c s.place };

    ghost given = { λ s c v. value_if_range s.len s.place s.value.now c };

    fn touches(&self, cell: &Cell) -> bool {
        touches(self.len, cell, &self.place)
    }

    fn value(&self, _: Global, cell: &Cell, _: &ValueSet) -> Result<ValueSet, AllocError> {
        if is_range(self.len, cell, &self.place.si) {
            Ok(held_by(cell, self.value.clone()?))
        } else {
            Ok(ValueSet::top())
        }
    }
}

/// The bytes of one of some places.
#[derive(Drop)]
struct Somewhere<'a> {
    len: u32,
    places: &'a [Part],
    value: &'a ValueSet,
}

impl Write for Somewhere<'_> {
    ghost use Rattle.std.specs.Prelude.{if◌then◌else◌};
    ghost use Rattle.vset.specs.Values.{Top};
    ghost use Rattle.vset.specs.Operations.{join};
    ghost use Rattle.abs_semantics.specs.Joins.{held_by as held_by_spec};
    ghost use Rattle.abs_semantics.specs.Touching.{any_touches as any_touches_spec, any_crosses as any_crosses_spec};

    ghost touched = { λ s c. any_touches_spec s.len s.places.now c };

    ghost given = { λ s c v. if any_crosses_spec s.len s.places.now c then Top else held_by_spec c (join v s.value.now) };

    fn touches(&self, cell: &Cell) -> bool {
        any_touches(self.len, self.places, cell)
    }

    fn value(&self, alloc: Global, cell: &Cell, old: &ValueSet) -> Result<ValueSet, AllocError> {
        if any_crosses(self.len, self.places, cell) {
            Ok(ValueSet::top())
        } else {
            Ok(held_by(cell, old.join(alloc, self.value)?))
        }
    }
}

/// All that a write may change.
#[derive(Drop)]
struct Anywhere<'a> {
    image: &'a Image,
}

impl Write for Anywhere<'_> {
    ghost use Rattle.vset.specs.Values.{Top};
    ghost use Rattle.abs_semantics.specs.Accesses.{may_change as may_change_spec};

    ghost touched = { λ s c. may_change_spec s.image.now c };

    ghost given = { λ s c v. Top };

    fn touches(&self, cell: &Cell) -> bool {
        may_change(self.image, cell)
    }

    fn value(&self, _: Global, _: &Cell, _: &ValueSet) -> Result<ValueSet, AllocError> {
        Ok(ValueSet::top())
    }
}

/// Whether a place isn't touched.
fn lasts<W: Write>(write: &W, place: &CmpPlace) -> bool
    ensures { result ≡ lasts_spec (W.touched write.now) place.now }
{
    match place {
        CmpPlace::Reg(_) => true,
        CmpPlace::Cell(cell) => !write.touches(cell),
    }
}

/// What is known of the last comparison, where its place isn't touched.
fn untouched_fact<W: Write>(write: &W, fact: &Option<CmpFact>) -> Option<CmpFact>
    ensures { result ≡ untouched_fact_spec (W.touched write.now) fact.now }
{
    match fact {
        Some(fact) if lasts(write, &fact.place) => Some(*fact),
        _ => None,
    }
}

/// Puts a cell among others.
fn put(cells: &mut CellMap, e: &CellValue) -> Result<(), AllocError>
    ensures { OnOk result (cells.new ≡ put_value e.now cells.old) }
{
    cells.put(&e.cell, e.value.clone()?)
}

/// Puts some cells among others.
pub(crate) fn put_all(cells: &mut CellMap, news: &[CellValue]) -> Result<(), AllocError>
    ensures { OnOk result (cells.new ≡ folded put_value news.now cells.old) }
{
    let mut rest = news;
    while let Some((e, before)) = rest.split_last() {
        put(cells, e)?;
        rest = before;
    }
    Ok(())
}

/// How memory is seen at a node of a procedure.
#[derive(Drop)]
pub struct Memory<'a> {
    pub cells: &'a Cells,
    pub image: &'a Image,
    pub procedure: u32,
}

impl AbsState {
    /// What cells that may hold something new are given.
    fn news<W: Write>(
        &self,
        alloc: Global,
        image: &Image,
        write: &W,
        more: &[Cell],
    ) -> Result<Vec<CellValue>, AllocError>
        ensures { IfOk result (λ v. v.items ≡ news_of (λ c. W.touched write.now c && may_change_spec image.now c) (λ c. W.given write.now c (value_at (seen self.now) c)) more.now) }
    {
        let mut out = Vec::new(alloc);
        for i in 0..more.len() {
            let cell = element(more, i);
            if !changes(image, write, &cell) {
                continue;
            }
            let value = write.value(alloc, &cell, &self.value_at(&cell)?)?;
            out.push(CellValue { cell, value })?;
        }
        Ok(out)
    }

    /// The state after a write. The cells that held nothing and may now are listed.
    pub(crate) fn overwrite<W: Write>(
        &mut self,
        alloc: Global,
        image: &Image,
        write: &W,
        more: &[Cell],
    ) -> Result<(), AllocError>
        ensures { OnOk result (seen self.new ≡ overwritten_spec image.now (seen self.old) (W.touched write.now) (λ c. W.given write.now c (value_at (seen self.old) c)) more.now) }
    {
        let news = self.news(alloc, image, write, more)?;
        self.cells.change(alloc, &Overwriting { image, write })?;
        put_all(&mut self.cells, news.as_slice())?;
        self.fact = untouched_fact(write, &self.fact);
        Ok(())
    }

    /// The state after a write to one place of one thing.
    fn write_there(
        &mut self,
        alloc: Global,
        memory: &Memory<'_>,
        write: &There<'_>,
    ) -> Result<(), AllocError>
        ensures { OnOk result (seen self.new ≡ written_there memory.now.image.now (seen self.old) memory.now.cells.now write.now.len write.now.value.now write.now.place) }
    {
        let place = write.place;
        match cell_at(memory.cells, place.region, place.si.lo(), write.len) {
            None => self.overwrite(alloc, memory.image, write, &[]),
            Some(cell) => self.overwrite(alloc, memory.image, write, &[cell]),
        }
    }

    /// All cells that a write may change may hold every value.
    pub(crate) fn overwrite_anywhere(
        &mut self,
        alloc: Global,
        image: &Image,
    ) -> Result<(), AllocError>
        ensures { OnOk result (seen self.new ≡ overwritten_anywhere_spec image.now (seen self.old)) }
    {
        self.overwrite(alloc, image, &Anywhere { image }, &[])
    }

    /// The state after a write to places that are known.
    fn write_to(
        &mut self,
        alloc: Global,
        memory: &Memory<'_>,
        write: &Somewhere<'_>,
    ) -> Result<(), AllocError>
        ensures { OnOk result (seen self.new ≡ written_by memory.now.image.now (seen self.old) memory.now.cells.now write.now.len write.now.value.now write.now.places.now (sure_place_spec write.now.places.now)) }
    {
        match sure_place(write.places) {
            None => self.overwrite(alloc, memory.image, write, &[]),
            Some(place) => self.write_there(
                alloc,
                memory,
                &There {
                    len: write.len,
                    place,
                    value: write.value,
                },
            ),
        }
    }

    /// Writes `len` bytes that hold a value to an address.
    pub fn write(
        &mut self,
        alloc: Global,
        memory: &Memory<'_>,
        address: &ValueSet,
        len: u32,
        value: &ValueSet,
    ) -> Result<(), AllocError>
        ensures { OnOk result (seen self.new ≡ write_spec (seen self.old) memory.now.cells.now memory.now.image.now memory.now.procedure address.now len value.now) }
    {
        let places = self.resolve(alloc, memory.procedure, address, len)?;
        match sure_entries(places) {
            None => self.overwrite_anywhere(alloc, memory.image),
            Some(entries) => self.write_to(
                alloc,
                memory,
                &Somewhere {
                    len,
                    places: entries.as_slice(),
                    value,
                },
            ),
        }
    }
}
