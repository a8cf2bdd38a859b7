//! The type of rising lists of cells with what they may hold.

ghost use Rattle.std.specs.Prelude.{◌≡◌, ◌↔◌, ◌++◌, [], filter, IfOk, OnOk, OnErr, IsTrue, not};
ghost use Rattle.image_map.specs.declared.region.Cell.{Cell};
ghost use Rattle.abs_semantics.specs.declared.parts.CellValue.{CellValue};
ghost use Rattle.abs_semantics.specs.States.{value_in, with_value, rebuilt};
ghost use Rattle.abs_semantics.specs.Start.{is_top};
ghost use Rattle.cell_map.specs.Lists.{AreRising};
ghost use Rattle.cell_map.specs.Merges.{value_of_both, first_value as first_value_spec, are_below as are_below_spec};

use crate::below::are_below;
use crate::change::{Change, change_all};
use crate::merge::{merge, rest};
use crate::place::{keep_known, place_of, put_entry};
use crate::regions::{Regions, Rule};
use crate::same::are_same;
use abs_semantics::CellValue;
use image_map::Cell;
use std::alloc::{AllocError, Global};
use std::marker::Model;
use vset::ValueSet;

/// What cells may hold, rising by cell. A cell that isn't among them may hold every value.
#[derive(Drop)]
pub struct CellMap {
    entries: Vec<CellValue>,
}

impl Model for CellMap {
    ghost use Rattle.std.specs.Prelude.{List};
    ghost use Rattle.abs_semantics.specs.declared.parts.CellValue.{CellValue};
    ghost use Rattle.cell_map.specs.Lists.{AreRising};

    ghost Value = { List CellValue };

    ghost view = { λ m. m.entries.items };

    ghost invariant = { λ m. AreRising m.entries.items };
}

impl CellMap {
    /// No cell.
    pub fn new(alloc: Global) -> CellMap
        ensures { result ≡ [] }
    {
        CellMap {
            entries: Vec::new(alloc),
        }
    }

    /// The cells that are listed, rising.
    pub fn entries(&self) -> &[CellValue]
        ensures value { result.now ≡ self.now }
        ensures rising { AreRising result.now }
    {
        self.entries.as_slice()
    }

    /// The cells of two states made anew, each with what the rule gives it, in one pass.
    pub fn merge(
        &self,
        alloc: Global,
        rule: &Rule<'_>,
        other: &CellMap,
    ) -> Result<CellMap, AllocError>
        ensures { IfOk result (λ m. m ≡ rebuilt (λ (c : Cell). value_of_both rule.now.both rule.now.first rule.now.second c (value_in c self.now) (value_in c other.now)) (self.now ++ other.now)) }
    {
        let entries = merge(alloc, rule, self.entries(), other.entries())?;
        Ok(CellMap { entries })
    }

    /// Whether each cell of the other, of a region that this state has, may hold what it may hold here. One pass.
    pub fn below(&self, regions: &Regions<'_>, other: &CellMap) -> bool
        ensures { result ≡ are_below_spec regions.now self.now other.now }
    {
        are_below(regions, self.entries(), other.entries())
    }

    /// What a cell may hold.
    pub fn value(&self, cell: &Cell) -> Result<ValueSet, AllocError>
        ensures { IfOk result (λ v. v ≡ value_in cell.now self.now) }
    {
        let entries = self.entries();
        first_value(rest(entries, place_of(entries, cell)), cell)
    }

    /// Puts a value where the order wants it, over the one that the cell has. Every value stands nowhere, and changes nothing.
    pub fn put(&mut self, cell: &Cell, value: ValueSet) -> Result<(), AllocError>
        ensures ok { OnOk result (self.new ≡ with_value cell.now value self.old) }
        ensures err { OnErr result (self.new ≡ self.old) }
    {
        if value.parts().is_none() {
            return Ok(());
        }
        put_entry(&mut self.entries, CellValue { cell: *cell, value })
    }

    /// Gives each cell that is listed the value that a change gives it, in one pass.
    pub fn change<C: Change>(&mut self, alloc: Global, change: &C) -> Result<(), AllocError>
        ensures { OnOk result (self.new ≡ rebuilt (λ (c : Cell). C.given change.now c (value_in c self.old)) self.old) }
    {
        change_all(alloc, change, &mut self.entries)?;
        keep_known(&mut self.entries);
        Ok(())
    }

    /// Takes away the cells that may hold every value.
    pub fn normalise(&mut self)
        ensures { self.new ≡ filter (λ (e : CellValue). not (is_top e.value)) self.old }
    {
        keep_known(&mut self.entries);
    }

    /// Whether both are the same.
    pub fn equals(&self, other: &CellMap) -> bool
        ensures { IsTrue result ↔ (self.now ≡ other.now) }
    {
        are_same(self.entries(), other.entries())
    }
}

fn first_value(es: &[CellValue], cell: &Cell) -> Result<ValueSet, AllocError>
    ensures { IfOk result (λ v. v ≡ first_value_spec cell.now es.now) }
{
    match es {
        [e, ..] if e.cell == *cell => e.value.clone(),
        _ => Ok(ValueSet::top()),
    }
}

impl Clone for CellMap {
    ghost is_clone = { λ m clone. clone ≡ m };

    fn clone(&self) -> Result<CellMap, AllocError> {
        let entries = Vec::from_clones(*self.entries.allocator(), self.entries.as_slice())?;
        Ok(CellMap { entries })
    }
}
