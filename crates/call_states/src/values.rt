//! Every value of a state changed alike, and cells that are lost.

ghost use Rattle.std.specs.Prelude.{◌≡◌, ◌&&◌, ◌+ℤ◌, pos, int_lt, if◌then◌else◌, length, map, List, IfOk, OnOk};
ghost use Rattle.vset.specs.Values.{Values, Top};
ghost use Rattle.abs_steps.specs.Calls.{with_values as with_values_spec, cleared, is_in as is_in_spec, lies_below as lies_below_spec};
ghost use Rattle.abs_state.specs.Views.{seen};
ghost use Rattle.call_states.specs.Values.{renamed as renamed_spec, is_lost as is_lost_spec};

use abs_semantics::CellValue;
use abs_state::{AbsState, Registers};
use cell_map::Change;
use image_map::{Cell, RegionId};
use std::alloc::{AllocError, Global};
use vset::ValueSet;

/// What becomes of the values of a region.
#[derive(Clone, Copy)]
pub(crate) enum Renaming {
    /// Offsets in the first region are offsets in the second.
    Aged(RegionId, RegionId),
    /// Offsets in the first region may be offsets in the second.
    Also(RegionId, RegionId),
    /// A value with offsets in the region may be every value.
    Dropped(RegionId),
}

impl Renaming {
    fn of(&self, alloc: Global, value: &ValueSet) -> Result<ValueSet, AllocError>
        ensures { IfOk result (λ v. v ≡ renamed_spec self.now value.now) }
    {
        match self {
            Renaming::Aged(young, old) => value.age(alloc, young, old),
            Renaming::Also(old, young) => value.also(alloc, old, young),
            Renaming::Dropped(region) => value.drop_region(alloc, region),
        }
    }
}

impl Change for Renaming {
    ghost use Rattle.call_states.specs.Values.{renamed as renamed_spec};

    ghost given = { λ r c v. renamed_spec r v };

    fn value(&self, alloc: Global, entry: &CellValue) -> Result<Option<ValueSet>, AllocError> {
        let value = self.of(alloc, &entry.value)?;
        Ok(Some(value))
    }
}

fn renamed_registers(
    alloc: Global,
    renaming: &Renaming,
    values: &[ValueSet],
) -> Result<Vec<ValueSet>, AllocError>
    ensures { IfOk result (λ v. v.items ≡ map (renamed_spec renaming.now) values.now) }
{
    let mut out = Vec::new(alloc);
    for value in values {
        let value = renaming.of(alloc, value)?;
        out.push(value)?;
    }
    Ok(out)
}

/// Each value that registers and cells have is renamed.
pub(crate) fn rename(alloc: Global, a: &mut AbsState, renaming: &Renaming) -> Result<(), AllocError>
    ensures { OnOk result (seen a.new ≡ with_values_spec (renamed_spec renaming.now) (seen a.old)) }
{
    let registers = renamed_registers(alloc, renaming, a.registers.values())?;
    a.registers = Registers::new(registers);
    a.cells.change(alloc, renaming)?;
    Ok(())
}

/// Cells that may hold every value afterwards.
#[derive(Clone, Copy)]
pub(crate) enum Lost {
    /// All of a region.
    All(RegionId),
    /// Those of a region with a byte below an offset.
    Below(RegionId, i64),
}

fn is_less(a: i64, b: i64) -> bool
    ensures { result ≡ int_lt a b }
{
    a < b
}

impl Lost {
    fn has(&self, cell: &Cell) -> bool
        ensures { result ≡ is_lost_spec self.now cell.now }
    {
        match self {
            Lost::All(region) => cell.region == *region,
            Lost::Below(region, limit) => {
                cell.region == *region && is_less(i64::from(cell.start), *limit)
            }
        }
    }
}

impl Change for Lost {
    ghost use Rattle.std.specs.Prelude.{if◌then◌else◌};
    ghost use Rattle.vset.specs.Values.{Top};
    ghost use Rattle.call_states.specs.Values.{is_lost as is_lost_spec};

    ghost given = { λ x c v. if is_lost_spec x c then Top else v };

    fn value(&self, _: Global, entry: &CellValue) -> Result<Option<ValueSet>, AllocError> {
        Ok(if self.has(&entry.cell) {
            Some(ValueSet::top())
        } else {
            None
        })
    }
}

/// Some cells may hold every value.
pub(crate) fn clear(alloc: Global, a: &mut AbsState, lost: &Lost) -> Result<(), AllocError>
    ensures { OnOk result (seen a.new ≡ cleared (is_lost_spec lost.now) (seen a.old)) }
{
    a.cells.change(alloc, lost)?;
    Ok(())
}
