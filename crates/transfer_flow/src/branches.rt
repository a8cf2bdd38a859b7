//! The two sides of a branch.

ghost use Rattle.std.specs.Prelude.{◌≡◌, IfOk};
ghost use Rattle.ia32_types.specs.Numbers.{reg_number};
ghost use Rattle.ia32_semantics.specs.State.{put};
ghost use Rattle.vset.specs.declared.facts.CmpPlace.TheVariants.{Cell as CellPlace};
ghost use Rattle.abs_steps.specs.Flags.{may_hold as may_hold_spec};
ghost use Rattle.abs_steps.specs.Successors.{has_member as has_member_spec, place_value as place_value_spec, with_place_value as with_place_value_spec, narrowed_to as narrowed_to_spec, narrowed as narrowed_spec, side as side_spec};
ghost use Rattle.abs_state.specs.Views.{seen};
ghost use Rattle.transfer_flow.specs.States.{state_in};

use abs_cmp::refine;
use abs_results::may_hold;
use abs_semantics::CellValue;
use abs_state::AbsState;
use cell_map::Change;
use ia32_types::{Cond, Reg};
use image_map::Cell;
use std::alloc::{AllocError, Global};
use vset::{CmpFact, CmpPlace, ValueSet};

fn has_member(value: &ValueSet) -> bool
    ensures { result ≡ has_member_spec value.now }
{
    match value.parts() {
        None => true,
        Some(parts) => !parts.is_empty(),
    }
}

fn place_value(a: &AbsState, place: &CmpPlace) -> Result<ValueSet, AllocError>
    ensures { IfOk result (λ v. v ≡ place_value_spec (seen a.now) place.now) }
{
    match place {
        CmpPlace::Reg(r) => a.register(*r).clone(),
        CmpPlace::Cell(c) => a.value_at(c),
    }
}

/// A cell that holds a value.
#[derive(Drop)]
struct Assigned<'a> {
    cell: &'a Cell,
    value: &'a ValueSet,
}

impl Change for Assigned<'_> {
    ghost use Rattle.std.specs.Prelude.{if◌then◌else◌};
    ghost use Rattle.image_map.specs.Regions.{same_cell};

    ghost given = { λ x c v. if same_cell c x.cell.now then x.value.now else v };

    fn value(&self, _: Global, entry: &CellValue) -> Result<Option<ValueSet>, AllocError> {
        if entry.cell == *self.cell {
            let value = self.value.clone()?;
            Ok(Some(value))
        } else {
            Ok(None)
        }
    }
}

/// The state in which a register holds a value.
fn with_register_value(a: &AbsState, register: Reg, value: ValueSet) -> Result<AbsState, AllocError>
    ensures { IfOk result (λ r. seen r ≡ record (seen a.now) { registers = put (seen a.now).registers (reg_number register) value }) }
{
    let mut out = a.clone()?;
    out.registers.set(register, value);
    Ok(out)
}

/// The state in which a cell holds a value.
fn with_cell_value(
    alloc: Global,
    a: &AbsState,
    cell: &Cell,
    value: ValueSet,
) -> Result<AbsState, AllocError>
    ensures { IfOk result (λ r. seen r ≡ with_place_value_spec (seen a.now) (CellPlace cell.now) value) }
{
    let mut out = a.clone()?;
    let assigned = Assigned {
        cell,
        value: &value,
    };
    out.cells.change(alloc, &assigned)?;
    out.cells.put(cell, value)?;
    Ok(out)
}

/// The state in which a place holds a value; what is known of the comparison stays.
fn with_place_value(
    alloc: Global,
    a: &AbsState,
    place: &CmpPlace,
    value: ValueSet,
) -> Result<AbsState, AllocError>
    ensures { IfOk result (λ r. seen r ≡ with_place_value_spec (seen a.now) place.now value) }
{
    match place {
        CmpPlace::Reg(r) => with_register_value(a, *r, value),
        CmpPlace::Cell(cell) => with_cell_value(alloc, a, cell, value),
    }
}

fn narrowed_to(
    alloc: Global,
    a: &AbsState,
    place: &CmpPlace,
    value: ValueSet,
) -> Result<Option<AbsState>, AllocError>
    ensures { IfOk result (λ r. state_in r ≡ narrowed_to_spec (seen a.now) place.now value) }
{
    if has_member(&value) {
        let narrowed = with_place_value(alloc, a, place, value)?;
        Ok(Some(narrowed))
    } else {
        Ok(None)
    }
}

/// The state in which a test of a condition may come out so, by what was compared.
fn narrowed(
    alloc: Global,
    a: &AbsState,
    cond: Cond,
    taken: bool,
) -> Result<Option<AbsState>, AllocError>
    ensures { IfOk result (λ r. state_in r ≡ narrowed_spec (seen a.now) cond taken (seen a.now).fact) }
{
    match &a.fact {
        None => Ok(Some(a.clone()?)),
        Some(fact) => {
            let value = place_value(a, &fact.place)?;
            let value = refine(alloc, cond, taken, fact, &value)?;
            narrowed_to(alloc, a, &fact.place, value)
        }
    }
}

/// Whether a condition may come out so in a state.
fn may_come_out(a: &AbsState, cond: Cond, holds: bool) -> bool
    ensures { result ≡ may_hold_spec cond (seen a.now).flags holds }
{
    may_hold(cond, &a.flags, holds)
}

/// The state on one side of a branch, or none where the flags or the value don't allow it.
#[tactic(auto, unfolding(abs_steps::specs::Successors::side))]
pub fn side(
    alloc: Global,
    a: &AbsState,
    cond: Cond,
    taken: bool,
) -> Result<Option<AbsState>, AllocError>
    ensures { IfOk result (λ r. state_in r ≡ side_spec (seen a.now) cond taken) }
{
    if may_come_out(a, cond, taken) {
        narrowed(alloc, a, cond, taken)
    } else {
        Ok(None)
    }
}
