//! Stores into operands.

ghost use Rattle.std.specs.Prelude.{◌≡◌, IfOk, OnOk};
ghost use Rattle.abs_steps.specs.Views.{store_to};
ghost use Rattle.abs_state.specs.Views.{seen};
ghost use Rattle.transfer.specs.Steps.{after, operand_place as operand_place_spec, stored_in, view_in};

use abs_state::{AbsState, Memory};
use ia32_types::{Instr, Operand, Reg, Width};
use std::alloc::{AllocError, Global};
use vset::ValueSet;

/// Where an operand lies in a state.
#[derive(Drop)]
pub(crate) enum Place {
    Nowhere,
    Register(Reg),
    SecondByte(Reg),
    /// In memory, at an address.
    Bytes(ValueSet),
}

/// Where an operand of a width lies.
#[derive(Drop)]
pub(crate) struct Target {
    pub(crate) width: Width,
    pub(crate) place: Place,
}

/// Memory that counts from GS is never written.
fn operand_place(
    alloc: Global,
    a: &AbsState,
    operand: &Option<Operand>,
) -> Result<Place, AllocError>
    ensures { IfOk result (λ p. p ≡ operand_place_spec (seen a.now) operand.now) }
{
    match operand {
        Some(Operand::Reg(register)) => Ok(Place::Register(*register)),
        Some(Operand::High(register)) => Ok(Place::SecondByte(*register)),
        Some(Operand::Mem(m)) if !m.gs => {
            let address = a.address(alloc, m)?;
            Ok(Place::Bytes(address))
        }
        _ => Ok(Place::Nowhere),
    }
}

/// Where an operand of an instruction lies.
pub(crate) fn target_of(
    alloc: Global,
    a: &AbsState,
    width: Width,
    operand: &Option<Operand>,
) -> Result<Target, AllocError>
    ensures { IfOk result (λ t. t ≡ record { width = width; place = operand_place_spec (seen a.now) operand.now }) }
{
    let place = operand_place(alloc, a, operand)?;
    Ok(Target { width, place })
}

/// Stores a value.
pub(crate) fn store(
    alloc: Global,
    memory: &Memory<'_>,
    target: &Target,
    value: ValueSet,
    a: &mut AbsState,
) -> Result<(), AllocError>
    ensures { OnOk result (seen a.new ≡ after memory.now (stored_in target.now.place target.now.width value) (seen a.old)) }
{
    match &target.place {
        Place::Nowhere => Ok(()),
        Place::Register(register) => {
            a.put_part(target.width, *register, value);
            Ok(())
        }
        Place::SecondByte(register) => {
            a.put_second_byte(*register, &value);
            Ok(())
        }
        Place::Bytes(at) => {
            let len = target.width.bytes();
            a.write(alloc, memory, at, len, &value)
        }
    }
}

/// Stores a value into the first operand.
pub(crate) fn store_first(
    alloc: Global,
    memory: &Memory<'_>,
    i: &Instr,
    value: ValueSet,
    a: &mut AbsState,
) -> Result<(), AllocError>
    ensures { OnOk result (seen a.new ≡ after memory.now (store_to (view_in memory.now (seen a.old)) i.now.width i.now.dst value) (seen a.old)) }
{
    let target = target_of(alloc, a, i.width, &i.dst)?;
    store(alloc, memory, &target, value, a)
}
