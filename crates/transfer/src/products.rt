//! Products and quotients.

ghost use Rattle.std.specs.Prelude.{◌≡◌, OnOk, Some};
ghost use Rattle.ia32_semantics.specs.Effects.{Whole};
ghost use Rattle.abs_semantics.specs.Operands.{with_register};
ghost use Rattle.abs_state.specs.declared.writes.Memory.{Memory};
ghost use Rattle.ia32_types.specs.declared.Operand.TheVariants as operand;
ghost use Rattle.ia32_types.specs.declared.Op.TheVariants as op;
ghost use Rattle.abs_steps.specs.Rows.{product_effects, multiplied as multiplied_spec, imul as imul_spec, multiplied_into as multiplied_into_spec, quotient_effects, divided as divided_spec};
ghost use Rattle.abs_state.specs.Views.{seen};
ghost use Rattle.transfer.specs.Steps.{after, view_in};

use crate::arithmetic::{Operands, computed, computed_of, operate, turn};
use crate::view::value_of;
use abs_results::{known_quotient, word_number};
use abs_state::{AbsState, Memory};
use ia32_types::{Instr, Operand, Reg, Width};
use std::alloc::{AllocError, Global};
use vset::ValueSet;

/// EAX and EDX take values.
fn put_halves(low: ValueSet, high: ValueSet, a: &mut AbsState)
    ensures { seen a.new ≡ with_register (with_register (seen a.old) Whole 0 low) Whole 2 high }
{
    a.put_register(Reg::Eax, low);
    a.put_register(Reg::Edx, high);
}

/// The low half of a product at 32 bits goes into EAX; the other half is never known.
fn put_product(width: Width, low: ValueSet, a: &mut AbsState)
    ensures { (m : Memory) → seen a.new ≡ after m (product_effects width low) (seen a.old) }
{
    match width {
        Width::D32 => put_halves(low, ValueSet::top(), a),
        _ => put_halves(ValueSet::top(), ValueSet::top(), a),
    }
}

/// EAX times an operand.
pub(crate) fn multiplied(
    alloc: Global,
    memory: &Memory<'_>,
    i: &Instr,
    a: &mut AbsState,
) -> Result<(), AllocError>
    ensures { OnOk result (seen a.new ≡ after memory.now (multiplied_spec i.now.op (view_in memory.now (seen a.old)) i.now) (seen a.old)) }
{
    let eax = Some(Operand::Reg(Reg::Eax));
    let first = value_of(alloc, memory, a, i.width, &eax)?;
    let second = value_of(alloc, memory, a, i.width, &i.dst)?;
    let x = Operands { first, second };
    let given = operate(alloc, i, &x, a)?;
    put_product(i.width, given.value, a);
    turn(i, &x.second, &given.flags, a);
    Ok(())
}

/// The second operand times a number goes into the first.
fn multiplied_by(
    alloc: Global,
    memory: &Memory<'_>,
    by: u32,
    i: &Instr,
    a: &mut AbsState,
) -> Result<(), AllocError>
    requires { i.now.op ≡ op.Imul }
    ensures { OnOk result (seen a.new ≡ after memory.now (multiplied_into_spec (view_in memory.now (seen a.old)) i.now i.now.src (Some (operand.Imm by))) (seen a.old)) }
{
    let by = Some(Operand::Imm(by));
    let first = value_of(alloc, memory, a, i.width, &i.src)?;
    let second = value_of(alloc, memory, a, i.width, &by)?;
    computed_of(alloc, memory, i, &Operands { first, second }, a)
}

/// A product of signed numbers, of one, two or three operands.
pub(crate) fn imul(
    alloc: Global,
    memory: &Memory<'_>,
    i: &Instr,
    a: &mut AbsState,
) -> Result<(), AllocError>
    requires { i.now.op ≡ op.Imul }
    ensures { OnOk result (seen a.new ≡ after memory.now (imul_spec (view_in memory.now (seen a.old)) i.now i.now.src i.now.imm) (seen a.old)) }
{
    match (&i.src, i.imm) {
        (None, _) => multiplied(alloc, memory, i, a),
        (Some(_), None) => computed(alloc, memory, i, a),
        (Some(_), Some(by)) => multiplied_by(alloc, memory, by, i, a),
    }
}

/// The quotient goes into EAX and the remainder into EDX, where they are known.
fn put_quotient(width: Width, quotient: Option<(u32, u32)>, a: &mut AbsState)
    ensures { (m : Memory) → seen a.new ≡ after m (quotient_effects width quotient) (seen a.old) }
{
    match (width, quotient) {
        (_, Some((quotient, remainder))) => {
            put_halves(word_number(quotient), word_number(remainder), a);
        }
        (Width::B8, None) => a.put_register(Reg::Eax, ValueSet::top()),
        (_, None) => put_halves(ValueSet::top(), ValueSet::top(), a),
    }
}

/// EDX and EAX by an operand.
pub(crate) fn divided(
    alloc: Global,
    memory: &Memory<'_>,
    signed: bool,
    i: &Instr,
    a: &mut AbsState,
) -> Result<(), AllocError>
    ensures { OnOk result (seen a.new ≡ after memory.now (divided_spec signed (view_in memory.now (seen a.old)) i.now) (seen a.old)) }
{
    let by = value_of(alloc, memory, a, i.width, &i.dst)?;
    let high = a.register(Reg::Edx);
    let low = a.register(Reg::Eax);
    let quotient = known_quotient(i.width, signed, high, low, &by);
    put_quotient(i.width, quotient, a);
    a.free_five();
    Ok(())
}
