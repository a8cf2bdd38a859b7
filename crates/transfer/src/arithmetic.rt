//! Instructions that compute: arithmetic and logic, shifts, and comparisons.

ghost use Rattle.std.specs.Prelude.{◌≡◌, IfOk, OnOk};
ghost use Rattle.ia32_types.specs.declared.Width.TheVariants.{B8};
ghost use Rattle.ia32_semantics.specs.Operands.{bits};
ghost use Rattle.abs_alu.specs.Results.{value as value_spec, flags as flags_spec};
ghost use Rattle.abs_steps.specs.Flags.{sets_of};
ghost use Rattle.abs_steps.specs.Results.{aligned_or as aligned_or_spec};
ghost use Rattle.abs_steps.specs.Rows.{computed_of as computed_of_spec, computed as computed_spec, altered as altered_spec, shifted as shifted_spec, compared as compared_spec};
ghost use Rattle.abs_steps.specs.Views.{value_of as value_of_spec};
ghost use Rattle.abs_state.specs.declared.writes.Memory.{Memory};
ghost use Rattle.abs_state.specs.Views.{seen};
ghost use Rattle.transfer.specs.Steps.{after, result_or as result_or_spec, turned, view_in};

use crate::comparisons::{fact_of, note};
use crate::stores::store_first;
use crate::view::value_of;
use abs_alu::number;
use abs_results::{Operation, aligned_or, is_zero, keeps_flags, operated};
use abs_semantics::Known;
use abs_state::{AbsState, Memory};
use ia32_types::{Instr, Op, Width};
use std::alloc::{AllocError, Global};
use vset::{AbsFlags, ValueSet};

/// The values of two operands.
#[derive(Drop)]
pub(crate) struct Operands {
    pub(crate) first: ValueSet,
    pub(crate) second: ValueSet,
}

/// What an operation gives.
#[derive(Drop)]
pub(crate) struct Outcome {
    pub(crate) value: ValueSet,
    pub(crate) flags: AbsFlags,
}

fn operation_of(i: &Instr) -> Operation
    ensures { result ≡ record { op = i.now.op; width = i.now.width } }
{
    Operation {
        op: i.op,
        width: i.width,
    }
}

/// What the operation of an instruction gives of operands, by its own rule.
pub(crate) fn operate(
    alloc: Global,
    i: &Instr,
    x: &Operands,
    a: &AbsState,
) -> Result<Outcome, AllocError>
    ensures value { IfOk result (λ r. r.value ≡ value_spec (bits i.now.width) i.now.op x.now.first x.now.second (sets_of (seen a.now).flags)) }
    ensures flags { IfOk result (λ r. r.flags ≡ flags_spec (bits i.now.width) i.now.op x.now.first x.now.second (sets_of (seen a.now).flags)) }
{
    let (value, flags) = operated(alloc, &operation_of(i), &x.first, &x.second, &a.flags)?;
    Ok(Outcome { value, flags })
}

/// The flags after an operation, unless it writes none.
pub(crate) fn turn(i: &Instr, count: &ValueSet, flags: &AbsFlags, a: &mut AbsState)
    ensures { (m : Memory) → seen a.new ≡ after m (turned i.now count.now flags.now) (seen a.old) }
{
    if keeps_flags(&operation_of(i), count) {
        return;
    }
    a.set_five(flags);
}

/// The value of an operation where its own rule gives `other`: a stack pointer under a mask is aligned.
#[tactic(auto, unfolding(abs_steps::specs::Results::aligned_or))]
fn aligned(
    alloc: Global,
    aligns: &[Known],
    i: &Instr,
    x: &Operands,
    other: ValueSet,
) -> Result<ValueSet, AllocError>
    ensures { IfOk result (λ v. v ≡ aligned_or_spec aligns.now i.now.op i.now.width x.now.first x.now.second other) }
{
    match i.op {
        Op::And => match i.width {
            Width::D32 => aligned_or(alloc, aligns, &x.first, &x.second, other),
            _ => Ok(other),
        },
        _ => Ok(other),
    }
}

/// The value of an operation where its own rule gives `other`: 0 of a register with itself, or else as aligned.
fn result_or(
    alloc: Global,
    aligns: &[Known],
    i: &Instr,
    x: &Operands,
    other: ValueSet,
) -> Result<ValueSet, AllocError>
    ensures { IfOk result (λ v. v ≡ result_or_spec aligns.now i.now x.now.first x.now.second other) }
{
    if is_zero(&operation_of(i), &i.dst, &i.src) {
        return Ok(number(0));
    }
    aligned(alloc, aligns, i, x, other)
}

/// The first operand takes what its operation gives of two values.
pub(crate) fn computed_of(
    alloc: Global,
    memory: &Memory<'_>,
    i: &Instr,
    x: &Operands,
    a: &mut AbsState,
) -> Result<(), AllocError>
    ensures { OnOk result (seen a.new ≡ after memory.now (computed_of_spec (view_in memory.now (seen a.old)) i.now.op i.now x.now.first x.now.second) (seen a.old)) }
{
    let given = operate(alloc, i, x, a)?;
    let value = result_or(alloc, a.aligns.as_slice(), i, x, given.value)?;
    store_first(alloc, memory, i, value, a)?;
    turn(i, &x.second, &given.flags, a);
    Ok(())
}

/// The values of the first and the second operand.
pub(crate) fn read_both(
    alloc: Global,
    memory: &Memory<'_>,
    i: &Instr,
    a: &AbsState,
) -> Result<Operands, AllocError>
    ensures { IfOk result (λ x. x ≡ record { first = value_of_spec (view_in memory.now (seen a.now)) i.now.width i.now.dst; second = value_of_spec (view_in memory.now (seen a.now)) i.now.width i.now.src }) }
{
    let first = value_of(alloc, memory, a, i.width, &i.dst)?;
    let second = value_of(alloc, memory, a, i.width, &i.src)?;
    Ok(Operands { first, second })
}

/// An operation of two operands.
pub(crate) fn computed(
    alloc: Global,
    memory: &Memory<'_>,
    i: &Instr,
    a: &mut AbsState,
) -> Result<(), AllocError>
    ensures { OnOk result (seen a.new ≡ after memory.now (computed_spec i.now.op (view_in memory.now (seen a.old)) i.now) (seen a.old)) }
{
    let x = read_both(alloc, memory, i, a)?;
    computed_of(alloc, memory, i, &x, a)
}

/// A shift or a rotate, by a byte.
pub(crate) fn shifted(
    alloc: Global,
    memory: &Memory<'_>,
    i: &Instr,
    a: &mut AbsState,
) -> Result<(), AllocError>
    ensures { OnOk result (seen a.new ≡ after memory.now (shifted_spec i.now.op (view_in memory.now (seen a.old)) i.now) (seen a.old)) }
{
    let first = value_of(alloc, memory, a, i.width, &i.dst)?;
    let second = value_of(alloc, memory, a, Width::B8, &i.src)?;
    computed_of(alloc, memory, i, &Operands { first, second }, a)
}

/// An operation of one operand.
pub(crate) fn altered(
    alloc: Global,
    memory: &Memory<'_>,
    i: &Instr,
    a: &mut AbsState,
) -> Result<(), AllocError>
    ensures { OnOk result (seen a.new ≡ after memory.now (altered_spec i.now.op (view_in memory.now (seen a.old)) i.now) (seen a.old)) }
{
    let first = value_of(alloc, memory, a, i.width, &i.dst)?;
    let second = ValueSet::top();
    let x = Operands { first, second };
    let given = operate(alloc, i, &x, a)?;
    store_first(alloc, memory, i, given.value, a)?;
    turn(i, &x.second, &given.flags, a);
    Ok(())
}

/// Two operands of which only flags are made.
pub(crate) fn compared(
    alloc: Global,
    memory: &Memory<'_>,
    i: &Instr,
    a: &mut AbsState,
) -> Result<(), AllocError>
    ensures { OnOk result (seen a.new ≡ after memory.now (compared_spec i.now.op (view_in memory.now (seen a.old)) i.now) (seen a.old)) }
{
    let x = read_both(alloc, memory, i, a)?;
    let fact = fact_of(alloc, memory, i, &x.second, a)?;
    let given = operate(alloc, i, &x, a)?;
    turn(i, &x.second, &given.flags, a);
    note(fact, a);
    Ok(())
}
