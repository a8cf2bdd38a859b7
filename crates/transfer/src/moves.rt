//! Instructions that move values: copies, exchanges, addresses, extensions, and what conditions set and choose.

ghost use Rattle.std.specs.Prelude.{◌≡◌, IfOk, OnOk};
ghost use Rattle.ia32_semantics.specs.Effects.{Whole};
ghost use Rattle.abs_semantics.specs.Operands.{with_register};
ghost use Rattle.abs_steps.specs.Results.{sign_of as sign_of_spec, truth_of as truth_of_spec, chosen_by as chosen_by_spec};
ghost use Rattle.abs_steps.specs.Rows.{copied_over as copied_over_spec, addressed as addressed_spec, exchanged as exchanged_spec, extended as extended_spec, sign_of_ax as sign_of_ax_spec, tested as tested_spec, chosen as chosen_spec};
ghost use Rattle.abs_state.specs.Views.{seen};
ghost use Rattle.transfer.specs.Steps.{after, view_in};

use crate::stores::{store, store_first, target_of};
use crate::view::{address_of, value_of};
use abs_results::{chosen_by, sign_of, truth_of, widened};
use abs_state::{AbsState, Memory, with_part};
use ia32_types::{Cond, Instr, Operand, Reg, Width};
use std::alloc::{AllocError, Global};
use vset::ValueSet;

/// How a narrower source is extended.
#[derive(Clone, Copy)]
pub(crate) struct Extension {
    pub(crate) signed: bool,
    pub(crate) from: Width,
}

pub(crate) fn copied_over(
    alloc: Global,
    memory: &Memory<'_>,
    i: &Instr,
    a: &mut AbsState,
) -> Result<(), AllocError>
    ensures { OnOk result (seen a.new ≡ after memory.now (copied_over_spec (view_in memory.now (seen a.old)) i.now) (seen a.old)) }
{
    let value = value_of(alloc, memory, a, i.width, &i.src)?;
    store_first(alloc, memory, i, value, a)
}

/// The address of the second operand goes to the first.
pub(crate) fn addressed(
    alloc: Global,
    memory: &Memory<'_>,
    i: &Instr,
    a: &mut AbsState,
) -> Result<(), AllocError>
    ensures { OnOk result (seen a.new ≡ after memory.now (addressed_spec (view_in memory.now (seen a.old)) i.now) (seen a.old)) }
{
    let address = address_of(alloc, memory, a, &i.src)?;
    store_first(alloc, memory, i, address, a)
}

/// Both operands are read, and where the second lies is found, before the first is written.
pub(crate) fn exchanged(
    alloc: Global,
    memory: &Memory<'_>,
    i: &Instr,
    a: &mut AbsState,
) -> Result<(), AllocError>
    ensures { OnOk result (seen a.new ≡ after memory.now (exchanged_spec (view_in memory.now (seen a.old)) i.now) (seen a.old)) }
{
    let first = value_of(alloc, memory, a, i.width, &i.dst)?;
    let second = value_of(alloc, memory, a, i.width, &i.src)?;
    let target = target_of(alloc, a, i.width, &i.src)?;
    store_first(alloc, memory, i, second, a)?;
    store(alloc, memory, &target, first, a)
}

pub(crate) fn extended(
    alloc: Global,
    memory: &Memory<'_>,
    extension: Extension,
    i: &Instr,
    a: &mut AbsState,
) -> Result<(), AllocError>
    ensures { OnOk result (seen a.new ≡ after memory.now (extended_spec extension.signed extension.from (view_in memory.now (seen a.old)) i.now) (seen a.old)) }
{
    let source = value_of(alloc, memory, a, extension.from, &i.src)?;
    let value = widened(extension.signed, extension.from, i.width, source);
    store_first(alloc, memory, i, value, a)
}

/// AX goes into EAX with its sign.
pub(crate) fn sign_of_ax(
    alloc: Global,
    memory: &Memory<'_>,
    a: &mut AbsState,
) -> Result<(), AllocError>
    ensures { OnOk result (seen a.new ≡ after memory.now (sign_of_ax_spec (view_in memory.now (seen a.old))) (seen a.old)) }
{
    let ax = Some(Operand::Reg(Reg::Eax));
    let value = value_of(alloc, memory, a, Width::W16, &ax)?;
    a.put_register(Reg::Eax, widened(true, Width::W16, Width::D32, value));
    Ok(())
}

/// The sign of EAX goes into EDX.
pub(crate) fn sign_of_eax(a: &mut AbsState)
    ensures { seen a.new ≡ with_register (seen a.old) Whole 2 (sign_of_spec ((seen a.old).registers 0)) }
{
    let sign = sign_of(a.register(Reg::Eax));
    a.put_register(Reg::Edx, sign);
}

/// Whether a condition holds, as 1 or 0.
#[tactic(auto, using(crate::proofs::StepLemmas::truth_told))]
fn truth(cond: Cond, a: &AbsState) -> ValueSet
    ensures { result ≡ truth_of_spec cond (seen a.now).flags }
{
    truth_of(cond, &a.flags)
}

/// The first value where a condition holds, and else the second.
#[tactic(auto, using(crate::proofs::StepLemmas::choice_told))]
fn choice(
    alloc: Global,
    cond: Cond,
    a: &AbsState,
    new: ValueSet,
    old: ValueSet,
) -> Result<ValueSet, AllocError>
    ensures { IfOk result (λ v. v ≡ chosen_by_spec cond (seen a.now).flags new old) }
{
    chosen_by(alloc, cond, &a.flags, new, old)
}

/// 1 where a condition holds, and else 0.
pub(crate) fn tested(
    alloc: Global,
    memory: &Memory<'_>,
    cond: Cond,
    i: &Instr,
    a: &mut AbsState,
) -> Result<(), AllocError>
    ensures { OnOk result (seen a.new ≡ after memory.now (tested_spec cond (view_in memory.now (seen a.old)) i.now) (seen a.old)) }
{
    let value = truth(cond, a);
    store_first(alloc, memory, i, value, a)
}

/// A register takes the second operand where a condition holds, and is written where it fails too.
pub(crate) fn chosen(
    alloc: Global,
    memory: &Memory<'_>,
    cond: Cond,
    i: &Instr,
    a: &mut AbsState,
) -> Result<(), AllocError>
    ensures { OnOk result (seen a.new ≡ after memory.now (chosen_spec cond (view_in memory.now (seen a.old)) i.now) (seen a.old)) }
{
    let Some(Operand::Reg(register)) = &i.dst else {
        return Ok(());
    };
    let new = value_of(alloc, memory, a, i.width, &i.src)?;
    let old = value_of(alloc, memory, a, i.width, &i.dst)?;
    let new = with_part(i.width, a.register(*register), new);
    let old = with_part(i.width, a.register(*register), old);
    let value = choice(alloc, cond, a, new, old)?;
    a.put_register(*register, value);
    Ok(())
}
