//! The operations of arithmetic at a width that is known only when it runs.

ghost use Rattle.std.specs.Prelude.{◌≡◌, IfOk};
ghost use Rattle.ia32_semantics.specs.Operands.{bits};
ghost use Rattle.abs_alu.specs.Results.{value, flags};
ghost use Rattle.abs_alu.specs.Flags.{is_shift as is_shift_spec, is_none};
ghost use Rattle.abs_alu.specs.Operands.{known as known_spec};
ghost use Rattle.abs_steps.specs.Flags.{allows, sets_of};
ghost use Rattle.abs_steps.specs.Results.{is_own_inverse as is_own_inverse_spec, is_dword as is_dword_spec, are_one_register as are_one_register_spec, is_zero as is_zero_spec, keeps_flags as keeps_flags_spec};

use crate::extensions::known_at;
use abs_alu::abs;
use ia32_types::{Op, Operand, Width};
use std::alloc::{AllocError, Global};
use vset::{AbsFlags, ValueSet};

/// An operation at a width.
#[derive(Clone, Copy)]
pub struct Operation {
    pub op: Op,
    pub width: Width,
}

/// What an operation of arithmetic gives, and the flags after it.
#[tactic(auto, using(crate::proofs::FlagLemmas::value_by_members, crate::proofs::FlagLemmas::flags_by_members))]
pub fn operated(
    alloc: Global,
    operation: &Operation,
    a: &ValueSet,
    b: &ValueSet,
    f: &AbsFlags,
) -> Result<(ValueSet, AbsFlags), AllocError>
    ensures value { IfOk result (λ r. r.0 ≡ value (bits operation.now.width) operation.now.op a.now b.now (sets_of (allows f.now))) }
    ensures flags { IfOk result (λ r. r.1 ≡ flags (bits operation.now.width) operation.now.op a.now b.now (sets_of (allows f.now))) }
{
    let op = &operation.op;
    match operation.width {
        Width::B8 => abs::<8>(alloc, op, a, b, f),
        Width::W16 => abs::<16>(alloc, op, a, b, f),
        Width::D32 => abs::<32>(alloc, op, a, b, f),
    }
}

fn is_own_inverse(op: &Op) -> bool
    ensures { result ≡ is_own_inverse_spec op.now }
{
    matches!(op, Op::Xor | Op::Sub)
}

fn is_dword(width: Width) -> bool
    ensures { result ≡ is_dword_spec width }
{
    matches!(width, Width::D32)
}

/// Whether two operands are one register.
pub fn are_one_register(first: &Option<Operand>, second: &Option<Operand>) -> bool
    ensures { result ≡ are_one_register_spec first.now second.now }
{
    match (first, second) {
        (Some(Operand::Reg(r)), Some(Operand::Reg(q))) => r.number() == q.number(),
        _ => false,
    }
}

/// Whether an operation gives 0 whatever its operands hold: a register exclusive-or'd with itself, or taken from itself.
#[tactic(auto, unfolding(abs_steps::specs::Results::is_zero))]
pub fn is_zero(operation: &Operation, first: &Option<Operand>, second: &Option<Operand>) -> bool
    ensures { result ≡ is_zero_spec operation.now.op operation.now.width first.now second.now }
{
    is_own_inverse(&operation.op) && is_dword(operation.width) && are_one_register(first, second)
}

/// Whether an operation writes no flag: `Not`, and a shift or a rotate by a count that is known to be 0 modulo 32.
#[tactic(auto, unfolding(abs_steps::specs::Results::keeps_flags))]
pub fn keeps_flags(operation: &Operation, count: &ValueSet) -> bool
    ensures { result ≡ keeps_flags_spec (bits operation.now.width) operation.now.op count.now }
{
    match operation.op {
        Op::Not => true,
        Op::Shl | Op::Shr | Op::Sar | Op::Rol | Op::Ror => match known_at(operation.width, count) {
            None => false,
            Some(count) => count % 32 == 0,
        },
        _ => false,
    }
}
