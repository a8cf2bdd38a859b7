//! The values that operations on 32 bits give.

ghost use Rattle.std.specs.Prelude.{◌≡◌, ◌<◌, ◌^◌, ◌+◌, ◌-◌, ◌%◌, ◌⊎◌, ℕ, ℤ, pos, false, IfOk};
ghost use Rattle.ia32_types.specs.declared.Op.{Op};
ghost use Rattle.ia32_types.specs.declared.Op.TheVariants as op;
ghost use Rattle.abs_alu.specs.Words.{numbers as numbers_spec, number as number_spec, carried as carried_spec, with_carries as with_carries_spec, interval_of as interval_of_spec, of_numbers as of_numbers_spec, shifted_by as shifted_by_spec, shifted as shifted_spec, words as words_spec};

use crate::operands::known;
use ia32_types::{Flag, Op};
use si_bits::{and, mul, or, sar, shl, shr, xor};
use std::alloc::{AllocError, Global};
use strided::Si;
use vset::{AbsFlags, ValueSet};

/// The one number.
pub fn number(value: i32) -> ValueSet
    ensures { result ≡ number_spec value }
{
    ValueSet::numbers(Si::one(value))
}

/// The sum of a sum and a carry, or the difference of a difference and one.
fn carried(
    alloc: Global,
    op: &Op,
    a: &ValueSet,
    b: &ValueSet,
    carry: i32,
) -> Result<ValueSet, AllocError>
    ensures { IfOk result (λ v. v ≡ carried_spec op.now a.now b.now carry) }
{
    let carry = number(carry);
    match op {
        Op::Adc => a.add(alloc, b)?.add(alloc, &carry),
        _ => a.sub(alloc, b)?.sub(alloc, &carry),
    }
}

/// What a sum with a carry, or a difference, gives of each carry that CF allows.
#[tactic(auto, unfolding(crate::specs::Words::with_carries, vset::specs::Values::settled))]
fn with_carries(
    alloc: Global,
    op: &Op,
    a: &ValueSet,
    b: &ValueSet,
    f: &AbsFlags,
) -> Result<ValueSet, AllocError>
    ensures { IfOk result (λ v. v ≡ with_carries_spec op.now a.now b.now f.now) }
{
    let may_be_clear = f.zero.has(Flag::Cf);
    let may_be_set = f.one.has(Flag::Cf);
    match (may_be_clear, may_be_set) {
        (true, true) => {
            let clear = carried(alloc, op, a, b, 0)?;
            let set = carried(alloc, op, a, b, 1)?;
            clear.join(alloc, &set)
        }
        (true, false) => carried(alloc, op, a, b, 0),
        (false, true) => carried(alloc, op, a, b, 1),
        (false, false) => Ok(ValueSet::from_parts(Vec::new(alloc))),
    }
}

/// An operation on two intervals.
#[tactic(auto, unfolding(crate::specs::Words::interval_of))]
fn interval_of(op: &Op, x: &Si, y: &Si) -> Si
    ensures { result ≡ interval_of_spec op.now x.now y.now }
{
    match op {
        Op::And | Op::Test => and(x, y),
        Op::Or => or(x, y),
        Op::Xor => xor(x, y),
        Op::Mul | Op::Imul => mul(x, y),
        _ => Si::full(),
    }
}

/// An operation on numbers alone.
#[tactic(auto, unfolding(crate::specs::Words::of_numbers))]
fn of_numbers(op: &Op, a: &ValueSet, b: &ValueSet) -> ValueSet
    ensures { result ≡ of_numbers_spec op.now a.now b.now }
{
    match (a.only_number(), b.only_number()) {
        (Some(x), Some(y)) => ValueSet::numbers(interval_of(op, &x, &y)),
        _ => ValueSet::top(),
    }
}

/// A shift of an interval.
#[tactic(auto, unfolding(crate::specs::Words::shifted_by))]
fn shifted_by(op: &Op, x: &Si, count: u32) -> Si
    requires { count < 32 }
    ensures { result ≡ shifted_by_spec op.now x.now count }
{
    match op {
        Op::Shl => shl(x, count),
        Op::Shr => shr(x, count),
        Op::Sar => sar(x, count),
        _ => Si::full(),
    }
}

/// A shift of numbers alone by the low five bits of one number.
#[tactic(auto, unfolding(crate::specs::Words::shifted))]
fn shifted(op: &Op, a: &ValueSet, count: &ValueSet) -> ValueSet
    ensures { result ≡ shifted_spec op.now a.now count.now }
{
    match (a.only_number(), known::<32>(count)) {
        (Some(x), Some(count)) => ValueSet::numbers(shifted_by(op, &x, count % 32)),
        _ => ValueSet::top(),
    }
}

/// What an operation gives at 32 bits, but for rotates.
#[tactic(auto, unfolding(crate::specs::Words::words))]
pub(crate) fn words(
    alloc: Global,
    op: &Op,
    a: &ValueSet,
    b: &ValueSet,
    f: &AbsFlags,
) -> Result<ValueSet, AllocError>
    ensures { IfOk result (λ v. v ≡ words_spec op.now a.now b.now f.now) }
{
    match op {
        Op::Add => a.add(alloc, b),
        Op::Sub | Op::Cmp => a.sub(alloc, b),
        Op::Inc => a.add(alloc, &number(1)),
        Op::Dec => a.sub(alloc, &number(1)),
        Op::Not => number(-1).sub(alloc, a),
        Op::Neg => number(0).sub(alloc, a),
        Op::Adc | Op::Sbb => with_carries(alloc, op, a, b, f),
        Op::And | Op::Or | Op::Xor | Op::Test | Op::Mul | Op::Imul => Ok(of_numbers(op, a, b)),
        Op::Shl | Op::Shr | Op::Sar => Ok(shifted(op, a, b)),
        _ => Ok(ValueSet::top()),
    }
}
