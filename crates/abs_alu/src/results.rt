//! What an operation gives of value-sets and sets of flags.

ghost use Rattle.std.specs.Prelude.{◌≡◌, ◌-◌, ◌^◌, ◌⊎◌, ℕ, Bool, true, IfOk, IfSome};
ghost use Rattle.ia32_types.specs.declared.Flag.TheVariants.{Df};
ghost use Rattle.vset.specs.Members.{HasValue};
ghost use Rattle.vset.specs.Values.{CanonicalValues};
ghost use Rattle.vset.specs.World.{World};
ghost use Rattle.abs_alu.specs.Computed.{is_computed};
ghost use Rattle.abs_alu.specs.Runs.{IsDone, AllowsAll, Allows, given};
ghost use Rattle.ia32_alu.specs.Widths.{IsWidth};
ghost use Rattle.abs_alu.specs.Results.{computed_or as computed_or_spec, wide as wide_spec, value as value_spec, flags as flags_spec};
ghost use Rattle.abs_alu.specs.Operands.{AreWords};
ghost use Rattle.abs_alu.specs.Words.{numbers};
ghost use Rattle.si_bits.specs.Operations.{up_to};

use crate::computed::computed;
use crate::flags::{after, unknown_flags};
use crate::operands::{Arguments, operands};
use crate::words::{number, words};
use ia32_types::Op;
use std::alloc::{AllocError, Global};
use strided::Si;
use vset::{AbsFlags, ValueSet};

/// What the processor gives, where each operand is known.
fn computed_or<const W: u32>(other: ValueSet, op: &Op, known: Option<Arguments>) -> ValueSet
    requires width { IsWidth W }
    requires words { IfSome known (λ x. AreWords W x) }
    ensures { result ≡ computed_or_spec other W op.now known }
{
    match known {
        None => other,
        Some(x) => number(computed::<W>(op, x).0.cast_signed()),
    }
}

/// Each number of 8 or 16 bits.
fn every<const W: u32>() -> ValueSet
    requires { (W ≡ 8) ⊎ (W ≡ 16) }
    ensures { result ≡ numbers (up_to (2 ^ W - 1)) }
{
    let greatest = match W {
        8 => 0xFF,
        _ => 0xFFFF,
    };
    ValueSet::numbers(Si::spaced(1, 0, greatest))
}

/// What an operation gives at 32 bits.
fn wide(
    alloc: Global,
    op: &Op,
    a: &ValueSet,
    b: &ValueSet,
    f: &AbsFlags,
) -> Result<ValueSet, AllocError>
    ensures { IfOk result (λ v. v ≡ wide_spec op.now a.now b.now f.now) }
{
    match op {
        Op::Rol | Op::Ror => Ok(computed_or::<32>(
            ValueSet::top(),
            op,
            operands::<32>(op, a, b, f),
        )),
        _ => words(alloc, op, a, b, f),
    }
}

/// What an operation gives at a width.
#[tactic(auto, unfolding(crate::specs::Results::value))]
fn value<const W: u32>(
    alloc: Global,
    op: &Op,
    a: &ValueSet,
    b: &ValueSet,
    f: &AbsFlags,
) -> Result<ValueSet, AllocError>
    requires { IsWidth W }
    ensures { IfOk result (λ v. v ≡ value_spec W op.now a.now b.now f.now) }
{
    match W {
        32 => wide(alloc, op, a, b, f),
        _ => Ok(computed_or::<W>(every::<W>(), op, operands::<W>(op, a, b, f))),
    }
}

/// What an operation does to the flags at a width.
#[tactic(auto, unfolding(crate::specs::Results::flags))]
fn flags<const W: u32>(op: &Op, a: &ValueSet, b: &ValueSet, f: &AbsFlags) -> AbsFlags
    requires { IsWidth W }
    ensures { result ≡ flags_spec W op.now a.now b.now f.now }
{
    let out = match operands::<W>(op, a, b, f) {
        None => unknown_flags::<W>(op, b),
        Some(x) => computed::<W>(op, x).1,
    };
    after(&out, f)
}

/// The intervals of a value-set are of the one form.
fn form(v: &ValueSet)
    ensures { CanonicalValues v.now }
{
    let _parts = v.parts();
}

/// What an operation gives of values and flags at 8, 16 or 32 bits: the operations of arithmetic and logic, the shifts and
/// rotates, and the low part of `Mul` and `Imul`. `Cmp` and `Test` give the values of `Sub` and `And`. `Inc`, `Dec`, `Not` and
/// `Neg` take `a` alone. It isn't meant for any other operation.
///
/// A flag may be 0 or 1 afterwards as the answer's sets say. Where each operand is one number, these are the flags that the
/// processor leaves, and one that it leaves undefined may be either. It answers an error only where memory is wanting.
pub fn abs<const W: u32>(
    alloc: Global,
    op: &Op,
    a: &ValueSet,
    b: &ValueSet,
    f: &AbsFlags,
) -> Result<(ValueSet, AbsFlags), AllocError>
    requires { IsWidth W }
    ensures value { IfOk result (λ r. r.0 ≡ value_spec W op.now a.now b.now f.now) }
    ensures flags { IfOk result (λ r. r.1 ≡ flags_spec W op.now a.now b.now f.now) }
    ensures holds { (lane : ℕ) (world : World) (done : IsDone lane world W op.now a.now b.now f.now) → is_computed op.now ≡ true → IfOk result (λ r. HasValue lane world (given done) r.0) }
    ensures allows { (lane : ℕ) (world : World) (done : IsDone lane world W op.now a.now b.now f.now) → is_computed op.now ≡ true → IfOk result (λ r. AllowsAll r.1 done.now) }
    ensures keeps_direction { (v : Bool) → Allows f.now Df v → IfOk result (λ r. Allows r.1 Df v) }
{
    form(a);
    form(b);
    let value = value::<W>(alloc, op, a, b, f)?;
    Ok((value, flags::<W>(op, a, b, f)))
}
