//! The flags after an operation: which may be 0, and which may be 1.

ghost use Rattle.std.specs.Prelude.{◌≡◌};
ghost use Rattle.ia32_alu.specs.Widths.{IsWidth};
ghost use Rattle.ia32_semantics.specs.Alu.{kept_flags as kept_flags_spec};
ghost use Rattle.abs_alu.specs.Flags.{same as same_spec, may_be as may_be_spec, flags_after as flags_after_spec, after as after_spec, any_written as any_written_spec, is_shift as is_shift_spec, is_none as is_none_spec, any_if as any_if_spec, unknown_flags as unknown_flags_spec};

use crate::operands::known;
use ia32_semantics::{FlagOut, FlagsOut};
use ia32_types::{Flag, FlagSet, Op};
use vset::{AbsFlags, ValueSet};

fn same(a: bool, b: bool) -> bool
    ensures { result ≡ same_spec a b }
{
    if a { b } else { !b }
}

/// Whether a flag may have a value after this, where it may have had it `before` or not.
fn may_be(out: FlagOut, value: bool, before: bool) -> bool
    ensures { result ≡ may_be_spec out value before }
{
    match out {
        FlagOut::Kept => before,
        FlagOut::Set(v) => same(v, value),
        FlagOut::Undefined => true,
    }
}

/// The flags that may have a value after this, where `before` may have had it.
#[tactic(auto, unfolding(crate::specs::Flags::flags_after, ia32_types::specs::Sets::flag_set))]
fn flags_after(out: &FlagsOut, value: bool, before: FlagSet) -> FlagSet
    ensures { result ≡ flags_after_spec out.now value before }
{
    let cf = FlagSet::only_if(may_be(out.cf, value, before.has(Flag::Cf)), Flag::Cf);
    let pf = FlagSet::only_if(may_be(out.pf, value, before.has(Flag::Pf)), Flag::Pf);
    let zf = FlagSet::only_if(may_be(out.zf, value, before.has(Flag::Zf)), Flag::Zf);
    let sf = FlagSet::only_if(may_be(out.sf, value, before.has(Flag::Sf)), Flag::Sf);
    let of = FlagSet::only_if(may_be(out.of, value, before.has(Flag::Of)), Flag::Of);
    let df = FlagSet::only_if(before.has(Flag::Df), Flag::Df);
    cf.with(pf.with(zf.with(sf.with(of.with(df)))))
}

/// The flags after this.
pub(crate) fn after(out: &FlagsOut, f: &AbsFlags) -> AbsFlags
    ensures { result ≡ after_spec out.now f.now }
{
    AbsFlags {
        zero: flags_after(out, false, f.zero),
        one: flags_after(out, true, f.one),
    }
}

/// Each flag that an operation may write, as undefined.
#[tactic(auto, unfolding(crate::specs::Flags::any_written, ia32_types::specs::Places::op_flag_writes))]
fn any_written(op: &Op) -> FlagsOut
    ensures { result ≡ any_written_spec op.now }
{
    let (carry, others, overflow) = match op {
        Op::Add | Op::Or | Op::Adc | Op::Sbb | Op::And | Op::Sub | Op::Xor | Op::Cmp | Op::Test => (
            true, true, true,
        ),
        Op::Neg | Op::Mul | Op::Imul | Op::Shl | Op::Shr | Op::Sar | Op::Div | Op::Idiv => (
            true, true, true,
        ),
        Op::Inc | Op::Dec => (false, true, true),
        Op::Rol | Op::Ror => (true, false, true),
        _ => (false, false, false),
    };
    FlagsOut {
        cf: any_if(carry),
        pf: any_if(others),
        zf: any_if(others),
        sf: any_if(others),
        of: any_if(overflow),
    }
}

fn any_if(written: bool) -> FlagOut
    ensures { result ≡ any_if_spec written }
{
    if written {
        FlagOut::Undefined
    } else {
        FlagOut::Kept
    }
}

fn is_shift(op: &Op) -> bool
    ensures { result ≡ is_shift_spec op.now }
{
    matches!(op, Op::Shl | Op::Shr | Op::Sar | Op::Rol | Op::Ror)
}

/// Whether a count is known to be 0 modulo 32.
fn is_none(count: Option<u32>) -> bool
    ensures { result ≡ is_none_spec count }
{
    matches!(count, Some(n) if n % 32 == 0)
}

/// All flags kept.
#[tactic(auto, unfolding(ia32_semantics::specs::Alu::kept_flags))]
fn kept_flags() -> FlagsOut
    ensures { result ≡ kept_flags_spec }
{
    FlagsOut {
        cf: FlagOut::Kept,
        pf: FlagOut::Kept,
        zf: FlagOut::Kept,
        sf: FlagOut::Kept,
        of: FlagOut::Kept,
    }
}

/// What an operation does to the flags, where its operands aren't known.
pub(crate) fn unknown_flags<const W: u32>(op: &Op, b: &ValueSet) -> FlagsOut
    requires { IsWidth W }
    ensures { result ≡ unknown_flags_spec W op.now b.now }
{
    if is_shift(op) && is_none(known::<W>(b)) {
        kept_flags()
    } else {
        any_written(op)
    }
}
