//! Arithmetic and logic.

ghost use Rattle.std.specs.Prelude.{◌≡◌, ◌<◌, ◌^◌, ℕ, Bool, false};
ghost use Rattle.ia32_alu.specs.Widths.{IsWidth};
ghost use Rattle.ia32_semantics.specs.Alu.{alu_value, alu_flags, sum as sum_spec, difference as difference_spec, sum_flags as sum_flags_spec, difference_flags as difference_flags_spec, logic_flags as logic_flags_spec, with_carry_kept as with_carry_kept_spec};

use crate::bits::{carry_value, complement, differ, kept_flags, limit, result_flags, sign};
use ia32_semantics::{FlagOut, FlagsOut};
use ia32_types::Op;

/// A sum and its flags.
#[tactic(auto, unfolding(ia32_semantics::specs::Alu::sum, ia32_semantics::specs::Alu::sum_flags, ia32_semantics::specs::Alu::sum_carries, ia32_semantics::specs::Alu::sum_overflows))]
fn added<const W: u32>(a: u32, b: u32, carry: bool) -> (u32, FlagsOut)
    requires { IsWidth W }
    ensures value { result.0 ≡ sum_spec W a b carry }
    ensures flags { result.1 ≡ sum_flags_spec W a b carry }
    ensures below { result.0 < 2 ^ W }
{
    let whole = u64::from(a) + u64::from(b) + carry_value(carry);
    let value = (whole % limit::<W>()) as u32;
    let carries = limit::<W>() <= whole;
    let overflows = !differ(sign::<W>(a), sign::<W>(b)) && differ(sign::<W>(a), sign::<W>(value));
    (
        value,
        result_flags::<W>(value, FlagOut::Set(carries), FlagOut::Set(overflows)),
    )
}

/// A difference.
#[tactic(auto, unfolding(ia32_semantics::specs::Alu::difference))]
fn difference<const W: u32>(a: u32, b: u32, borrow: bool) -> u32
    requires width { IsWidth W }
    requires in_width { b < 2 ^ W }
    ensures value { result ≡ difference_spec W a b borrow }
    ensures below { result < 2 ^ W }
{
    let taken = u64::from(b) + carry_value(borrow);
    ((u64::from(a) + limit::<W>() - taken) % limit::<W>()) as u32
}

/// A difference and its flags.
#[tactic(auto, unfolding(ia32_semantics::specs::Alu::difference_flags, ia32_semantics::specs::Alu::difference_borrows, ia32_semantics::specs::Alu::difference_overflows))]
fn subtracted<const W: u32>(a: u32, b: u32, borrow: bool) -> (u32, FlagsOut)
    requires width { IsWidth W }
    requires in_width { b < 2 ^ W }
    ensures value { result.0 ≡ difference_spec W a b borrow }
    ensures flags { result.1 ≡ difference_flags_spec W a b borrow }
{
    let value = difference::<W>(a, b, borrow);
    let borrows = u64::from(a) < u64::from(b) + carry_value(borrow);
    let overflows = differ(sign::<W>(a), sign::<W>(b)) && differ(sign::<W>(a), sign::<W>(value));
    (
        value,
        result_flags::<W>(value, FlagOut::Set(borrows), FlagOut::Set(overflows)),
    )
}

/// The flags of a bitwise operation.
#[tactic(auto, unfolding(ia32_semantics::specs::Alu::logic_flags))]
fn logic_flags<const W: u32>(value: u32) -> FlagsOut
    requires { IsWidth W }
    ensures { result ≡ logic_flags_spec W value }
{
    result_flags::<W>(value, FlagOut::Set(false), FlagOut::Set(false))
}

/// A bitwise operation's result, with its flags.
fn logic<const W: u32>(value: u32) -> (u32, FlagsOut)
    requires { IsWidth W }
    ensures value { result.0 ≡ value }
    ensures flags { result.1 ≡ logic_flags_spec W value }
{
    (value, logic_flags::<W>(value))
}

/// A result whose operation keeps CF.
fn with_carry_kept(of: (u32, FlagsOut)) -> (u32, FlagsOut)
    ensures value { result.0 ≡ of.0 }
    ensures flags { result.1 ≡ with_carry_kept_spec of.1 }
{
    let (value, flags) = of;
    let kept = FlagsOut {
        cf: FlagOut::Kept,
        pf: flags.pf,
        zf: flags.zf,
        sf: flags.sf,
        of: flags.of,
    };
    (value, kept)
}

/// What an operation of arithmetic or logic gives at a width, and what it does to the flags: `Add`, `Or`, `Adc`,
/// `Sbb`, `And`, `Sub`, `Xor`, `Cmp`, `Test`, `Inc`, `Dec`, `Not` and `Neg`. One operand is `a`; `Cmp` and `Test`
/// give the number of `Sub` and `And`; any other operation gives 0 and keeps the flags.
#[tactic(auto, unfolding(ia32_semantics::specs::Alu::alu_value, ia32_semantics::specs::Alu::alu_flags))]
pub fn alu<const W: u32>(op: &Op, a: u32, b: u32, carry: bool) -> (u32, FlagsOut)
    requires width { IsWidth W }
    requires first { a < 2 ^ W }
    requires second { b < 2 ^ W }
    ensures value { result.0 ≡ alu_value W op.now a b carry }
    ensures flags { result.1 ≡ alu_flags W op.now a b carry }
{
    match op {
        Op::Add => added::<W>(a, b, false),
        Op::Or => logic::<W>(a | b),
        Op::Adc => added::<W>(a, b, carry),
        Op::Sbb => subtracted::<W>(a, b, carry),
        Op::And => logic::<W>(a & b),
        Op::Sub => subtracted::<W>(a, b, false),
        Op::Xor => logic::<W>(a ^ b),
        Op::Cmp => subtracted::<W>(a, b, false),
        Op::Test => logic::<W>(a & b),
        Op::Inc => with_carry_kept(added::<W>(a, 1, false)),
        Op::Dec => with_carry_kept(subtracted::<W>(a, 1, false)),
        Op::Not => (complement::<W>(a), kept_flags()),
        Op::Neg => subtracted::<W>(0, a, false),
        _ => (0, kept_flags()),
    }
}
