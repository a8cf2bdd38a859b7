//! The words that an operation computes on, where they are known.

ghost use Rattle.std.specs.Prelude.{◌≡◌, ◌<◌, ◌^◌, nat_lt, IfSome};
ghost use Rattle.ia32_alu.specs.Widths.{IsWidth};
ghost use Rattle.abs_alu.specs.Operands.{takes_second as takes_second_spec, takes_carry as takes_carry_spec, word_within as word_within_spec, single_word as single_word_spec, known as known_spec, known_carry as known_carry_spec, operands as operands_spec, AreWords};

use ia32_types::{Flag, Op};
use strided::Si;
use vset::{AbsFlags, ValueSet};

/// The words that an operation computes on. One that it doesn't take is 0.
#[derive(Clone, Copy)]
pub(crate) struct Arguments {
    pub(crate) first: u32,
    pub(crate) second: u32,
    pub(crate) carry: bool,
}

/// Whether there is a second operand.
#[tactic(auto, unfolding(crate::specs::Operands::takes_second))]
pub(crate) fn takes_second(op: &Op) -> bool
    ensures { result ≡ takes_second_spec op.now }
{
    !matches!(op, Op::Inc | Op::Dec | Op::Not | Op::Neg)
}

/// Whether CF is an operand.
#[tactic(auto, unfolding(crate::specs::Operands::takes_carry))]
fn takes_carry(op: &Op) -> bool
    ensures { result ≡ takes_carry_spec op.now }
{
    matches!(op, Op::Adc | Op::Sbb)
}

/// Whether a word fits the width.
fn fits<const W: u32>(word: u32) -> bool
    requires { IsWidth W }
    ensures { result ≡ nat_lt word (2 ^ W) }
{
    match W {
        8 => word < 0x100,
        16 => word < 0x1_0000,
        _ => true,
    }
}

/// The word of a number, where it fits the width.
fn word_within<const W: u32>(number: Option<i32>) -> Option<u32>
    requires { IsWidth W }
    ensures value { result ≡ word_within_spec W number }
    ensures below { IfSome result (λ n. n < 2 ^ W) }
{
    let word = number?.cast_unsigned();
    if fits::<W>(word) { Some(word) } else { None }
}

/// The word of the width that is the one member, where there is one alone.
fn single_word<const W: u32>(numbers: Option<Si>) -> Option<u32>
    requires { IsWidth W }
    ensures value { result ≡ single_word_spec W numbers }
    ensures below { IfSome result (λ n. n < 2 ^ W) }
{
    match numbers {
        None => None,
        Some(x) => word_within::<W>(x.only()),
    }
}

/// The word of the width that is the one value, where there is one alone.
#[tactic(auto, unfolding(crate::specs::Operands::known))]
pub fn known<const W: u32>(v: &ValueSet) -> Option<u32>
    requires { IsWidth W }
    ensures value { result ≡ known_spec W v.now }
    ensures below { IfSome result (λ n. n < 2 ^ W) }
{
    single_word::<W>(v.only_number())
}

/// CF, where it may be one value alone.
#[tactic(auto, unfolding(crate::specs::Operands::known_carry))]
fn known_carry(f: &AbsFlags) -> Option<bool>
    ensures { result ≡ known_carry_spec f.now }
{
    let may_be_clear = f.zero.has(Flag::Cf);
    let may_be_set = f.one.has(Flag::Cf);
    match (may_be_clear, may_be_set) {
        (true, false) => Some(false),
        (false, true) => Some(true),
        _ => None,
    }
}

/// The operands, where each that the operation takes is known.
#[tactic(auto, unfolding(crate::specs::Operands::operands))]
pub(crate) fn operands<const W: u32>(
    op: &Op,
    a: &ValueSet,
    b: &ValueSet,
    f: &AbsFlags,
) -> Option<Arguments>
    requires { IsWidth W }
    ensures value { result ≡ operands_spec W op.now a.now b.now f.now }
    ensures below { IfSome result (λ x. AreWords W x) }
{
    let first = known::<W>(a)?;
    let second = if takes_second(op) { known::<W>(b)? } else { 0 };
    let carry = if takes_carry(op) {
        known_carry(f)?
    } else {
        false
    };
    Some(Arguments {
        first,
        second,
        carry,
    })
}
