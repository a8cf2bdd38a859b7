//! Arithmetic at a width that is known only when it runs.

ghost use Rattle.std.specs.Prelude.{◌≡◌, ◌<◌, ◌≤◌, ◌^◌, ◌%◌, ◌+◌};
ghost use Rattle.ia32_semantics.specs.Operands.{bits};
ghost use Rattle.ia32_semantics.specs.Alu.{sign, alu_value, alu_flags};
ghost use Rattle.ia32_semantics.specs.Shift.{shift_value, shift_flags};
ghost use Rattle.ia32_semantics.specs.Product.{extended as extended_spec, product_low, product_high, product_flags};
ghost use Rattle.ia32_semantics.specs.Division.{division};

use ia32_alu::{alu, divide, mul, shift};
use ia32_semantics::FlagsOut;
use ia32_types::{Op, Width};

/// 2 to the width.
fn limit(width: Width) -> u64
    ensures value { result ≡ 2 ^ bits width }
    ensures high { result ≤ 2 ^ 32 }
{
    match width {
        Width::B8 => 0x100,
        Width::W16 => 0x1_0000,
        Width::D32 => 0x1_0000_0000,
    }
}

/// The top bit of a number of this width.
#[tactic(auto, unfolding(ia32_semantics::specs::Alu::sign))]
pub(crate) fn is_negative(width: Width, value: u32) -> bool
    ensures { result ≡ sign (bits width) value }
{
    match width {
        Width::B8 => 0x80 <= value,
        Width::W16 => 0x8000 <= value,
        Width::D32 => 0x8000_0000 <= value,
    }
}

/// A number of the width `from` at the width `to`, with zeros or with copies of its sign above it.
#[tactic(auto, unfolding(ia32_semantics::specs::Product::extended))]
pub(crate) fn extended(signed: bool, from: Width, to: Width, value: u32) -> u32
    requires { value < 2 ^ bits from }
    ensures { result ≡ extended_spec signed (bits from) (bits to) value }
{
    if signed && is_negative(from, value) {
        (u64::from(value) + limit(to)).saturating_sub(limit(from)) as u32
    } else {
        value
    }
}

/// What an operation of arithmetic or logic gives, and its flags.
pub(crate) fn computed(width: Width, op: &Op, a: u32, b: u32, carry: bool) -> (u32, FlagsOut)
    requires first { a < 2 ^ bits width }
    requires second { b < 2 ^ bits width }
    ensures value { result.0 ≡ alu_value (bits width) op.now a b carry }
    ensures flags { result.1 ≡ alu_flags (bits width) op.now a b carry }
{
    match width {
        Width::B8 => alu::<8>(op, a, b, carry),
        Width::W16 => alu::<16>(op, a, b, carry),
        Width::D32 => alu::<32>(op, a, b, carry),
    }
}

/// What a shift or a rotate gives, and its flags.
pub(crate) fn shifted(width: Width, op: &Op, a: u32, count: u32) -> (u32, FlagsOut)
    requires { a < 2 ^ bits width }
    ensures value { result.0 ≡ shift_value (bits width) op.now a count }
    ensures flags { result.1 ≡ shift_flags (bits width) op.now a count }
{
    match width {
        Width::B8 => shift::<8>(op, a, count),
        Width::W16 => shift::<16>(op, a, count),
        Width::D32 => shift::<32>(op, a, count),
    }
}

/// The low and the high half of a product, and its flags.
pub(crate) fn multiplied(width: Width, signed: bool, a: u32, b: u32) -> (u32, u32, FlagsOut)
    requires first { a < 2 ^ bits width }
    requires second { b < 2 ^ bits width }
    ensures low { result.0 ≡ product_low (bits width) signed a b }
    ensures high { result.1 ≡ product_high (bits width) signed a b }
    ensures flags { result.2 ≡ product_flags (bits width) signed a b }
{
    match width {
        Width::B8 => mul::<8>(signed, a, b),
        Width::W16 => mul::<16>(signed, a, b),
        Width::D32 => mul::<32>(signed, a, b),
    }
}

/// Quotient and remainder of the number whose halves are `high` and `low`, where there is a quotient.
pub(crate) fn divided(
    width: Width,
    signed: bool,
    high: u32,
    low: u32,
    by: u32,
) -> Option<(u32, u32)>
    requires high_part { high < 2 ^ bits width }
    requires low_part { low < 2 ^ bits width }
    requires divisor { by < 2 ^ bits width }
    ensures { result ≡ division (bits width) signed high low by }
{
    match width {
        Width::B8 => divide::<8>(signed, high, low, by),
        Width::W16 => divide::<16>(signed, high, low, by),
        Width::D32 => divide::<32>(signed, high, low, by),
    }
}
