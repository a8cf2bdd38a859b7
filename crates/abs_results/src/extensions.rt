//! Values of narrower sources, and signs.

ghost use Rattle.std.specs.Prelude.{◌≡◌, ◌<◌, ◌^◌, IfSome, Some};
ghost use Rattle.ia32_semantics.specs.Operands.{bits};
ghost use Rattle.ia32_semantics.specs.Product.{extended as extended_spec};
ghost use Rattle.ia32_types.specs.declared.Width.TheVariants.{B8, W16};
ghost use Rattle.abs_alu.specs.Operands.{known as known_spec};
ghost use Rattle.abs_semantics.specs.Operands.{any_of as any_of_spec, word_number as word_number_spec};
ghost use Rattle.abs_steps.specs.Results.{sign_extended as sign_extended_spec, extended_or_any as extended_or_any_spec, widened as widened_spec, sign_of_numbers as sign_of_numbers_spec, sign_of as sign_of_spec, either_sign as either_sign_spec};
ghost use Rattle.abs_semantics.specs.Operands.{is_up_to};

use abs_alu::{known, number};
use ia32_types::Width;
use si_bits::sign_extend;
use strided::Si;
use vset::ValueSet;

/// The signed number of a word.
pub fn word_number(word: u32) -> ValueSet
    ensures { result ≡ word_number_spec word }
{
    number(word.cast_signed())
}

/// Every number of so many bits.
pub fn any_of(width: Width) -> ValueSet
    ensures { result ≡ any_of_spec width }
{
    match width {
        Width::B8 => ValueSet::numbers(Si::spaced(1, 0, 0xFF)),
        Width::W16 => ValueSet::numbers(Si::spaced(1, 0, 0xFFFF)),
        Width::D32 => ValueSet::top(),
    }
}

/// The word of the width that is the one value, where there is one alone.
pub fn known_at(width: Width, v: &ValueSet) -> Option<u32>
    ensures value { result ≡ known_spec (bits width) v.now }
    ensures below { IfSome result (λ n. n < 2 ^ bits width) }
{
    match width {
        Width::B8 => known::<8>(v),
        Width::W16 => known::<16>(v),
        Width::D32 => known::<32>(v),
    }
}

/// The members lie between 0 and a number.
fn is_within(x: &Si, greatest: u16) -> bool
    ensures { result ≡ is_up_to greatest (Some x.now) }
{
    0 <= x.lo() && x.hi() <= i32::from(greatest)
}

/// Numbers of 8 or 16 bits with copies of their sign.
fn sign_extended(from: Width, numbers: Option<Si>) -> ValueSet
    ensures { result ≡ sign_extended_spec from numbers }
{
    match (from, numbers) {
        (Width::B8, Some(x)) if is_within(&x, 0xFF) => ValueSet::numbers(sign_extend(&x, 8)),
        (Width::W16, Some(x)) if is_within(&x, 0xFFFF) => ValueSet::numbers(sign_extend(&x, 16)),
        _ => ValueSet::top(),
    }
}

/// A byte at 16 bits, with zeros or with its sign.
#[tactic(auto, unfolding(ia32_semantics::specs::Alu::sign, ia32_semantics::specs::Product::extended))]
fn extended_byte(signed: bool, byte: u32) -> u32
    requires { byte < 256 }
    ensures { result ≡ extended_spec signed 8 16 byte }
{
    if signed && 0x80 <= byte {
        byte + 0xFF00
    } else {
        byte
    }
}

/// A byte at 16 bits, or any number of 16 bits where it isn't known.
fn byte_or_any(signed: bool, known: Option<u32>) -> ValueSet
    requires { IfSome known (λ n. n < 2 ^ 8) }
    ensures { result ≡ extended_or_any_spec signed B8 known }
{
    match known {
        None => any_of(Width::W16),
        Some(byte) => word_number(extended_byte(signed, byte)),
    }
}

/// A word at 16 bits.
#[tactic(auto, unfolding(ia32_semantics::specs::Product::extended))]
fn word_or_any(signed: bool, known: Option<u32>) -> ValueSet
    ensures { result ≡ extended_or_any_spec signed W16 known }
{
    match known {
        None => any_of(Width::W16),
        Some(word) => word_number(word),
    }
}

/// A value of a narrower source, extended with zeros or with its sign. There are no sources and results of other widths.
#[tactic(auto, unfolding(abs_steps::specs::Results::widened))]
pub fn widened(signed: bool, from: Width, to: Width, v: ValueSet) -> ValueSet
    ensures { result ≡ widened_spec signed from to v }
{
    match (signed, from, to) {
        (false, _, Width::D32) => v,
        (true, _, Width::D32) => sign_extended(from, v.only_number()),
        (_, Width::B8, Width::W16) => byte_or_any(signed, known::<8>(&v)),
        (_, Width::W16, Width::W16) => word_or_any(signed, known::<16>(&v)),
        _ => any_of(to),
    }
}

/// -1 or 0.
fn either_sign() -> ValueSet
    ensures { result ≡ either_sign_spec }
{
    ValueSet::numbers(Si::spaced(1, -1, 0))
}

/// Copies of the sign: 0, -1, or either.
#[tactic(auto, unfolding(abs_steps::specs::Results::sign_of))]
pub fn sign_of(v: &ValueSet) -> ValueSet
    ensures { result ≡ sign_of_spec v.now }
{
    match v.only_number() {
        None => either_sign(),
        Some(x) => {
            if 0 <= x.lo() {
                number(0)
            } else if x.hi() < 0 {
                number(-1)
            } else {
                either_sign()
            }
        }
    }
}
