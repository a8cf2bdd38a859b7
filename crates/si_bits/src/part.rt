//! The low bits of members, and what they are as signed numbers of fewer bits.

ghost use Rattle.std.specs.Prelude.{◌≡◌, ◌≤◌, ◌<◌, ◌^◌, ◌≤ℤ◌, ◌-ℤ◌, pos};
ghost use Rattle.strided.specs.Interval.{IsCanonical};
ghost use Rattle.strided.specs.Operations.{spaced};
ghost use Rattle.si_bits.specs.Operations.{low, sign_extend};
ghost use Rattle.si_bits.specs.Concrete.{extended_word};

use crate::shape::{is_natural, is_single, up_to};
use crate::wide::{is_at_least, is_below, less, minus, natural, power};
use strided::Si;

/// The low `bits` bits of the members.
#[tactic(auto, unfolding(crate::specs::Operations::low, crate::specs::Concrete::low_of))]
pub(crate) fn low(a: &Si, bits: u32) -> Si
    requires { bits < 32 }
    ensures value { result ≡ low bits a.now }
    ensures canonical { IsCanonical a.now }
{
    let limit = power(bits);
    if is_single(a) {
        Si::one((a.lo().cast_unsigned() % limit).cast_signed())
    } else if is_natural(a) && is_below(a.hi(), limit) {
        *a
    } else {
        up_to(limit - 1)
    }
}

/// The members, numbers of `bits` bits, as signed numbers of so many bits.
#[tactic(auto, unfolding(crate::specs::Operations::sign_extend, crate::specs::Concrete::extension_of))]
pub(crate) fn sign_extend(a: &Si, bits: u32) -> Si
    requires positive { 0 < bits }
    requires narrow { bits < 32 }
    ensures value { result ≡ sign_extend bits a.now }
    ensures canonical { IsCanonical a.now }
{
    let half = power(bits - 1);
    if is_single(a) {
        Si::one(extended(a.lo().cast_unsigned(), bits).cast_signed())
    } else if is_below(a.hi(), half) {
        *a
    } else if is_at_least(a.lo(), half) {
        lowered(a, power(bits))
    } else {
        Si::spaced(1, minus(half), natural(half - 1))
    }
}

/// The members less `by`.
fn lowered(a: &Si, by: u32) -> Si
    requires natural { pos 0 ≤ℤ a.now.lo }
    requires narrow { by ≤ 2 ^ 31 }
    ensures { result ≡ spaced a.now.stride (a.now.lo -ℤ pos by) (a.now.hi -ℤ pos by) }
{
    let low = less(a.lo(), by);
    let high = less(a.hi(), by);
    Si::spaced(a.stride(), low, high)
}

/// The low `bits` bits, with copies of the highest of them above.
#[tactic(auto, unfolding(crate::specs::Concrete::extended_word))]
fn extended(word: u32, bits: u32) -> u32
    requires positive { 0 < bits }
    requires narrow { bits < 32 }
    ensures { result ≡ extended_word bits word }
{
    let whole = power(bits);
    let low = word % whole;
    if low < power(bits - 1) {
        low
    } else {
        low + (u32::MAX - (whole - 1))
    }
}
