//! The bits that members have in common, in either and in one alone.

ghost use Rattle.std.specs.Int.{int_min, int_max, leading_zeros, trailing_zeros, w32};
ghost use Rattle.std.specs.Prelude.{◌≡◌, ◌-◌, ◌≤◌, ◌<◌, ◌^◌, ◌≤ℤ◌, ◌%◌, ◌==◌, if◌then◌else◌, pos};
ghost use Rattle.strided.specs.Interval.{IsCanonical};
ghost use Rattle.si_bits.specs.Operations.{and, or, xor, masked, ceiling, aligned, under_mask, within_bits};
ghost use Rattle.si_bits.specs.Concrete.{and_of};

use crate::shape::{is_natural, is_single, up_to};
use crate::wide::{minus, natural, power};
use strided::Si;

/// The bits that are set in both.
#[tactic(auto, unfolding(crate::specs::Operations::and))]
pub(crate) fn conjunction(a: &Si, b: &Si) -> Si
    ensures value { result ≡ and a.now b.now }
    ensures left { IsCanonical a.now }
    ensures right { IsCanonical b.now }
{
    let is_left_single = is_single(a);
    let is_right_single = is_single(b);
    if is_left_single && is_right_single {
        Si::one(common(a.lo(), b.lo()))
    } else if is_right_single {
        under_mask(a, b.lo())
    } else if is_left_single {
        under_mask(b, a.lo())
    } else if is_natural(a) && is_natural(b) {
        Si::spaced(1, 0, least(a.hi(), b.hi()))
    } else {
        Si::full()
    }
}

/// The bits that are set in one or both.
#[tactic(auto, unfolding(crate::specs::Operations::or, crate::specs::Concrete::or_of))]
pub(crate) fn disjunction(a: &Si, b: &Si) -> Si
    ensures value { result ≡ or a.now b.now }
    ensures left { IsCanonical a.now }
    ensures right { IsCanonical b.now }
{
    let is_left_single = is_single(a);
    let is_right_single = is_single(b);
    if is_left_single && is_right_single {
        Si::one(a.lo() | b.lo())
    } else {
        within_bits(a, b)
    }
}

/// The bits that are set in one alone.
#[tactic(auto, unfolding(crate::specs::Operations::xor, crate::specs::Concrete::xor_of))]
pub(crate) fn difference(a: &Si, b: &Si) -> Si
    ensures value { result ≡ xor a.now b.now }
    ensures left { IsCanonical a.now }
    ensures right { IsCanonical b.now }
{
    let is_left_single = is_single(a);
    let is_right_single = is_single(b);
    if is_left_single && is_right_single {
        Si::one(a.lo() ^ b.lo())
    } else {
        within_bits(a, b)
    }
}

/// The members under the mask `mask`.
#[tactic(auto, unfolding(crate::specs::Operations::under_mask))]
fn under_mask(a: &Si, mask: i32) -> Si
    ensures { result ≡ under_mask a.now mask }
{
    if 0 <= mask {
        masked(a, mask.unsigned_abs())
    } else {
        aligned(a, mask.unsigned_abs())
    }
}

/// The members under a mask that is not negative.
#[tactic(auto, unfolding(crate::specs::Operations::masked))]
fn masked(a: &Si, mask: u32) -> Si
    requires { mask < 2 ^ 31 }
    ensures { result ≡ masked a.now mask }
{
    if mask == 0 {
        return Si::one(0);
    }
    let top = ceiling(a, mask);
    Si::spaced(lowest_bit(mask), 0, top)
}

/// What no member passes under a mask that is not negative.
fn ceiling(a: &Si, mask: u32) -> i32
    requires { mask < 2 ^ 31 }
    ensures value { result ≡ ceiling a.now mask }
    ensures natural { pos 0 ≤ℤ result }
{
    let whole = natural(mask);
    if is_natural(a) {
        least(whole, a.hi())
    } else {
        whole
    }
}

/// The members under the mask that is `unit` below 0.
#[tactic(auto, unfolding(crate::specs::Operations::aligned))]
fn aligned(a: &Si, unit: u32) -> Si
    requires positive { 0 < unit }
    requires narrow { unit ≤ 2 ^ 31 }
    ensures { result ≡ aligned a.now unit }
{
    if lowest_bit(unit) != unit {
        return Si::full();
    }
    let mask = minus(unit);
    let stride = coarser(a.stride(), unit);
    let low = common(a.lo(), mask);
    let high = common(a.hi(), mask);
    Si::spaced(stride, low, high)
}

/// The stride where it is a multiple of `unit`, and else `unit`.
fn coarser(stride: u32, unit: u32) -> u32
    requires { 0 < unit }
    ensures { result ≡ (if stride % unit == 0 then stride else unit) }
{
    if stride % unit == 0 { stride } else { unit }
}

/// The lowest bit that is set.
fn lowest_bit(mask: u32) -> u32
    requires { 0 < mask }
    ensures { result ≡ 2 ^ trailing_zeros w32 mask }
{
    1 << mask.trailing_zeros()
}

/// The numbers of as many bits as the greater upper end has.
#[tactic(auto, unfolding(crate::specs::Operations::within_bits))]
fn within_bits(a: &Si, b: &Si) -> Si
    ensures { result ≡ within_bits a.now b.now }
{
    if is_natural(a) && is_natural(b) {
        up_to(filled(greatest(a.hi(), b.hi()).unsigned_abs()))
    } else {
        Si::full()
    }
}

/// Ones in place of all binary digits.
fn filled(number: u32) -> u32
    requires { number < 2 ^ 31 }
    ensures value { result ≡ 2 ^ (32 - leading_zeros w32 number) - 1 }
    ensures natural { result < 2 ^ 31 }
{
    power(32 - number.leading_zeros()) - 1
}

/// The bits that two words have in common.
#[tactic(auto, unfolding(crate::specs::Concrete::and_of))]
fn common(a: i32, b: i32) -> i32
    ensures { result ≡ and_of a b }
{
    a & b
}

fn least(a: i32, b: i32) -> i32
    ensures { result ≡ int_min a b }
{
    a.min(b)
}

fn greatest(a: i32, b: i32) -> i32
    ensures { result ≡ int_max a b }
{
    a.max(b)
}
