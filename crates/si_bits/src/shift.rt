//! Shifts to the right.

ghost use Rattle.std.specs.Prelude.{◌≡◌, ◌<◌};
ghost use Rattle.std.specs.Int.{int_shr};
ghost use Rattle.strided.specs.Interval.{IsCanonical};
ghost use Rattle.si_bits.specs.Operations.{shr, sar, shifted, shifted_stride};

use crate::shape::{is_natural, is_single, up_to};
use strided::Si;

/// The members shifted by `count` bits, with zeros from above.
#[tactic(auto, unfolding(crate::specs::Operations::shr, crate::specs::Concrete::shr_of))]
pub(crate) fn with_zeros(a: &Si, count: u32) -> Si
    requires { count < 32 }
    ensures value { result ≡ shr a.now count }
    ensures canonical { IsCanonical a.now }
{
    if is_single(a) {
        Si::one((a.lo().cast_unsigned() >> count).cast_signed())
    } else if count == 0 {
        *a
    } else if is_natural(a) {
        shifted(a, count)
    } else {
        up_to(u32::MAX >> count)
    }
}

/// The members shifted by `count` bits, with copies of the sign bit from above.
#[tactic(auto, unfolding(crate::specs::Operations::sar))]
pub(crate) fn with_sign(a: &Si, count: u32) -> Si
    requires { count < 32 }
    ensures value { result ≡ sar a.now count }
    ensures canonical { IsCanonical a.now }
{
    if is_single(a) {
        Si::one(moved(a.lo(), count))
    } else {
        shifted(a, count)
    }
}

/// The ends shifted to the right, rounded down.
fn shifted(a: &Si, count: u32) -> Si
    requires { count < 32 }
    ensures { result ≡ shifted a.now count }
{
    let stride = shifted_stride(a, count);
    let low = moved(a.lo(), count);
    let high = moved(a.hi(), count);
    Si::spaced(stride, low, high)
}

/// How far the shifted members are apart.
fn shifted_stride(a: &Si, count: u32) -> u32
    requires { count < 32 }
    ensures { result ≡ shifted_stride a.now count }
{
    let unit = 1 << count;
    if a.stride() % unit == 0 && a.lo().unsigned_abs() % unit == 0 {
        a.stride() >> count
    } else {
        1
    }
}

/// The quotient by a power of 2, rounded down.
fn moved(number: i32, count: u32) -> i32
    requires { count < 32 }
    ensures { result ≡ int_shr number count }
{
    number >> count
}
