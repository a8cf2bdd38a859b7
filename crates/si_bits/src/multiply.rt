//! Products and shifts to the left.

ghost use Rattle.std.specs.Prelude.{◌≡◌, ◌≤◌, ◌<◌, ◌^◌, unsigned_abs};
ghost use Rattle.strided.specs.Interval.{IsCanonical};
ghost use Rattle.si_bits.specs.Operations.{mul, multiple, shl, span};

use crate::shape::{bounded, is_single};
use crate::wide::{hull, times};
use strided::Si;

#[tactic(auto, unfolding(crate::specs::Operations::mul, crate::specs::Concrete::product_of))]
pub(crate) fn product(a: &Si, b: &Si) -> Si
    ensures value { result ≡ mul a.now b.now }
    ensures left { IsCanonical a.now }
    ensures right { IsCanonical b.now }
{
    let is_left_single = is_single(a);
    let is_right_single = is_single(b);
    if is_left_single && is_right_single {
        Si::one(a.lo().wrapping_mul(b.lo()))
    } else if is_right_single {
        multiple(a, i64::from(b.lo()))
    } else if is_left_single {
        multiple(b, i64::from(a.lo()))
    } else {
        span(a, b)
    }
}

#[tactic(auto, unfolding(crate::specs::Operations::shl, crate::specs::Concrete::shl_of))]
pub(crate) fn shifted_left(a: &Si, count: u32) -> Si
    requires { count < 32 }
    ensures value { result ≡ shl a.now count }
    ensures canonical { IsCanonical a.now }
{
    if is_single(a) {
        Si::one(a.lo() << count)
    } else {
        multiple(a, 1 << count)
    }
}

/// The members times `factor`.
fn multiple(a: &Si, factor: i64) -> Si
    requires { unsigned_abs factor ≤ 2 ^ 31 }
    ensures { result ≡ multiple a.now factor }
{
    bounded(
        u64::from(a.stride()) * factor.unsigned_abs(),
        times(a, factor),
    )
}

/// From the least to the greatest product of two ends.
fn span(a: &Si, b: &Si) -> Si
    ensures { result ≡ span a.now b.now }
{
    let low = times(a, i64::from(b.lo()));
    let high = times(a, i64::from(b.hi()));
    bounded(1, hull(low, high))
}
