//! The shapes of results.

ghost use Rattle.std.specs.Prelude.{◌≡◌, ◌+ℤ◌, ◌≤ℤ◌, ◌<◌, ◌^◌, pos};
ghost use Rattle.strided.specs.Interval.{least, greatest, IsCanonical};
ghost use Rattle.strided.specs.Operations.{spaced};
ghost use Rattle.si_bits.specs.Operations.{bounded, up_to, is_single, is_natural};

use crate::wide::{Ends, are_words, narrow};
use strided::Si;

/// Whether there is one member alone.
pub(crate) fn is_single(a: &Si) -> bool
    ensures value { result ≡ is_single a.now }
    ensures canonical { IsCanonical a.now }
{
    a.stride() == 0
}

/// Whether no member is below 0.
pub(crate) fn is_natural(a: &Si) -> bool
    ensures { result ≡ is_natural a.now }
{
    0 <= a.lo()
}

/// The interval from the lower end to the upper one, lowered to the last member; every number where an end is no signed word.
pub(crate) fn bounded(stride: u64, ends: Ends) -> Si
    requires ordered { ends.lo ≤ℤ ends.hi }
    requires narrow { least ≤ℤ ends.lo → ends.hi ≤ℤ greatest → stride < 2 ^ 32 }
    ensures { result ≡ bounded stride ends.lo ends.hi }
{
    if are_words(ends) {
        Si::spaced(stride as u32, narrow(ends.lo), narrow(ends.hi))
    } else {
        Si::full()
    }
}

/// Each number from 0 to `hi`.
pub(crate) fn up_to(hi: u32) -> Si
    requires { hi < 2 ^ 31 }
    ensures { result ≡ up_to hi }
{
    Si::spaced(1, 0, hi as i32)
}
