//! Sums, differences and negations, modulo 2^32.

ghost use Rattle.std.specs.Prelude.{◌≡◌, ◌≤ℤ◌, ◌+ℤ◌, ◌-ℤ◌, ℤ, pos};
ghost use Rattle.strided.specs.Concrete.{sum_of, difference_of, negation_of};
ghost use Rattle.strided.specs.Gcd.{gcd as gcd_value};
ghost use Rattle.strided.specs.Interval.{IsMember};
ghost use Rattle.strided.specs.Operations.{wrap, add, sub, neg};
ghost use Rattle.strided.specs.Rows.{IsWrapped};

use crate::arithmetic::{difference, gcd, signed, sum};
use crate::interval::Si;

impl Si {
    /// The sums of members.
    pub fn add(&self, other: &Si) -> Si
        ensures value { result ≡ add self.now other.now }
        ensures sound { (v w : ℤ) → IsMember v self.now → IsMember w other.now
            → IsMember (sum_of v w) result }
        ensures ends { IsWrapped (gcd_value self.now.stride other.now.stride)
            (self.now.lo +ℤ other.now.lo) (self.now.hi +ℤ other.now.hi) result }
    {
        let stride = gcd(self.stride(), other.stride());
        wrapped(
            stride,
            sum(self.lo(), other.lo()),
            sum(self.hi(), other.hi()),
        )
    }

    /// The differences of members.
    pub fn sub(&self, other: &Si) -> Si
        ensures value { result ≡ sub self.now other.now }
        ensures sound { (v w : ℤ) → IsMember v self.now → IsMember w other.now
            → IsMember (difference_of v w) result }
        ensures ends { IsWrapped (gcd_value self.now.stride other.now.stride)
            (self.now.lo -ℤ other.now.hi) (self.now.hi -ℤ other.now.lo) result }
    {
        let stride = gcd(self.stride(), other.stride());
        wrapped(
            stride,
            difference(self.lo(), other.hi()),
            difference(self.hi(), other.lo()),
        )
    }

    /// The negations of members.
    pub fn neg(&self) -> Si
        ensures value { result ≡ neg self.now }
        ensures sound { (v : ℤ) → IsMember v self.now → IsMember (negation_of v) result }
    {
        Si::one(0).sub(self)
    }
}

/// The interval of two ends that one multiple of 2^32 brings into range, or of all numbers where none does.
fn wrapped(stride: u32, lo: i64, hi: i64) -> Si
    requires order { lo ≤ℤ hi }
    requires near { (hi -ℤ lo) ≤ℤ pos 8589934590 }
    ensures { result ≡ wrap stride lo hi }
{
    let start = signed(lo);
    let end = i64::from(start) + (hi - lo);
    if end <= i64::from(i32::MAX) {
        Si::spaced(stride, start, end as i32)
    } else {
        Si::full()
    }
}
