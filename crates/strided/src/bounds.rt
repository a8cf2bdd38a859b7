//! The members within bounds, those in common, and whether one interval lies in another.

ghost use Rattle.std.specs.Prelude.{◌≡◌, ◌↔◌, ◌≤ℤ◌, ℤ, IsTrue, IsSomeAnd};
ghost use Rattle.strided.specs.Interval.{IsBelow, IsClipped, IsMember};
ghost use Rattle.strided.specs.Operations.{clip, meet, below, first_from as first_word};

use crate::arithmetic::{divides, next_multiple, rise};
use crate::interval::Si;

impl Si {
    /// The members from `lo` up to `hi`, or `None` exactly where there is none.
    pub fn clip(&self, lo: i32, hi: i32) -> Option<Si>
        ensures value { result ≡ clip self.now lo hi }
        ensures exact { IsClipped self.now lo hi result }
    {
        let first = first_from(self, lo);
        let last = self.hi().min(hi);
        if first <= i64::from(last) {
            Some(Si::spaced(self.stride(), first as i32, last))
        } else {
            None
        }
    }

    /// An interval that has every common member: `other` where it is one number, and else the members
    /// between its ends; `None` where there are none of these.
    pub fn meet(&self, other: &Si) -> Option<Si>
        ensures value { result ≡ meet self.now other.now }
        ensures keeps { (v : ℤ) → IsMember v self.now → IsMember v other.now
            → IsSomeAnd result (λ c. IsMember v c) }
    {
        if other.stride() == 0 {
            self.has(other.lo()).then_some(*other)
        } else {
            self.clip(other.lo(), other.hi())
        }
    }

    /// Whether each member is a member of `other`.
    pub fn below(&self, other: &Si) -> bool
        ensures value { result ≡ below self.now other.now }
        ensures exact { IsTrue result ↔ IsBelow self.now other.now }
    {
        if !other.has(self.lo()) {
            return false;
        }
        if !other.has(self.hi()) {
            return false;
        }
        divides(other.stride(), self.stride())
    }
}

/// The first number not below `lo` that lies whole strides above the lower end.
fn first_from(si: &Si, lo: i32) -> i64
    ensures { result ≡ first_word si.now lo }
{
    i64::from(si.lo()) + next_multiple(rise(si.lo(), lo), si.stride()) as i64
}
