//! The join of two intervals, and the widening of one by another.

ghost use Rattle.std.specs.Prelude.{◌≡◌};
ghost use Rattle.strided.specs.Interval.{IsBelow, IsCanonical};
ghost use Rattle.strided.specs.Operations.{
  join,
  widen,
  lowest as lowest_word,
  joint_stride as joint,
  widened_lo as lower_end,
  widened_hi as upper_end,
};
ghost use Rattle.strided.specs.Rows.{HasJoinedEnds, HasWidenedEnds};

use crate::arithmetic::{gap, gcd, raised, remainder};
use crate::interval::Si;

impl Si {
    /// The members of both, in one interval.
    pub fn join(&self, other: &Si) -> Si
        ensures value { result ≡ join self.now other.now }
        ensures ends { HasJoinedEnds self.now other.now result }
        ensures holds_self { IsBelow self.now result }
        ensures holds_other { IsBelow other.now result }
    {
        let lo = self.lo().min(other.lo());
        Si::spaced(joint_stride(self, other), lo, self.hi().max(other.hi()))
    }

    /// The members of both, where an end that `other` passes goes as far as the numbers do.
    pub fn widen(&self, other: &Si) -> Si
        ensures value { result ≡ widen self.now other.now }
        ensures ends { HasWidenedEnds self.now other.now result }
        ensures holds_self { IsBelow self.now result }
        ensures holds_other { IsBelow other.now result }
    {
        let stride = joint_stride(self, other);
        Si::spaced(
            stride,
            widened_lo(stride, self, other),
            widened_hi(self, other),
        )
    }
}

/// The lower end of an interval that is widened: its own, or the least number at whole strides from it.
fn widened_lo(stride: u32, old: &Si, new: &Si) -> i32
    ensures { result ≡ lower_end stride old.now new.now }
{
    if old.lo() <= new.lo() {
        old.lo()
    } else {
        lowest(stride, old.lo())
    }
}

/// The upper end, before it is lowered to a member.
fn widened_hi(old: &Si, new: &Si) -> i32
    ensures { result ≡ upper_end old.now new.now }
{
    if new.hi() <= old.hi() {
        old.hi()
    } else {
        i32::MAX
    }
}

/// The greatest stride at which the members of both lie.
fn joint_stride(a: &Si, b: &Si) -> u32
    ensures value { result ≡ joint a.now b.now }
    ensures forms { IsCanonical a.now × IsCanonical b.now }
{
    gcd(gcd(a.stride(), b.stride()), a.lo().abs_diff(b.lo()))
}

/// The least number that lies whole strides from `value`.
fn lowest(stride: u32, value: i32) -> i32
    ensures { result ≡ lowest_word stride value }
{
    raised(i32::MIN, remainder(gap(i32::MIN, value), stride))
}
