//! The type of a strided interval, its form and its members.

ghost use Rattle.std.specs.Prelude.{◌≡◌, ◌↔◌, ◌<◌, ◌≤ℤ◌, ℤ, Some, IsTrue, SomeIff};
ghost use Rattle.strided.specs.Interval.{interval, full, one as one_spec, IsMember, IsCanonical, HasMembers, member_after};
ghost use Rattle.strided.specs.Operations.{spaced as spaced_spec, has as has_spec, count as count_spec, only as only_spec};

use crate::arithmetic::{divides, gap, is_span, quotient, raised};
use std::cmp::Ordering;
use std::marker::Model;

/// The numbers lo, lo + stride and so on, up to hi.
#[derive(Clone, Copy, Debug, PartialEq, Eq)]
pub struct Si {
    stride: u32,
    lo: i32,
    hi: i32,
}

impl Model for Si {
    ghost use Rattle.strided.specs.Interval.{Interval, interval, IsCanonical};

    ghost Value = { Interval };

    ghost view = { λ s. record { stride = s.stride; lo = s.lo; hi = s.hi } };

    ghost invariant = { λ s. IsCanonical (record { stride = s.stride; lo = s.lo; hi = s.hi }) };

    ghost inverse = { λ a. record { stride = a.stride; lo = a.lo; hi = a.hi } };
}

impl Si {
    /// The interval of these ends, or `None` where its form is not canonical: the stride is 0 exactly
    /// where the ends are equal, and else `hi` lies above `lo` by a multiple of the stride.
    pub fn new(stride: u32, lo: i32, hi: i32) -> Option<Si>
        ensures { SomeIff result (IsCanonical (interval stride lo hi)) (interval stride lo hi) }
    {
        if lo <= hi && is_span(stride, gap(lo, hi)) {
            Some(made(stride, lo, hi))
        } else {
            None
        }
    }

    /// Every number.
    pub fn full() -> Si
        ensures { result ≡ full }
    {
        made(1, i32::MIN, i32::MAX)
    }

    /// The one number `value`.
    pub fn one(value: i32) -> Si
        ensures { result ≡ one_spec value }
    {
        made(0, value, value)
    }

    /// The interval from `lo` up to `hi`, which is lowered to the last member.
    pub fn spaced(stride: u32, lo: i32, hi: i32) -> Si
        requires { lo ≤ℤ hi }
        ensures { result ≡ spaced_spec stride lo hi }
    {
        let turns = quotient(gap(lo, hi), stride);
        if turns == 0 {
            Si::one(lo)
        } else {
            made(stride, lo, raised(lo, turns * stride))
        }
    }

    /// How far neighbouring members are apart; 0 where there is one alone.
    pub fn stride(&self) -> u32
        ensures value { result ≡ self.now.stride }
        ensures canonical { IsCanonical self.now }
    {
        self.stride
    }

    /// The least member.
    pub fn lo(&self) -> i32
        ensures value { result ≡ self.now.lo }
        ensures canonical { IsCanonical self.now }
    {
        self.lo
    }

    /// The greatest member.
    pub fn hi(&self) -> i32
        ensures value { result ≡ self.now.hi }
        ensures canonical { IsCanonical self.now }
    {
        self.hi
    }

    /// Whether `value` is a member.
    pub fn has(&self, value: i32) -> bool
        ensures value { result ≡ has_spec self.now value }
        ensures exact { IsTrue result ↔ IsMember value self.now }
    {
        if value < self.lo {
            return false;
        }
        if self.hi < value {
            return false;
        }
        divides(self.stride, gap(self.lo, value))
    }

    /// How many members there are.
    pub fn count(&self) -> u64
        ensures value { result ≡ count_spec self.now }
        ensures exact { HasMembers self.now result }
    {
        u64::from(quotient(gap(self.lo(), self.hi()), self.stride())) + 1
    }

    /// The member with this number, where the least has the number 0.
    pub fn member(&self, number: u32) -> i32
        requires { number < count_spec self.now }
        ensures value { result ≡ member_after self.now number }
        ensures exact { IsMember result self.now }
    {
        raised(self.lo(), number * self.stride())
    }

    /// The member, where there is one alone.
    pub fn only(&self) -> Option<i32>
        ensures value { result ≡ only_spec self.now }
        ensures exact { (v : ℤ) → (result ≡ Some v) ↔ (self.now ≡ one_spec v) }
    {
        if self.stride() == 0 {
            Some(self.lo())
        } else {
            None
        }
    }
}

impl Ord for Si {
    ghost use Rattle.std.proofs.Common.{rules};
    ghost use Rattle.std.specs.Cmp.Rules.{comparing};
    ghost use Rattle.strided.specs.Order.{interval_cmp};

    ghost cmp = { interval_cmp };

    ghost total = { Prim.search (comparing, rules) };

    ghost matches_partial_cmp = { Prim.search (comparing, rules) };

    ghost matches_eq = { Prim.search (comparing, rules) };

    /// By the stride, then by the lower end, then by the upper one.
    fn cmp(&self, other: &Si) -> Ordering {
        self.stride
            .cmp(&other.stride)
            .then(self.lo.cmp(&other.lo))
            .then(self.hi.cmp(&other.hi))
    }
}

impl PartialOrd for Si {
    ghost use Rattle.std.proofs.Common.{rules};
    ghost use Rattle.std.specs.Cmp.{partial_order_from_own_ties};
    ghost use Rattle.std.specs.Cmp.Rules.{comparing};
    ghost use Rattle.std.specs.Ordering.{as_partial_cmp};
    ghost use Rattle.strided.specs.Order.{interval_cmp};

    ghost partial_cmp = { as_partial_cmp interval_cmp };

    ghost laws = { partial_order_from_own_ties (Prim.search (comparing, rules)) (Prim.search (comparing, rules)) };

    fn partial_cmp(&self, other: &Si) -> Option<Ordering> {
        Some(self.cmp(other))
    }
}

/// The interval of a stride and ends of canonical form.
fn made(stride: u32, lo: i32, hi: i32) -> Si
    requires { IsCanonical (interval stride lo hi) }
    ensures { result ≡ interval stride lo hi }
{
    Si { stride, lo, hi }
}
