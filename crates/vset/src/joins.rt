//! Values of two value-sets, and whether one has no more than another.

ghost use Rattle.std.specs.Prelude.{◌≡◌, ◌↔◌, ℕ, IfOk, IsTrue};
ghost use Rattle.std.specs.List.{list_all};
ghost use Rattle.vset.specs.Members.{HasValue};
ghost use Rattle.vset.specs.Values.{settled, CanonicalValues};
ghost use Rattle.vset.specs.World.{World};
ghost use Rattle.vset.specs.Operations.{join as join_spec, widen as widen_spec, of_both as of_both_spec, below as below_spec, is_part_below as is_part_below_spec, with_parts as with_parts_spec, same_interval as same_interval_spec, same_part as same_part_spec, same_parts as same_parts_spec, same_values as same_values_spec};

use crate::part::{Both, Part, is_same, part_of_both, with_parts};
use crate::value::ValueSet;
use std::alloc::{AllocError, Global};
use strided::Si;

/// The values of two value-sets, whose parts become the parts of both.
#[tactic(auto, unfolding(crate::specs::Operations::with_parts, crate::specs::Operations::with_part))]
fn of_both(alloc: Global, both: Both, a: &ValueSet, b: &ValueSet) -> Result<ValueSet, AllocError>
    ensures value { IfOk result (λ v. v ≡ of_both_spec both a.now b.now) }
    ensures forms { CanonicalValues a.now × CanonicalValues b.now }
{
    match (a.parts(), b.parts()) {
        (Some(xs), Some(ys)) => parts_of_both(alloc, both, xs, ys),
        _ => Ok(ValueSet::top()),
    }
}

/// The values of two lists of parts. Where each has one part of one region, no list is made.
#[tactic(auto, unfolding(crate::specs::Operations::with_parts, crate::specs::Operations::with_part))]
fn parts_of_both(
    alloc: Global,
    both: Both,
    xs: &[Part],
    ys: &[Part],
) -> Result<ValueSet, AllocError>
    ensures { IfOk result (λ v. v ≡ settled (with_parts_spec both ys.now xs.now)) }
{
    if let ([x], [y]) = (xs, ys) {
        if x.region == y.region {
            return Ok(ValueSet::one(part_of_both(both, x, y)));
        }
    }
    let parts = with_parts(alloc, both, ys, xs)?;
    Ok(ValueSet::from_parts(parts))
}

/// Whether a part lies within one of some parts.
fn is_part_below(ys: &[Part], x: &Part) -> bool
    ensures { result ≡ is_part_below_spec ys.now x.now }
{
    ys.iter().any(|y| x.region == y.region && x.si.below(&y.si))
}

/// Whether each of some parts lies within one of others.
fn are_below(ys: &[Part], xs: &[Part]) -> bool
    ensures { result ≡ list_all (is_part_below_spec ys.now) xs.now }
{
    xs.iter().all(|x| is_part_below(ys, x))
}

/// Whether two intervals are the same.
pub fn is_same_interval(a: &Si, b: &Si) -> bool
    ensures { result ≡ same_interval_spec a.now b.now }
{
    a.stride() == b.stride() && is_same(a.lo(), b.lo()) && is_same(a.hi(), b.hi())
}

/// Whether two parts are the same: the same offsets of the same region.
pub fn is_same_part(x: &Part, y: &Part) -> bool
    ensures { result ≡ same_part_spec x.now y.now }
{
    x.region == y.region && is_same_interval(&x.si, &y.si)
}

/// Whether two lists of parts are the same.
fn are_same(xs: &[Part], ys: &[Part]) -> bool
    ensures { result ≡ same_parts_spec xs.now ys.now }
{
    if xs.len() != ys.len() {
        return false;
    }
    for i in 0..xs.len() {
        if !is_same_part(&xs[i], &ys[i]) {
            return false;
        }
    }
    true
}

fn is_below(a: &ValueSet, b: &ValueSet) -> bool
    ensures value { result ≡ below_spec a.now b.now }
    ensures form { CanonicalValues a.now }
{
    match (a.parts(), b.parts()) {
        (_, None) => true,
        (None, Some(_)) => false,
        (Some(xs), Some(ys)) => are_below(ys, xs),
    }
}

fn is_same_set(a: &ValueSet, b: &ValueSet) -> bool
    ensures { result ≡ same_values_spec a.now b.now }
{
    match (a.parts(), b.parts()) {
        (None, None) => true,
        (Some(xs), Some(ys)) => are_same(xs, ys),
        _ => false,
    }
}

impl ValueSet {
    /// The values of both.
    #[tactic(auto, unfolding(crate::specs::Operations::join))]
    pub fn join(&self, alloc: Global, other: &ValueSet) -> Result<ValueSet, AllocError>
        ensures value { IfOk result (λ v. v ≡ join_spec self.now other.now) }
        ensures holds_self { (lane : ℕ) (w : World) (n : ℕ) → HasValue lane w n self.now → IfOk result (λ v. HasValue lane w n v) }
        ensures holds_other { (lane : ℕ) (w : World) (n : ℕ) → HasValue lane w n other.now → IfOk result (λ v. HasValue lane w n v) }
    {
        of_both(alloc, Both::Joined, self, other)
    }

    /// The values of both, where an end of an interval that `other` passes goes as far as the words do.
    #[tactic(auto, unfolding(crate::specs::Operations::widen))]
    pub fn widen(&self, alloc: Global, other: &ValueSet) -> Result<ValueSet, AllocError>
        ensures value { IfOk result (λ v. v ≡ widen_spec self.now other.now) }
        ensures holds_self { (lane : ℕ) (w : World) (n : ℕ) → HasValue lane w n self.now → IfOk result (λ v. HasValue lane w n v) }
        ensures holds_other { (lane : ℕ) (w : World) (n : ℕ) → HasValue lane w n other.now → IfOk result (λ v. HasValue lane w n v) }
    {
        of_both(alloc, Both::Widened, self, other)
    }

    /// Whether each part lies within a part of `other`, or `other` is every value.
    pub fn below(&self, other: &ValueSet) -> bool
        ensures value { result ≡ below_spec self.now other.now }
        ensures sound { (lane : ℕ) (w : World) (n : ℕ) → IsTrue result → HasValue lane w n self.now → HasValue lane w n other.now }
    {
        is_below(self, other)
    }

    /// Whether both are the same value-set.
    pub fn equals(&self, other: &ValueSet) -> bool
        ensures value { result ≡ same_values_spec self.now other.now }
        ensures exact { IsTrue result ↔ (self.now ≡ other.now) }
    {
        is_same_set(self, other)
    }
}
