//! Sums and differences of values.

ghost use Rattle.std.specs.Prelude.{◌≡◌, ℕ, ◌+◌, ◌-◌, ◌%◌, ◌^◌, ◌<◌, map, IfOk, [], ◌∷◌};
ghost use Rattle.vset.specs.Operations.{add as add_spec, sub as sub_spec, sum_region as sum_region_spec, difference_region as difference_region_spec, in_region as in_region_spec, pair_of as pair_of_spec, pairs as pairs_spec, gathered, settled_or_top, combined as combined_spec};
ghost use Rattle.vset.specs.Forms.{listed};
ghost use Rattle.vset.specs.Members.{HasValue};
ghost use Rattle.vset.specs.Values.{CanonicalValues};
ghost use Rattle.vset.specs.World.{World};

use crate::part::{Both, Part, with_part};
use crate::value::ValueSet;
use image_map::RegionId;
use std::alloc::{AllocError, Global};
use strided::Si;

/// What is made of two parts.
#[derive(Clone, Copy)]
enum Pairing {
    Sum,
    Difference,
}

/// The region of a sum: that of the operand that is no number.
fn sum_region(a: &RegionId, b: &RegionId) -> Option<RegionId>
    ensures { result ≡ sum_region_spec a.now b.now }
{
    match (*a, *b) {
        (RegionId::Global, b) => Some(b),
        (a, RegionId::Global) => Some(a),
        _ => None,
    }
}

/// The region of a difference: that of the first operand where the second is a number, and numbers for two
/// offsets in one newest activation.
fn difference_region(a: &RegionId, b: &RegionId) -> Option<RegionId>
    ensures { result ≡ difference_region_spec a.now b.now }
{
    match *b {
        RegionId::Global => Some(*a),
        RegionId::Frame(q) => match *a {
            RegionId::Frame(p) => { if p == q { Some(RegionId::Global) } else { None } }
            _ => None,
        },
        _ => None,
    }
}

fn in_region(region: Option<RegionId>, si: Si) -> Option<Part>
    ensures { result ≡ in_region_spec region si }
{
    match region {
        None => None,
        Some(region) => Some(Part { region, si }),
    }
}

/// The part that is made of two parts, where there is one.
fn pair_of(pairing: Pairing, x: &Part, y: &Part) -> Option<Part>
    ensures { result ≡ pair_of_spec pairing x.now y.now }
{
    match pairing {
        Pairing::Sum => in_region(sum_region(&x.region, &y.region), x.si.add(&y.si)),
        Pairing::Difference => in_region(difference_region(&x.region, &y.region), x.si.sub(&y.si)),
    }
}

/// What is made of one part and each of some others, joined into parts.
fn gather_row(
    alloc: Global,
    pairing: Pairing,
    x: &Part,
    ys: &[Part],
    into: Vec<Part>,
) -> Result<Option<Vec<Part>>, AllocError>
    ensures { IfOk result (λ o. listed o ≡ gathered into.items (map (pair_of_spec pairing x.now) ys.now)) }
{
    let mut out = into;
    for y in ys {
        match pair_of(pairing, x, y) {
            None => return Ok(None),
            Some(p) => out = with_part(alloc, Both::Joined, &p, out.as_slice())?,
        }
    }
    Ok(Some(out))
}

/// What is made of all pairs of two lists of parts, joined.
fn gather(
    alloc: Global,
    pairing: Pairing,
    xs: &[Part],
    ys: &[Part],
) -> Result<Option<Vec<Part>>, AllocError>
    ensures { IfOk result (λ o. listed o ≡ gathered [] (pairs_spec pairing xs.now ys.now)) }
{
    let mut out = Vec::new(alloc);
    for x in xs {
        match gather_row(alloc, pairing, x, ys, out)? {
            None => return Ok(None),
            Some(parts) => out = parts,
        }
    }
    Ok(Some(out))
}

#[tactic(auto, unfolding(crate::specs::Operations::gathered, crate::specs::Operations::with_part))]
/// What is made of two lists of parts. Where each has one part, no list is made.
fn parts_combined(
    alloc: Global,
    pairing: Pairing,
    xs: &[Part],
    ys: &[Part],
) -> Result<ValueSet, AllocError>
    ensures { IfOk result (λ v. v ≡ settled_or_top (gathered [] (pairs_spec pairing xs.now ys.now))) }
{
    if let ([x], [y]) = (xs, ys) {
        return Ok(one_or_top(pair_of(pairing, x, y)));
    }
    match gather(alloc, pairing, xs, ys)? {
        None => Ok(ValueSet::top()),
        Some(parts) => Ok(ValueSet::from_parts(parts)),
    }
}

#[tactic(auto, unfolding(crate::specs::Operations::gathered, crate::specs::Operations::with_part))]
fn one_or_top(part: Option<Part>) -> ValueSet
    ensures { result ≡ settled_or_top (gathered [] (part ∷ [])) }
{
    match part {
        None => ValueSet::top(),
        Some(part) => ValueSet::one(part),
    }
}

fn combined(
    alloc: Global,
    pairing: Pairing,
    a: &ValueSet,
    b: &ValueSet,
) -> Result<ValueSet, AllocError>
    ensures value { IfOk result (λ v. v ≡ combined_spec pairing a.now b.now) }
    ensures forms { CanonicalValues a.now × CanonicalValues b.now }
{
    match (a.parts(), b.parts()) {
        (Some(xs), Some(ys)) => parts_combined(alloc, pairing, xs, ys),
        _ => Ok(ValueSet::top()),
    }
}

impl ValueSet {
    /// The sums of values, modulo 2^32.
    #[tactic(auto, unfolding(crate::specs::Operations::add))]
    pub fn add(&self, alloc: Global, other: &ValueSet) -> Result<ValueSet, AllocError>
        ensures value { IfOk result (λ v. v ≡ add_spec self.now other.now) }
        ensures sound { (lane : ℕ) (w : World) (m n : ℕ) → n < 2 ^ 32 → HasValue lane w m self.now → HasValue lane w n other.now → IfOk result (λ v. HasValue lane w ((m + n) % 2 ^ 32) v) }
    {
        combined(alloc, Pairing::Sum, self, other)
    }

    /// The differences of values, modulo 2^32.
    #[tactic(auto, unfolding(crate::specs::Operations::sub))]
    pub fn sub(&self, alloc: Global, other: &ValueSet) -> Result<ValueSet, AllocError>
        ensures value { IfOk result (λ v. v ≡ sub_spec self.now other.now) }
        ensures sound { (lane : ℕ) (w : World) (m n : ℕ) → n < 2 ^ 32 → HasValue lane w m self.now → HasValue lane w n other.now → IfOk result (λ v. HasValue lane w ((m + 2 ^ 32 - n) % 2 ^ 32) v) }
    {
        combined(alloc, Pairing::Difference, self, other)
    }
}
