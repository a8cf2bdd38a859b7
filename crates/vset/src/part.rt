//! The offsets that a value may have in one region, and lists of such parts in the order of their regions.

ghost use Rattle.std.specs.Prelude.{◌≡◌, ◌≤◌, ◌<◌, ◌++◌, length, take, drop, ◌∷◌, IfOk};
ghost use Rattle.std.specs.Ordering.{int_eq};
ghost use Rattle.image_map.specs.declared.region.RegionId.{RegionId};
ghost use Rattle.strided.specs.Interval.{Interval, IsCanonical};
ghost use Rattle.vset.specs.declared.part.Part.{Part};
ghost use Rattle.vset.specs.declared.part.Both.{Both};
ghost use Rattle.vset.specs.Values.{is_full as is_full_spec, IsFrom};
ghost use Rattle.vset.specs.Operations.{part, both_of as both_of_spec, with_part as with_part_spec, with_parts as with_parts_spec};

use image_map::RegionId;
use std::alloc::{AllocError, Global};
use strided::Si;

/// Offsets in a region.
#[derive(Clone, Copy)]
pub struct Part {
    pub region: RegionId,
    pub si: Si,
}

/// How two intervals become one.
#[derive(Clone, Copy)]
pub enum Both {
    Joined,
    /// The first, widened by the second.
    Widened,
}

pub(crate) fn is_same(a: i32, b: i32) -> bool
    ensures { result ≡ int_eq a b }
{
    a == b
}

/// Whether an interval is every word.
pub(crate) fn is_full(si: &Si) -> bool
    ensures value { result ≡ is_full_spec si.now }
    ensures canonical { IsCanonical si.now }
{
    is_same(si.lo(), i32::MIN) && is_same(si.hi(), i32::MAX) && si.stride() == 1
}

fn both_of(both: Both, a: &Si, b: &Si) -> Si
    ensures { result ≡ both_of_spec both a.now b.now }
{
    match both {
        Both::Joined => a.join(b),
        Both::Widened => a.widen(b),
    }
}

/// The part of both, in the region of the first.
pub(crate) fn part_of_both(both: Both, x: &Part, p: &Part) -> Part
    ensures { result ≡ part x.now.region (both_of_spec both x.now.si p.now.si) }
{
    Part {
        region: x.region,
        si: both_of(both, &x.si, &p.si),
    }
}

/// How many parts stand before a region.
fn place(ps: &[Part], region: &RegionId) -> usize
    ensures within { result ≤ length ps.now }
    ensures passed { (both : Both) (si : Interval) → with_part_spec both (part region.now si) ps.now ≡ take result ps.now ++ with_part_spec both (part region.now si) (drop result ps.now) }
    ensures from { IsFrom region.now (drop result ps.now) }
{
    for (i, p) in ps.iter().enumerate() {
        if !p.region.is_before(region) {
            return i;
        }
    }
    ps.len()
}

/// A list with one more part and then others at its end.
fn appended(out: Vec<Part>, first: &Part, rest: &[Part]) -> Result<Vec<Part>, AllocError>
    ensures { IfOk result (λ v. v.items ≡ out.items ++ (first.now ∷ rest.now)) }
{
    let mut out = out;
    out.push(*first)?;
    out.extend_from_slice(rest)?;
    Ok(out)
}

/// A list with a part among those from its region on at its end.
#[tactic(auto, unfolding(crate::specs::Operations::with_part))]
fn put_first(both: Both, p: &Part, rest: &[Part], out: Vec<Part>) -> Result<Vec<Part>, AllocError>
    requires { IsFrom p.now.region rest.now }
    ensures { IfOk result (λ v. v.items ≡ out.items ++ with_part_spec both p.now rest.now) }
{
    match rest {
        [] => appended(out, p, rest),
        [x, tail @ ..] => {
            if x.region == p.region {
                appended(out, &part_of_both(both, x, p), tail)
            } else {
                appended(out, p, rest)
            }
        }
    }
}

/// A part among parts in order: where its region has a part, that becomes the part of both.
pub(crate) fn with_part(
    alloc: Global,
    both: Both,
    p: &Part,
    ps: &[Part],
) -> Result<Vec<Part>, AllocError>
    ensures { IfOk result (λ v. v.items ≡ with_part_spec both p.now ps.now) }
{
    let (before, rest) = ps.split_at(place(ps, &p.region));
    let out = put_first(both, p, rest, Vec::from_slice(alloc, before)?)?;
    Ok(out)
}

/// Some parts, each put among the others.
pub(crate) fn with_parts(
    alloc: Global,
    both: Both,
    ps: &[Part],
    into: &[Part],
) -> Result<Vec<Part>, AllocError>
    ensures { IfOk result (λ v. v.items ≡ with_parts_spec both ps.now into.now) }
{
    let mut out = Vec::from_slice(alloc, into)?;
    for p in ps {
        out = with_part(alloc, both, p, out.as_slice())?;
    }
    Ok(out)
}
