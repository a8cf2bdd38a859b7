//! Value-sets under a condition.

ghost use Rattle.std.specs.Prelude.{◌≡◌, ◌^◌, ◌<◌, ℕ, IfOk};
ghost use Rattle.std.specs.List.{filter_map};
ghost use Rattle.ia32_semantics.specs.declared.flags.Flags.{Flags};
ghost use Rattle.ia32_semantics.specs.Condition.{holds};
ghost use Rattle.vset.specs.Members.{HasValue};
ghost use Rattle.vset.specs.Values.{CanonicalValues};
ghost use Rattle.vset.specs.World.{World};
ghost use Rattle.abs_cmp.specs.Facts.{IsCompared};
ghost use Rattle.abs_cmp.specs.Rows.{held as held_spec};
ghost use Rattle.abs_cmp.specs.Refine.{numbers as numbers_spec, refined_part as refined_part_spec, refined_parts as refined_parts_spec, refined as refined_spec, refine as refine_spec};

use crate::rows::{opposite, row};
use ia32_types::Cond;
use image_map::RegionId;
use std::alloc::{AllocError, Global};
use strided::Si;
use vset::{CmpFact, Part, ValueSet};

/// The number of the condition that holds after a test of one.
fn held(cond: Cond, taken: bool) -> u8
    ensures { result ≡ held_spec cond taken }
{
    if taken {
        cond.code()
    } else {
        opposite(cond.code())
    }
}

/// The part of numbers, where some are left.
fn numbers(left: Option<Si>) -> Option<Part>
    ensures { result ≡ numbers_spec left }
{
    left.map(|si| Part {
        region: RegionId::Global,
        si,
    })
}

/// What is left of a part: its numbers are refined, and offsets in another region stay.
fn refined_part(condition: u8, bound: &Si, p: &Part) -> Option<Part>
    ensures { result ≡ refined_part_spec condition bound.now p.now }
{
    if p.region == RegionId::Global {
        numbers(row(condition, &p.si, bound))
    } else {
        Some(*p)
    }
}

/// What is left of each part.
fn left_parts(
    alloc: Global,
    condition: u8,
    bound: &Si,
    ps: &[Part],
) -> Result<Vec<Part>, AllocError>
    ensures { IfOk result (λ v. v.items ≡ filter_map (refined_part_spec condition bound.now) ps.now) }
{
    ps.iter()
        .filter_map(|p| refined_part(condition, bound, p))
        .collect(alloc)
}

/// The value-set of what is left of some parts. Where one part is left of one, no list is made.
fn refined_parts(
    alloc: Global,
    condition: u8,
    bound: &Si,
    ps: &[Part],
) -> Result<ValueSet, AllocError>
    ensures { IfOk result (λ v. v ≡ refined_parts_spec condition bound.now ps.now) }
{
    if let [only] = ps {
        if let Some(left) = refined_part(condition, bound, only) {
            return Ok(ValueSet::one(left));
        }
    }
    let left = left_parts(alloc, condition, bound, ps)?;
    Ok(ValueSet::from_parts(left))
}

/// What is left of a value-set, of which every value is taken as every number.
fn refined(alloc: Global, condition: u8, bound: &Si, v: &ValueSet) -> Result<ValueSet, AllocError>
    ensures value { IfOk result (λ r. r ≡ refined_spec condition bound.now v.now) }
    ensures form { CanonicalValues v.now }
{
    match v.parts() {
        None => {
            let all = Part {
                region: RegionId::Global,
                si: Si::full(),
            };
            refined_parts(alloc, condition, bound, &[all])
        }
        Some(ps) => refined_parts(alloc, condition, bound, ps),
    }
}

/// The values for which a test of the condition came out as `taken`, where the flags are those of a comparison with some
/// member of the fact's bound.
///
/// It answers an error only where memory is wanting.
#[tactic(auto, unfolding(crate::specs::Refine::refine))]
pub fn refine(
    alloc: Global,
    cond: Cond,
    taken: bool,
    fact: &CmpFact,
    v: &ValueSet,
) -> Result<ValueSet, AllocError>
    ensures value { IfOk result (λ r. r ≡ refine_spec cond taken fact.now.bound v.now) }
    ensures keeps { (lane : ℕ) (w : World) (n : ℕ) (flags : Flags) → n < 2 ^ 32 → HasValue lane w n v.now → IsCompared fact.now.bound n flags → holds cond flags ≡ taken → IfOk result (λ r. HasValue lane w n r) }
{
    refined(alloc, held(cond, taken), &fact.bound, v)
}
