//! Regions that age: a young one's things become old, and the other way round.

ghost use Rattle.std.specs.Prelude.{◌≡◌, ℤ, false, IfOk};
ghost use Rattle.image_map.specs.declared.region.RegionId.{RegionId};
ghost use Rattle.vset.specs.Members.{HasOffset};
ghost use Rattle.std.specs.List.{list_any};
ghost use Rattle.image_map.specs.Regions.{same_region};
ghost use Rattle.vset.specs.Operations.{drop_region as drop_region_spec, age as age_spec, also as also_spec, without_region as without_region_spec, renamed_into as renamed_into_spec, with_renamed as with_renamed_spec};

use crate::part::{Both, Part, with_part};
use crate::value::ValueSet;
use image_map::RegionId;
use std::alloc::{AllocError, Global};

/// Whether a region has a part.
fn has_region(ps: &[Part], region: &RegionId) -> bool
    ensures { result ≡ list_any (λ p. same_region p.region region.now) ps.now }
{
    ps.iter().any(|p| p.region == *region)
}

/// The parts of other regions.
fn without_region(alloc: Global, ps: &[Part], region: &RegionId) -> Result<Vec<Part>, AllocError>
    ensures { IfOk result (λ v. v.items ≡ without_region_spec region.now ps.now) }
{
    let mut out = Vec::from_slice(alloc, ps)?;
    out.retain(|p| p.region != *region);
    Ok(out)
}

/// A part put among others under another region's name, if it is of this region.
fn renamed_into(
    alloc: Global,
    from: &RegionId,
    to: &RegionId,
    p: &Part,
    into: Vec<Part>,
) -> Result<Vec<Part>, AllocError>
    ensures { IfOk result (λ v. v.items ≡ renamed_into_spec from.now to.now p.now into.items) }
{
    if p.region == *from {
        let renamed = Part {
            region: *to,
            si: p.si,
        };
        let parts = with_part(alloc, Both::Joined, &renamed, into.as_slice())?;
        Ok(parts)
    } else {
        Ok(into)
    }
}

/// Each part of a region put among others under another region's name.
fn with_renamed(
    alloc: Global,
    from: &RegionId,
    to: &RegionId,
    ps: &[Part],
    into: Vec<Part>,
) -> Result<Vec<Part>, AllocError>
    ensures { IfOk result (λ v. v.items ≡ with_renamed_spec from.now to.now ps.now into.items) }
{
    let mut out = into;
    for p in ps {
        out = renamed_into(alloc, from, to, p, out)?;
    }
    Ok(out)
}

#[tactic(auto, unfolding(crate::specs::Operations::age))]
fn aged(
    alloc: Global,
    v: &ValueSet,
    young: &RegionId,
    old: &RegionId,
) -> Result<ValueSet, AllocError>
    ensures { IfOk result (λ r. r ≡ age_spec young.now old.now v.now) }
{
    match v.parts() {
        None => Ok(ValueSet::top()),
        Some(ps) => {
            let others = without_region(alloc, ps, young)?;
            let parts = with_renamed(alloc, young, old, ps, others)?;
            Ok(ValueSet::from_parts(parts))
        }
    }
}

#[tactic(auto, unfolding(crate::specs::Operations::also))]
fn with_old(
    alloc: Global,
    v: &ValueSet,
    old: &RegionId,
    young: &RegionId,
) -> Result<ValueSet, AllocError>
    ensures { IfOk result (λ r. r ≡ also_spec old.now young.now v.now) }
{
    match v.parts() {
        None => Ok(ValueSet::top()),
        Some(ps) => {
            let kept = Vec::from_slice(alloc, ps)?;
            let parts = with_renamed(alloc, old, young, ps, kept)?;
            Ok(ValueSet::from_parts(parts))
        }
    }
}

impl ValueSet {
    /// Every value where the region has a part, and else the same.
    #[tactic(auto, unfolding(crate::specs::Operations::drop_region))]
    pub fn drop_region(&self, alloc: Global, region: &RegionId) -> Result<ValueSet, AllocError>
        ensures value { IfOk result (λ v. v ≡ drop_region_spec region.now self.now) }
        ensures keeps { (r : RegionId) (o : ℤ) → HasOffset r o self.now → IfOk result (λ v. HasOffset r o v) }
    {
        match self.parts() {
            None => Ok(ValueSet::top()),
            Some(ps) => {
                if has_region(ps, region) {
                    Ok(ValueSet::top())
                } else {
                    self.clone()
                }
            }
        }
    }

    /// The young region's part renamed, and joined to the old region's.
    pub fn age(
        &self,
        alloc: Global,
        young: &RegionId,
        old: &RegionId,
    ) -> Result<ValueSet, AllocError>
        ensures value { IfOk result (λ v. v ≡ age_spec young.now old.now self.now) }
        ensures keeps { (r : RegionId) (o : ℤ) → same_region r young.now ≡ false → HasOffset r o self.now → IfOk result (λ v. HasOffset r o v) }
        ensures renames { (o : ℤ) → HasOffset young.now o self.now → IfOk result (λ v. HasOffset old.now o v) }
    {
        aged(alloc, self, young, old)
    }

    /// The old region's part kept, and joined to the young region's.
    pub fn also(
        &self,
        alloc: Global,
        old: &RegionId,
        young: &RegionId,
    ) -> Result<ValueSet, AllocError>
        ensures value { IfOk result (λ v. v ≡ also_spec old.now young.now self.now) }
        ensures keeps { (r : RegionId) (o : ℤ) → HasOffset r o self.now → IfOk result (λ v. HasOffset r o v) }
        ensures also_young { (o : ℤ) → HasOffset old.now o self.now → IfOk result (λ v. HasOffset young.now o v) }
    {
        with_old(alloc, self, old, young)
    }
}
