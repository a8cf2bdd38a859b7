//! What is met one link further.

ghost use Rattle.std.specs.Prelude.{◌≡◌, ◌&&◌, not, [], IfOk, OnOk, MatchOption, true};
ghost use Rattle.std.specs.List.{flat_map};
ghost use Rattle.vset.specs.declared.part.Part.{Part};
ghost use Rattle.image_map.specs.declared.region.RegionId.TheVariants as region;
ghost use Rattle.image_map.specs.Regions.{same_region};
ghost use Rattle.strided.specs.Operations as interval;
ghost use Rattle.vset.specs.Operations.{part};
ghost use Rattle.abs_semantics.specs.declared.parts.Link.{Link};
ghost use Rattle.abs_semantics.specs.States.{has_procedure};
ghost use Rattle.abs_semantics.specs.Resolve.{put_part, rising_onto, links_from, links_of_region, next_of, through};
ghost use Rattle.abs_resolve.specs.Search.{is_crowd};
ghost use Rattle.abs_resolve.specs.Owned.{state_of};

use crate::owners::{Owners, is_link_of};
use crate::parts::{is_too_long, put};
use crate::verdicts::{Access, Activations, Verdict, verdict_at};
use abs_semantics::Link;
use image_map::RegionId;
use std::alloc::{AllocError, Global};
use vset::Part;

/// Puts a part of the region at a link's parent among others.
fn put_moved(
    region: RegionId,
    x: &Part,
    link: &Link,
    parts: &mut Vec<Part>,
) -> Result<(), AllocError>
    ensures { OnOk result (parts.new.items ≡ put_part (part region (interval.add x.now.si link.now.off)) parts.old.items) }
{
    put(
        &Part {
            region,
            si: x.si.add(&link.off),
        },
        parts,
    )
}

/// Whether the activation that called may be one that isn't its procedure's newest.
fn may_be_older(owners: &Owners, procedure: u32, x: &Part, link: &Link) -> bool
    ensures { result ≡ (not (same_region x.now.region (region.Frame procedure)) && has_procedure link.now.parent (state_of owners.now).older) }
{
    if x.region == RegionId::Frame(procedure) {
        return false;
    }
    owners.has_older(link.parent)
}

/// Puts what one link makes of a part among others.
fn put_through(
    owners: &Owners,
    procedure: u32,
    x: &Part,
    link: &Link,
    parts: &mut Vec<Part>,
) -> Result<(), AllocError>
    ensures { OnOk result (parts.new.items ≡ rising_onto parts.old.items (through (state_of owners.now) procedure x.now link.now)) }
{
    if link.parent == link.child {
        return put_moved(RegionId::OldFrame(link.parent), x, link, parts);
    }
    put_moved(RegionId::Frame(link.parent), x, link, parts)?;
    if may_be_older(owners, procedure, x, link) {
        put_moved(RegionId::OldFrame(link.parent), x, link, parts)?;
    }
    Ok(())
}

/// Puts what the links of some activations make of a part among others.
fn put_parents(
    owners: &Owners,
    procedure: u32,
    x: &Part,
    of: &Activations,
    parts: &mut Vec<Part>,
) -> Result<(), AllocError>
    ensures { OnOk result (parts.new.items ≡ rising_onto parts.old.items (flat_map (through (state_of owners.now) procedure x.now) (links_from (state_of owners.now) of.now.procedure of.now.aged))) }
{
    for link in owners.links() {
        if !is_link_of(link, of.procedure, of.aged) {
            continue;
        }
        put_through(owners, procedure, x, link, parts)?;
    }
    Ok(())
}

/// Puts what the links of a part's region make of it among others.
fn put_followed(
    owners: &Owners,
    procedure: u32,
    x: &Part,
    parts: &mut Vec<Part>,
) -> Result<(), AllocError>
    ensures { OnOk result (parts.new.items ≡ rising_onto parts.old.items (flat_map (through (state_of owners.now) procedure x.now) (links_of_region (state_of owners.now) x.now.region))) }
{
    let (procedure_of, aged) = match x.region {
        RegionId::Frame(q) => (q, false),
        RegionId::OldFrame(q) => (q, true),
        RegionId::Global | RegionId::Heap(_) | RegionId::OldHeap(_) => return Ok(()),
    };
    let of = Activations {
        procedure: procedure_of,
        aged,
    };
    put_parents(owners, procedure, x, &of, parts)
}

/// Puts what a part is followed to, after so many links, among others.
fn put_next(
    owners: &Owners,
    access: &Access,
    followed: usize,
    x: &Part,
    parts: &mut Vec<Part>,
) -> Result<(), AllocError>
    ensures { OnOk result (parts.new.items ≡ rising_onto parts.old.items (next_of (state_of owners.now) access.now.procedure access.now.len followed x.now)) }
{
    match verdict_at(owners, access, followed, x) {
        Verdict::Follows(_) => put_followed(owners, access.procedure, x, parts),
        Verdict::Refuses(_) | Verdict::Stays => Ok(()),
    }
}

/// What some parts are followed to after so many links; none where that is too much.
pub(crate) fn next_level(
    alloc: Global,
    owners: &Owners,
    access: &Access,
    followed: usize,
    level: &[Part],
) -> Result<Option<Vec<Part>>, AllocError>
    ensures { IfOk result (λ next. MatchOption next (is_crowd (rising_onto [] (flat_map (next_of (state_of owners.now) access.now.procedure access.now.len followed) level.now)) ≡ true) (λ v. v.items ≡ rising_onto [] (flat_map (next_of (state_of owners.now) access.now.procedure access.now.len followed) level.now))) }
{
    let mut next = Vec::new(alloc);
    for x in level {
        put_next(owners, access, followed, x, &mut next)?;
        if is_too_long(next.as_slice()) {
            return Ok(None);
        }
    }
    Ok(Some(next))
}
