//! Lists of states: procedures, links, and what is known of regions.

ghost use Rattle.std.specs.Prelude.{◌≡◌, ◌==◌, not, filter, map, IfOk};
ghost use Rattle.abs_semantics.specs.declared.parts.Known.{Known};
ghost use Rattle.abs_semantics.specs.declared.parts.Link.{Link};
ghost use Rattle.image_map.specs.Regions.{same_region};
ghost use Rattle.abs_semantics.specs.Joins.{with_number};
ghost use Rattle.abs_steps.specs.Calls.{with_only as with_only_spec, is_of_age as is_of_age_spec, links_as as links_as_spec, without_young as without_young_spec};

use abs_semantics::{Known, Link};
use abs_state::{put_known, put_number};
use image_map::RegionId;
use std::alloc::{AllocError, Global};

// -- Procedures

/// Numbers with one more.
pub(crate) fn with_number(alloc: Global, n: u32, xs: &[u32]) -> Result<Vec<u32>, AllocError>
    ensures { IfOk result (λ v. v.items ≡ with_number n xs.now) }
{
    let mut out = Vec::from_slice(alloc, xs)?;
    put_number(&mut out, n)?;
    Ok(out)
}

/// Numbers but one.
pub(crate) fn without_number(alloc: Global, n: u32, xs: &[u32]) -> Result<Vec<u32>, AllocError>
    ensures { IfOk result (λ v. v.items ≡ filter (λ t. not (t == n)) xs.now) }
{
    let mut out = Vec::from_slice(alloc, xs)?;
    out.retain(|x| *x != n);
    Ok(out)
}

// -- Links

fn is_of_age(child: u32, aged: bool, link: &Link) -> bool
    ensures { result ≡ is_of_age_spec child aged link.now }
{
    link.child == child && link.aged == aged
}

fn as_aged(link: &Link, now: bool) -> Link
    ensures { result ≡ record link.now { aged = now } }
{
    Link {
        child: link.child,
        aged: now,
        parent: link.parent,
        off: link.off,
    }
}

/// Some links, as links of an age.
fn all_aged(alloc: Global, now: bool, links: &[Link]) -> Result<Vec<Link>, AllocError>
    ensures { IfOk result (λ v. v.items ≡ map (λ (l : Link). record l { aged = now }) links.now) }
{
    let mut out = Vec::new(alloc);
    for link in links {
        out.push(as_aged(link, now))?;
    }
    Ok(out)
}

/// The links of a child of one age.
fn of_age(alloc: Global, child: u32, aged: bool, links: &[Link]) -> Result<Vec<Link>, AllocError>
    ensures { IfOk result (λ v. v.items ≡ filter (is_of_age_spec child aged) links.now) }
{
    let mut out = Vec::from_slice(alloc, links)?;
    out.retain(|l| is_of_age(child, aged, l));
    Ok(out)
}

/// The links of a child of one age, as links of an age.
pub(crate) fn links_as(
    alloc: Global,
    child: u32,
    aged: bool,
    now: bool,
    links: &[Link],
) -> Result<Vec<Link>, AllocError>
    ensures { IfOk result (λ v. v.items ≡ links_as_spec child aged now links.now) }
{
    let kept = of_age(alloc, child, aged, links)?;
    all_aged(alloc, now, kept.as_slice())
}

/// The links but those of a child that are not old.
pub(crate) fn without_young(
    alloc: Global,
    child: u32,
    links: &[Link],
) -> Result<Vec<Link>, AllocError>
    ensures { IfOk result (λ v. v.items ≡ without_young_spec child links.now) }
{
    let mut out = Vec::from_slice(alloc, links)?;
    out.retain(|l| !is_of_age(child, false, l));
    Ok(out)
}

/// The links but those of a child.
pub(crate) fn without_child(
    alloc: Global,
    child: u32,
    links: &[Link],
) -> Result<Vec<Link>, AllocError>
    ensures { IfOk result (λ v. v.items ≡ filter (λ (l : Link). not (l.child == child)) links.now) }
{
    let mut out = Vec::from_slice(alloc, links)?;
    out.retain(|l| l.child != child);
    Ok(out)
}

// -- What is known of regions

/// Entries but those of a region.
fn without_region(
    alloc: Global,
    region: RegionId,
    known: &[Known],
) -> Result<Vec<Known>, AllocError>
    ensures { IfOk result (λ v. v.items ≡ filter (λ (k : Known). not (same_region k.region region)) known.now) }
{
    let mut out = Vec::from_slice(alloc, known)?;
    out.retain(|k| k.region != region);
    Ok(out)
}

/// What is known of a region, or that nothing is, in the place of what was known.
pub(crate) fn with_only(
    alloc: Global,
    region: RegionId,
    number: Option<u32>,
    known: &[Known],
) -> Result<Vec<Known>, AllocError>
    ensures { IfOk result (λ v. v.items ≡ with_only_spec region number known.now) }
{
    let mut out = without_region(alloc, region, known)?;
    if let Some(number) = number {
        put_known(&mut out, Known { region, number })?;
    }
    Ok(out)
}
