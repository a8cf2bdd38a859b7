//! Numbers, links and known numbers put among others in order.

ghost use Rattle.std.specs.Prelude.{◌≡◌, ◌==◌, ◌||◌, nat_lt, not, IfOk, OnOk, OnErr};
ghost use Rattle.std.specs.List.{position, position_or_len};
ghost use Rattle.abs_semantics.specs.declared.parts.Known.{Known};
ghost use Rattle.abs_semantics.specs.declared.parts.Link.{Link};
ghost use Rattle.image_map.specs.Regions.{same_region, region_before};
ghost use Rattle.abs_semantics.specs.Joins.{with_number, numbers_of, same_link, link_before, with_link, links_of, put_known as put_known_spec, with_size, sizes_of, lesser as lesser_spec};

use abs_semantics::{Known, Link};
use cell_map::{is_same_link, known_number};
use image_map::RegionId;
use std::alloc::{AllocError, Global};

fn stops_at_number(x: u32, n: u32) -> bool
    ensures { result ≡ (x == n || not (nat_lt x n)) }
{
    x == n || !(x < n)
}

fn first_number(xs: &[u32], n: u32) -> Option<usize>
    ensures { result ≡ position (λ x. x == n || not (nat_lt x n)) xs.now }
{
    xs.iter().position(|x| stops_at_number(*x, n))
}

/// Where a number stands among others, or would.
fn number_place(xs: &[u32], n: u32) -> usize
    ensures { result ≡ position_or_len (λ x. x == n || not (nat_lt x n)) xs.now }
{
    match first_number(xs, n) {
        Some(place) => place,
        None => xs.len(),
    }
}

/// Puts a number among rising ones, once.
pub fn put_number(xs: &mut Vec<u32>, n: u32) -> Result<(), AllocError>
    ensures { OnOk result (xs.new.items ≡ with_number n xs.old.items) }
{
    let place = number_place(xs.as_slice(), n);
    if place < xs.len() && xs[place] == n {
        return Ok(());
    }
    xs.insert(place, n)?;
    Ok(())
}

/// Some numbers put among rising ones, each once.
pub fn numbers(alloc: Global, more: &[u32], into: &[u32]) -> Result<Vec<u32>, AllocError>
    ensures { IfOk result (λ v. v.items ≡ numbers_of more.now into.now) }
{
    let mut out = Vec::from_slice(alloc, into)?;
    let mut rest = more;
    while let Some((n, before)) = rest.split_last() {
        put_number(&mut out, *n)?;
        rest = before;
    }
    Ok(out)
}

fn stops_at_region(k: &Known, region: &RegionId) -> bool
    ensures { result ≡ (same_region k.now.region region.now || not (region_before k.now.region region.now)) }
{
    k.region == *region || !k.region.is_before(region)
}

fn first_known(ks: &[Known], region: &RegionId) -> Option<usize>
    ensures { result ≡ position (λ (k : Known). same_region k.region region.now || not (region_before k.region region.now)) ks.now }
{
    ks.iter().position(|k| stops_at_region(k, region))
}

/// Where a region stands among others, or would.
fn known_place(ks: &[Known], region: &RegionId) -> usize
    ensures { result ≡ position_or_len (λ (k : Known). same_region k.region region.now || not (region_before k.region region.now)) ks.now }
{
    match first_known(ks, region) {
        Some(place) => place,
        None => ks.len(),
    }
}

/// Puts a region's number among those of other regions, over the one that it has.
pub fn put_known(ks: &mut Vec<Known>, k: Known) -> Result<(), AllocError>
    ensures { OnOk result (ks.new.items ≡ put_known_spec k ks.old.items) }
{
    let place = known_place(ks.as_slice(), &k.region);
    if place < ks.len() && ks[place].region == k.region {
        ks[place] = k;
        return Ok(());
    }
    ks.insert(place, k)?;
    Ok(())
}

fn lesser(n: u32, other: Option<u32>) -> u32
    ensures { result ≡ lesser_spec n other }
{
    match other {
        Some(m) if !(n <= m) => m,
        _ => n,
    }
}

fn put_size(ks: &mut Vec<Known>, k: &Known) -> Result<(), AllocError>
    ensures { OnOk result (ks.new.items ≡ with_size k.now ks.old.items) }
{
    let number = lesser(k.number, known_number(ks.as_slice(), &k.region));
    put_known(
        ks,
        Known {
            region: k.region,
            number,
        },
    )
}

/// Some sizes put among others: of two of one region the lesser stays.
pub(crate) fn sizes(alloc: Global, more: &[Known], into: &[Known]) -> Result<Vec<Known>, AllocError>
    ensures { IfOk result (λ v. v.items ≡ sizes_of more.now into.now) }
{
    let mut out = Vec::from_slice(alloc, into)?;
    let mut rest = more;
    while let Some((k, before)) = rest.split_last() {
        put_size(&mut out, k)?;
        rest = before;
    }
    Ok(out)
}

fn is_link_before(l: &Link, m: &Link) -> bool
    ensures { result ≡ link_before l.now m.now }
{
    if l.child == m.child {
        if l.aged == m.aged {
            l.parent < m.parent
        } else {
            m.aged
        }
    } else {
        l.child < m.child
    }
}

fn stops_at_link(m: &Link, l: &Link) -> bool
    ensures { result ≡ (same_link m.now l.now || not (link_before m.now l.now)) }
{
    is_same_link(m, l) || !is_link_before(m, l)
}

fn first_link(ls: &[Link], l: &Link) -> Option<usize>
    ensures { result ≡ position (λ (m : Link). same_link m l.now || not (link_before m l.now)) ls.now }
{
    ls.iter().position(|m| stops_at_link(m, l))
}

/// Where a link stands among others, or would.
fn link_place(ls: &[Link], l: &Link) -> usize
    ensures { result ≡ position_or_len (λ (m : Link). same_link m l.now || not (link_before m l.now)) ls.now }
{
    match first_link(ls, l) {
        Some(place) => place,
        None => ls.len(),
    }
}

/// Puts a link among others: of two links of the same procedures and age the offsets are joined.
pub fn put_link(ls: &mut Vec<Link>, l: &Link) -> Result<(), AllocError>
    ensures { OnOk result (ls.new.items ≡ with_link l.now ls.old.items) }
{
    let place = link_place(ls.as_slice(), l);
    if place < ls.len() && is_same_link(&ls[place], l) {
        let off = ls[place].off.join(&l.off);
        ls[place].off = off;
        return Ok(());
    }
    ls.insert(place, *l)?;
    Ok(())
}

/// Puts some links among others, each as `put_link` does.
pub fn put_links(links: &mut Vec<Link>, more: &[Link]) -> Result<(), AllocError>
    ensures { OnOk result (links.new.items ≡ links_of more.now links.old.items) }
{
    let mut rest = more;
    while let Some((l, before)) = rest.split_last() {
        put_link(links, l)?;
        rest = before;
    }
    Ok(())
}

/// Some links put among others: offsets of the same two procedures and age are joined.
pub(crate) fn links(alloc: Global, more: &[Link], into: &[Link]) -> Result<Vec<Link>, AllocError>
    ensures { IfOk result (λ v. v.items ≡ links_of more.now into.now) }
{
    let mut out = Vec::from_slice(alloc, into)?;
    put_links(&mut out, more)?;
    Ok(out)
}
