//! Lists of different parts, rising by region, then by stride, then by the ends.

ghost use Rattle.std.specs.Prelude.{◌≡◌, ◌≤◌, length, take, drop, ◌++◌, [], IfOk, OnOk, int_lt};
ghost use Rattle.std.specs.Ordering.{int_eq};
ghost use Rattle.vset.specs.declared.part.Part.{Part};
ghost use Rattle.abs_resolve.specs.Search.{is_crowd, IsPlaceOf, begins_with as begins_with_spec};
ghost use Rattle.abs_semantics.specs.Resolve.{interval_before, part_before, put_part, rising_onto};

use std::alloc::{AllocError, Global};
use strided::Si;
use vset::{Part, is_same_part};

/// The most different intervals that are told of.
const MOST_PLACES: usize = 1024;

pub(crate) fn is_too_long(parts: &[Part]) -> bool
    ensures { result ≡ is_crowd parts.now }
{
    MOST_PLACES < parts.len()
}

fn is_same(a: i32, b: i32) -> bool
    ensures { result ≡ int_eq a b }
{
    a == b
}

fn is_less(a: i32, b: i32) -> bool
    ensures { result ≡ int_lt a b }
{
    a < b
}

fn is_interval_before(a: &Si, b: &Si) -> bool
    ensures { result ≡ interval_before a.now b.now }
{
    if a.stride() != b.stride() {
        return a.stride() < b.stride();
    }
    if is_same(a.lo(), b.lo()) {
        is_less(a.hi(), b.hi())
    } else {
        is_less(a.lo(), b.lo())
    }
}

fn is_part_before(x: &Part, y: &Part) -> bool
    ensures { result ≡ part_before x.now y.now }
{
    if x.region == y.region {
        is_interval_before(&x.si, &y.si)
    } else {
        x.region.is_before(&y.region)
    }
}

/// How many parts stand before a part, and differ from it.
fn place(x: &Part, parts: &[Part]) -> usize
    ensures within { result ≤ length parts.now }
    ensures passed { put_part x.now parts.now ≡ take result parts.now ++ put_part x.now (drop result parts.now) }
    ensures stops { IsPlaceOf x.now (drop result parts.now) }
{
    for (i, y) in parts.iter().enumerate() {
        if is_same_part(y, x) || !is_part_before(y, x) {
            return i;
        }
    }
    parts.len()
}

/// Whether a list begins with a part.
fn begins_with(parts: &[Part], x: &Part) -> bool
    ensures { result ≡ begins_with_spec x.now parts.now }
{
    match parts {
        [] => false,
        [y, ..] => is_same_part(y, x),
    }
}

/// Puts a part among others, unless it is there.
pub(crate) fn put(x: &Part, parts: &mut Vec<Part>) -> Result<(), AllocError>
    ensures { OnOk result (parts.new.items ≡ put_part x.now parts.old.items) }
{
    let at = place(x, parts.as_slice());
    if !begins_with(&parts[at..], x) {
        parts.insert(at, *x)?;
    }
    Ok(())
}

/// Some parts, rising, each once.
pub(crate) fn rising(alloc: Global, parts: &[Part]) -> Result<Vec<Part>, AllocError>
    ensures { IfOk result (λ v. v.items ≡ rising_onto [] parts.now) }
{
    let mut out = Vec::new(alloc);
    for x in parts {
        put(x, &mut out)?;
    }
    Ok(out)
}
