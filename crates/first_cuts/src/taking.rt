//! Different offsets, rising, so many at most.
ghost use Rattle.std.specs.Prelude.{◌≡◌, ◌≤◌, ◌++◌, OnOk, length, take, drop, nat_le, int_lt};
ghost use Rattle.std.specs.Ordering.{int_eq};
ghost use Rattle.first_cuts.specs.FirstCuts.{taken_onto, with_offset, with_taken};
ghost use Rattle.first_cuts.specs.Taking.{IsPlaceOf, begins_with as begins_with_spec};

use std::alloc::AllocError;

/// So many offsets are taken, and no more.
const MOST_CUTS: usize = 512;

/// Whether no more offsets are taken.
pub(crate) fn is_full(taken: &[i32]) -> bool
    ensures { result ≡ nat_le 512 (length taken.now) }
{
    MOST_CUTS <= taken.len()
}

fn is_same(a: i32, b: i32) -> bool
    ensures { result ≡ int_eq a b }
{
    a == b
}

fn is_less(a: i32, b: i32) -> bool
    ensures { result ≡ int_lt a b }
{
    a < b
}

// How many offsets stand below this one.
fn place(taken: &[i32], offset: i32) -> usize
    ensures within { result ≤ length taken.now }
    ensures passed { with_offset offset taken.now ≡ take result taken.now ++ with_offset offset (drop result taken.now) }
    ensures stops { IsPlaceOf offset (drop result taken.now) }
{
    for (i, x) in taken.iter().enumerate() {
        if is_same(*x, offset) || !is_less(*x, offset) {
            return i;
        }
    }
    taken.len()
}

fn begins_with(taken: &[i32], offset: i32) -> bool
    ensures { result ≡ begins_with_spec offset taken.now }
{
    match taken {
        [] => false,
        [x, ..] => is_same(*x, offset),
    }
}

// Puts an offset among others, unless it is there.
fn put(taken: &mut Vec<i32>, offset: i32) -> Result<(), AllocError>
    ensures { OnOk result (taken.new.items ≡ with_offset offset taken.old.items) }
{
    let at = place(taken.as_slice(), offset);
    if !begins_with(&taken[at..], offset) {
        taken.insert(at, offset)?;
    }
    Ok(())
}

/// Takes an offset, unless it is taken already or there are enough.
pub(crate) fn take_offset(taken: &mut Vec<i32>, offset: &i32) -> Result<(), AllocError>
    ensures { OnOk result (taken.new.items ≡ with_taken taken.old.items offset.now) }
{
    if is_full(taken.as_slice()) {
        return Ok(());
    }
    put(taken, *offset)
}

/// Takes offsets one after the other.
pub(crate) fn take_all(taken: &mut Vec<i32>, offsets: &[i32]) -> Result<(), AllocError>
    ensures { OnOk result (taken.new.items ≡ taken_onto taken.old.items offsets.now) }
{
    for offset in offsets {
        take_offset(taken, offset)?;
    }
    Ok(())
}
