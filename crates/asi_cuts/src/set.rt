//! A set of cuts that remembers the order in which they were found.
ghost use Rattle.std.specs.Prelude.{◌≡◌, ◌≤◌, [], ◌∷◌, ◌++◌, OnErr, OnOk, false, int_lt, length, slice_get, true};
ghost use Rattle.std.specs.List.{insert};
ghost use Rattle.std.specs.List.Sorted.{IsPartitionPoint, IsPermutation};
ghost use Rattle.std.specs.Option.{option_map_or};
ghost use Rattle.std.specs.Ordering.{int_eq};
ghost use Rattle.asi_cuts.specs.Adding.{Adds};
ghost use Rattle.asi_cuts.specs.Closed.{AreDifferent, cut_before, same_cut};

use image_map::RegionId;
use std::alloc::{AllocError, Global};
use std::marker::Model;

/// The most cuts that a set may have.
const MOST: usize = 1024;

/// A region is cut at an offset.
#[derive(Clone, Copy, Debug)]
pub struct Cut {
    pub region: RegionId,
    pub offset: i32,
}

/// Why no cut is added any more.
#[derive(Clone, Copy, Debug)]
pub(crate) enum Halt {
    TooMany,
    Memory,
}

fn is_below(a: i32, b: i32) -> bool
    ensures { result ≡ int_lt a b }
{
    a < b
}

fn is_equal(a: i32, b: i32) -> bool
    ensures { result ≡ int_eq a b }
{
    a == b
}

impl Cut {
    fn has_lower_offset(&self, other: &Cut) -> bool
        ensures { result ≡ int_lt self.now.offset other.now.offset }
    {
        is_below(self.offset, other.offset)
    }

    fn has_same_offset(&self, other: &Cut) -> bool
        ensures { result ≡ int_eq self.now.offset other.now.offset }
    {
        is_equal(self.offset, other.offset)
    }

    /// Whether this cut stands before another: by the regions, then by the offsets.
    fn is_before(&self, other: &Cut) -> bool
        ensures { result ≡ cut_before self.now other.now }
    {
        if self.region == other.region {
            self.has_lower_offset(other)
        } else {
            self.region.is_before(&other.region)
        }
    }

    /// Whether this cut is another.
    pub(crate) fn is(&self, other: &Cut) -> bool
        ensures { result ≡ same_cut self.now other.now }
    {
        if self.region == other.region {
            self.has_same_offset(other)
        } else {
            false
        }
    }
}

/// Different cuts, in the order in which they were added, and once more in their own order.
#[derive(Drop)]
pub(crate) struct CutSet {
    found: Vec<Cut>,
    sorted: Vec<Cut>,
}

impl Model for CutSet {
    ghost use Rattle.std.specs.Prelude.{List};
    ghost use Rattle.std.specs.List.{insert};
    ghost use Rattle.std.specs.List.Sorted.{IsPermutation};
    ghost use Rattle.asi_cuts.specs.declared.set.Cut.{Cut};
    ghost use Rattle.asi_cuts.specs.Closed.{AreDifferent};

    ghost Value = { List Cut };

    ghost view = { λ s. s.found.items };

    ghost invariant = { λ s. AreDifferent s.sorted.items × IsPermutation s.found.items s.sorted.items };
}

// How many of the cuts stand before another.
fn place_of(sorted: &[Cut], cut: &Cut) -> usize
    requires { AreDifferent sorted.now }
    ensures point { IsPartitionPoint (λ x. cut_before x cut.now ≡ true) (λ x. cut_before x cut.now ≡ false) sorted.now result }
    ensures within { result ≤ length sorted.now }
{
    sorted.partition_point(
        |x: &Cut| -> bool
            ensures { result ≡ cut_before x.now cut.entry.now }
        { x.is_before(cut) },
    )
}

// Whether the cut with a number is this one.
fn is_at(sorted: &[Cut], number: usize, cut: &Cut) -> bool
    ensures { result ≡ option_map_or (λ x. same_cut x cut.now) (slice_get sorted.now number) false }
{
    match sorted.get(number) {
        None => false,
        Some(x) => x.is(cut),
    }
}

// Puts a cut at the end of the one list and at its place in the other, or leaves both as they were.
fn put(
    found: &mut Vec<Cut>,
    sorted: &mut Vec<Cut>,
    place: usize,
    cut: Cut,
) -> Result<(), AllocError>
    requires { place ≤ length sorted.old.items }
    ensures found { OnOk result (found.new.items ≡ found.old.items ++ cut ∷ []) }
    ensures sorted { OnOk result (sorted.new.items ≡ insert sorted.old.items place cut) }
    ensures err_found { OnErr result (found.new.items ≡ found.old.items) }
    ensures err_sorted { OnErr result (sorted.new.items ≡ sorted.old.items) }
{
    found.push(cut)?;
    match sorted.insert(place, cut) {
        Ok(()) => Ok(()),
        Err(_) => {
            found.pop();
            Err(AllocError)
        }
    }
}

impl CutSet {
    /// The empty set.
    pub(crate) fn new(alloc: Global) -> CutSet
        ensures { result ≡ [] }
    {
        CutSet {
            found: Vec::new(alloc),
            sorted: Vec::new(alloc),
        }
    }

    /// The cut with a number, in the order in which they were added.
    pub(crate) fn nth(&self, number: usize) -> Option<Cut>
        ensures { result ≡ slice_get self.now number }
    {
        match self.found.get(number) {
            None => None,
            Some(cut) => Some(*cut),
        }
    }

    /// The cuts in their own order.
    pub(crate) fn sorted(&self) -> &[Cut]
        ensures different { AreDifferent result.now }
        ensures same { IsPermutation self.now result.now }
    {
        self.sorted.as_slice()
    }

    /// Adds a cut, unless it is there; and says so where there are then too many.
    pub(crate) fn add(&mut self, cut: Cut) -> Result<(), Halt>
        requires { length self.old ≤ 1024 }
        ensures { Adds (λ x. x ≡ cut) self.old self.new result }
    {
        let place = place_of(self.sorted.as_slice(), &cut);
        if is_at(self.sorted.as_slice(), place, &cut) {
            return Ok(());
        }
        match put(&mut self.found, &mut self.sorted, place, cut) {
            Err(_) => Err(Halt::Memory),
            Ok(()) => {
                if self.found.len() > MOST {
                    Err(Halt::TooMany)
                } else {
                    Ok(())
                }
            }
        }
    }
}
