//! The regions that a state has, and whose values a region's cells have where two states become one.

ghost use Rattle.std.specs.Prelude.{◌≡◌};
ghost use Rattle.abs_semantics.specs.States.{has_procedure, known_of};
ghost use Rattle.cell_map.specs.Merges.{has_region, side_of, is_side};
ghost use Rattle.vset.specs.declared.part.Both.TheVariants.{Joined};

use abs_semantics::Known;
use image_map::RegionId;
use std::marker::Model;
use vset::Both;

/// Whose values a region's cells have.
#[derive(Clone, Copy)]
pub enum Side {
    First,
    Second,
    /// The values of both become one.
    Together,
}

impl Side {
    pub(crate) fn is(self, other: Side) -> bool
        ensures { result ≡ is_side self other }
    {
        match (self, other) {
            (Side::First, Side::First) => true,
            (Side::Second, Side::Second) => true,
            (Side::Together, Side::Together) => true,
            _ => false,
        }
    }
}

/// The lists by which a state has regions: procedures that have an activation, those that have an older one, and blocks.
#[derive(Drop)]
pub struct Regions<'a> {
    pub live: &'a [u32],
    pub older: &'a [u32],
    pub blocks: &'a [Known],
}

impl<'a> Model for Regions<'a> {
    ghost use Rattle.cell_map.specs.Merges.{Regions as Lists};

    ghost Value = { Lists };

    ghost view = { λ r. record { live = r.live.now; older = r.older.now; blocks = r.blocks.now } };
}

/// Whether a number is among others.
pub fn has_number(numbers: &[u32], number: u32) -> bool
    ensures { result ≡ has_procedure number numbers.now }
{
    numbers.iter().any(|n| *n == number)
}

/// The first number that is known of a region.
pub fn known_number(entries: &[Known], region: &RegionId) -> Option<u32>
    ensures { result ≡ known_of region.now entries.now }
{
    for k in entries {
        if k.region == *region {
            return Some(k.number);
        }
    }
    None
}

impl Regions<'_> {
    /// Whether the state has a region.
    pub fn has(&self, region: &RegionId) -> bool
        ensures { result ≡ has_region self.now region.now }
    {
        match region {
            RegionId::Global => true,
            RegionId::Frame(procedure) => has_number(self.live, *procedure),
            RegionId::OldFrame(procedure) => has_number(self.older, *procedure),
            RegionId::Heap(_) | RegionId::OldHeap(_) => known_number(self.blocks, region).is_some(),
        }
    }
}

/// How two states become one.
#[derive(Drop)]
pub struct Rule<'a> {
    pub both: Both,
    pub first: Regions<'a>,
    pub second: Regions<'a>,
}

/// A region and its side.
#[derive(Clone, Copy)]
pub(crate) struct Turn {
    pub region: RegionId,
    pub side: Side,
}

impl Rule<'_> {
    /// Whose values a region's cells have.
    fn side(&self, region: &RegionId) -> Side
        ensures { result ≡ side_of self.now.both self.now.first self.now.second region.now }
    {
        match self.both {
            Both::Joined => self.joined_side(region),
            Both::Widened => {
                if self.first.has(region) {
                    Side::Together
                } else {
                    Side::Second
                }
            }
        }
    }

    fn joined_side(&self, region: &RegionId) -> Side
        ensures { result ≡ side_of Joined self.now.first self.now.second region.now }
    {
        match (self.first.has(region), self.second.has(region)) {
            (true, false) => Side::First,
            (false, true) => Side::Second,
            _ => Side::Together,
        }
    }

    /// The side of a region, of which the last one may tell.
    pub(crate) fn turned(&self, last: Turn, region: &RegionId) -> Turn
        requires { last.side ≡ side_of self.now.both self.now.first self.now.second last.region }
        ensures region { result.region ≡ region.now }
        ensures side { result.side ≡ side_of self.now.both self.now.first self.now.second region.now }
    {
        if last.region == *region {
            last
        } else {
            Turn {
                region: *region,
                side: self.side(region),
            }
        }
    }
}
