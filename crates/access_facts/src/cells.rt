//! Which cells accesses may read, may write, and write for certain.
ghost use Rattle.std.specs.Prelude.{◌≡◌, ◌+ℤ◌, [], ◌∷◌, int_le, pos};
ghost use Rattle.abs_semantics.specs.Touching.{is_within as is_within_spec, sure_place as sure_place_spec, touches as touches_spec};
ghost use Rattle.access_facts.specs.Reach.{at_home as at_home_spec};
ghost use Rattle.access_facts.specs.CellSets.{fills_place as fills_place_spec, is_filled as is_filled_spec, is_read as is_read_spec, is_sure as is_sure_spec, is_written as is_written_spec, may_read as may_read_spec, may_write as may_write_spec, meets as meets_spec, must_write as must_write_spec};

use crate::reach::Reach;
use abs_state::{may_change, touches};
use alocs::home;
use cell_map::has_number;
use image_map::{Cell, Image, RegionId};
use vset::Part;

fn at_home(part: &Part) -> Part
    ensures { result ≡ at_home_spec part.now }
{
    Part {
        region: home(part.region),
        si: part.si,
    }
}

fn is_met(len: u32, cell: &Cell, part: &Part) -> bool
    ensures { result ≡ touches_spec len cell.now (at_home_spec part.now) }
{
    touches(len, cell, &at_home(part))
}

fn meets(len: u32, parts: &[Part], cell: &Cell) -> bool
    ensures { result ≡ meets_spec len parts.now cell.now }
{
    parts.iter().any(|part| is_met(len, cell, part))
}

fn may_read(cell: &Cell, reach: &Reach) -> bool
    ensures { result ≡ may_read_spec cell.now reach.now }
{
    match reach {
        Reach::Anywhere => true,
        Reach::Within(len, parts) => meets(*len, parts.as_slice(), cell),
    }
}

fn may_write(image: &Image, cell: &Cell, reach: &Reach) -> bool
    ensures { result ≡ may_write_spec image.now cell.now reach.now }
{
    match reach {
        Reach::Anywhere => may_change(image, cell),
        Reach::Within(len, parts) => meets(*len, parts.as_slice(), cell),
    }
}

fn is_sure(older: &[u32], region: &RegionId) -> bool
    ensures { result ≡ is_sure_spec older.now region.now }
{
    match region {
        RegionId::Global => true,
        RegionId::Frame(procedure) => !has_number(older, *procedure),
        RegionId::OldFrame(_) | RegionId::Heap(_) | RegionId::OldHeap(_) => false,
    }
}

fn is_at_most(a: i32, b: i32) -> bool
    ensures { result ≡ int_le a b }
{
    a <= b
}

fn ends_within(end: i32, start: i32, len: u32) -> bool
    ensures { result ≡ int_le end (start +ℤ pos len) }
{
    i64::from(end) <= i64::from(start) + i64::from(len)
}

fn is_within(len: u32, part: &Part, cell: &Cell) -> bool
    ensures { result ≡ is_within_spec len part.now cell.now }
{
    part.region == cell.region
        && is_at_most(part.si.lo(), cell.start)
        && ends_within(cell.end, part.si.lo(), len)
}

// Whether a cell lies as a whole in a range at the one offset of a part.
fn fills(older: &[u32], len: u32, cell: &Cell, part: &Part) -> bool
    ensures { result ≡ fills_place_spec older.now len cell.now (sure_place_spec (part.now ∷ [])) }
{
    part.si.stride() == 0 && is_sure(older, &part.region) && is_within(len, part, cell)
}

fn must_write(older: &[u32], cell: &Cell, reach: &Reach) -> bool
    ensures { result ≡ must_write_spec older.now cell.now reach.now }
{
    match reach {
        Reach::Anywhere => false,
        Reach::Within(len, parts) => match parts.as_slice() {
            [part] => fills(older, *len, cell, part),
            _ => false,
        },
    }
}

/// Whether some access may read a cell.
pub(crate) fn is_read(reaches: &[Reach], cell: &Cell) -> bool
    ensures { result ≡ is_read_spec reaches.now cell.now }
{
    reaches.iter().any(|reach| may_read(cell, reach))
}

/// Whether some access may write a cell.
pub(crate) fn is_written(image: &Image, reaches: &[Reach], cell: &Cell) -> bool
    ensures { result ≡ is_written_spec image.now reaches.now cell.now }
{
    reaches.iter().any(|reach| may_write(image, cell, reach))
}

/// Whether some access writes the whole of a cell for certain.
pub(crate) fn is_filled(older: &[u32], reaches: &[Reach], cell: &Cell) -> bool
    ensures { result ≡ is_filled_spec older.now reaches.now cell.now }
{
    reaches.iter().any(|reach| must_write(older, cell, reach))
}
