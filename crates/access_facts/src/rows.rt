//! The cells of a graph, and the places of those that accesses touch.
ghost use Rattle.std.specs.Prelude.{◌≡◌, ◌++◌, [], ◌∷◌, cond, false, OnOk};
ghost use Rattle.std.specs.List.{list_any};
ghost use Rattle.access_facts.specs.Places.{cell_places, picked};
ghost use Rattle.access_facts.specs.Rows.{AreRows, any_comes_to, cells_in_rows, comes_to as comes_to_spec, is_for as is_for_spec, picks as picks_spec};

use crate::cells::{is_filled, is_read, is_written};
use crate::reach::Reach;
use alocs::home;
use image_map::{Cell, Image, RegionId};
use item_list::Items;
use std::alloc::AllocError;
use vset::Part;

/// The cells of one region, and the number of the first one's place.
#[derive(Drop)]
pub struct Row {
    pub region: RegionId,
    pub first: u32,
    pub cells: Items<Cell>,
}

/// What cells are picked for.
#[derive(Clone, Copy)]
pub(crate) enum Test<'a> {
    /// Some access may read them.
    Read(&'a [Reach]),
    /// Some access may write them.
    Written(&'a Image, &'a [Reach]),
    /// Some access writes them as a whole, where these procedures have older activations.
    Filled(&'a [u32], &'a [Reach]),
}

fn is_for(region: &RegionId, part: &Part) -> bool
    ensures { result ≡ is_for_spec region.now part.now }
{
    home(part.region) == *region || part.region == *region
}

fn any_for(region: &RegionId, parts: &[Part]) -> bool
    ensures { result ≡ list_any (is_for_spec region.now) parts.now }
{
    parts.iter().any(|part| is_for(region, part))
}

fn reaches_to(region: &RegionId, reach: &Reach) -> bool
    ensures { result ≡ comes_to_spec region.now reach.now }
{
    match reach {
        Reach::Anywhere => true,
        Reach::Within(_, parts) => any_for(region, parts.as_slice()),
    }
}

fn comes_to(reaches: &[Reach], region: &RegionId) -> bool
    ensures { result ≡ list_any (comes_to_spec region.now) reaches.now }
{
    reaches.iter().any(|reach| reaches_to(region, reach))
}

impl Test<'_> {
    // Whether cells of a region may be picked.
    fn comes_to(&self, region: &RegionId) -> bool
        ensures { result ≡ any_comes_to region.now self.now }
    {
        let reaches = match self {
            Test::Read(reaches) => reaches,
            Test::Written(_, reaches) => reaches,
            Test::Filled(_, reaches) => reaches,
        };
        comes_to(reaches, region)
    }

    fn picks(&self, cell: &Cell) -> bool
        ensures { result ≡ picks_spec self.now cell.now }
    {
        match self {
            Test::Read(reaches) => is_read(reaches, cell),
            Test::Written(image, reaches) => is_written(image, reaches, cell),
            Test::Filled(older, reaches) => is_filled(older, reaches, cell),
        }
    }
}

pub(crate) fn push_if(places: &mut Vec<u32>, wanted: bool, place: u32) -> Result<(), AllocError>
    ensures { OnOk result (places.new.items ≡ places.old.items ++ cond wanted (place ∷ []) []) }
{
    if wanted {
        places.push(place)?;
    }
    Ok(())
}

// The places of the cells of a row that a test picks.
fn push_row(places: &mut Vec<u32>, row: &Row, test: &Test) -> Result<(), AllocError>
    requires { AreRows row.now.first (row.now ∷ []) }
    ensures { OnOk result (places.new.items ≡ places.old.items ++ picked (picks_spec test.now) row.now.first row.now.cells) }
{
    if !test.comes_to(&row.region) {
        return Ok(());
    }
    let mut place = row.first;
    for cell in row.cells.as_slice() {
        push_if(places, test.picks(cell), place)?;
        place += 1;
    }
    Ok(())
}

/// The places of the cells that a test picks, at the end of others.
pub(crate) fn push_cells(places: &mut Vec<u32>, rows: &[Row], test: &Test) -> Result<(), AllocError>
    requires { AreRows 14 rows.now }
    ensures { OnOk result (places.new.items ≡ places.old.items ++ cell_places (picks_spec test.now) (cells_in_rows rows.now)) }
{
    for row in rows {
        push_row(places, row, test)?;
    }
    Ok(())
}
