//! The lists of a set of cuts.
ghost use Rattle.std.specs.Prelude.{◌≡◌, IfOk};
ghost use Rattle.asi_cuts.specs.Closed.{AreDifferent};
ghost use Rattle.asi_cuts.specs.Listing.{AreListsOf, run};

use crate::set::Cut;
use alocs::CutList;
use image_map::RegionId;
use item_list::Items;
use std::alloc::{AllocError, Global};

/// What the forced cuts are.
#[derive(Debug, Drop)]
pub enum CutResult {
    /// A list for each region that is cut, by their regions, each rising.
    Cuts(Items<CutList>),
    /// More than 1,024 cuts are forced.
    TooMany,
}

// The offsets of the cuts of a region with which these begin.
fn run_of(alloc: Global, cuts: &[Cut], region: RegionId) -> Result<Items<i32>, AllocError>
    ensures { IfOk result (λ offsets. offsets ≡ run region cuts.now) }
{
    let mut offsets = Items::new(alloc);
    for cut in cuts {
        if cut.region != region {
            return Ok(offsets);
        }
        offsets.push(cut.offset)?;
    }
    Ok(offsets)
}

/// Cuts in their order as lists.
pub(crate) fn lists_of(alloc: Global, cuts: &[Cut]) -> Result<Items<CutList>, AllocError>
    requires { AreDifferent cuts.now }
    ensures { IfOk result (λ lists. AreListsOf cuts.now lists) }
{
    let mut lists = Items::new(alloc);
    let mut listed = 0;
    while listed < cuts.len() {
        let region = cuts[listed].region;
        let offsets = run_of(alloc, &cuts[listed..], region)?;
        listed += offsets.len();
        lists.push(CutList {
            region,
            cuts: offsets,
        })?;
    }
    Ok(lists)
}
