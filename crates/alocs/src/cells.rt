//! Cut lists, and the cells that they make.
ghost use Rattle.std.specs.Prelude.{◌≡◌, ◌≤◌, ◌≤ℤ◌, Contains, IfOk, IsTrue, Some, find, is_some, negsuc, pos, slice_get, true};
ghost use Rattle.std.specs.Option.{option_copied};
ghost use Rattle.image_map.specs.declared.region.Cell.{Cell};
ghost use Rattle.image_map.specs.Regions.{region_before, same_region};
ghost use Rattle.image_map.specs.Whole.{IsImage};
ghost use Rattle.alocs.specs.Extents.{AreOfImage, RiseFrom, extents as extents_spec, has_offset};
ghost use Rattle.alocs.specs.Halves.{AreByRegion};
ghost use Rattle.alocs.specs.Cells.{AreCutLists, AreRising, AreTouched, cells_of, cuts_of, holds, word_cuts, words as words_spec};

use crate::extents::{Extent, home, image_extents, only};
use crate::touching::{Plan, touched};
use image_map::{Cell, Image, RegionId};
use item_list::Items;
use std::alloc::{AllocError, Global};
use std::marker::Model;
use strided::Si;

/// The cuts of a region, rising.
#[derive(Debug, Drop)]
pub struct CutList {
    pub region: RegionId,
    pub cuts: Items<i32>,
}

/// The cells of all regions of an image: each begins and ends at a cut or at an end of its region.
#[derive(Debug, Drop)]
pub struct Cells {
    lists: Vec<CutList>,
    by_region: bool,
    image: Vec<Extent>,
    frame: Vec<Extent>,
    heap: Vec<Extent>,
    frame_words: Vec<i32>,
    heap_words: Vec<i32>,
    no_words: Vec<i32>,
}

impl Model for Cells {
    ghost use Rattle.std.specs.Prelude.{◌≡◌, [], ◌∷◌, IsTrue, negsuc, pos};
    ghost use Rattle.alocs.specs.Halves.{AreByRegion};
    ghost use Rattle.alocs.specs.Extents.{RiseFrom, frame_extent, heap_extent};
    ghost use Rattle.alocs.specs.Cells.{AreCutLists, Division, words};

    ghost Value = { Division };

    ghost view = { λ c. record { lists = c.lists.items; image = c.image.items } };

    ghost invariant = { λ c. AreCutLists c.lists.items × RiseFrom (pos 0) c.image.items
        × (c.frame.items ≡ frame_extent ∷ []) × (c.heap.items ≡ heap_extent ∷ [])
        × (c.frame_words.items ≡ words 273 (negsuc 1023)) × (c.heap_words.items ≡ words 65 (pos 0)) × (c.no_words.items ≡ [])
        × (IsTrue c.by_region → AreByRegion c.lists.items) };
}

impl Clone for CutList {
    ghost is_clone = { λ l clone. clone ≡ l };

    fn clone(&self) -> Result<CutList, AllocError> {
        Ok(CutList {
            region: self.region,
            cuts: self.cuts.clone()?,
        })
    }
}

// So many offsets, four bytes apart.
fn words(alloc: Global, count: u32, from: i32) -> Result<Vec<i32>, AllocError>
    requires few { count ≤ 1024 }
    requires near { from ≤ℤ pos 65536 }
    ensures { IfOk result (λ v. v.items ≡ words_spec count from) }
{
    let mut offsets = Vec::new(alloc);
    let mut next = from;
    for _ in 0..count {
        offsets.push(next)?;
        next += 4;
    }
    Ok(offsets)
}

// Whether the lists stand by their regions.
fn are_by_region(lists: &[CutList]) -> bool
    ensures { IsTrue result → AreByRegion lists.now }
{
    for place in 1..lists.len() {
        if !lists[place - 1].region.is_before(&lists[place].region) {
            return false;
        }
    }
    true
}

fn list_at(lists: &[CutList], place: usize) -> Option<&CutList>
    ensures { option_copied result ≡ slice_get lists.now place }
{
    lists.get(place)
}

// The list of a region, of lists that stand by their regions: found by a search that halves them.
fn list_among(lists: &[CutList], region: RegionId) -> Option<&CutList>
    requires { AreByRegion lists.now }
    ensures { option_copied result ≡ find (λ list. same_region list.region region) lists.now }
{
    let place = lists.partition_point(
        |list: &CutList| -> bool
            ensures { result ≡ region_before list.now.region region }
        { list.region.is_before(&region) },
    );
    match list_at(lists, place) {
        None => None,
        Some(list) => {
            if list.region == region {
                Some(list)
            } else {
                None
            }
        }
    }
}

// The first of the lists that is of a region.
fn list_of(lists: &[CutList], by_region: bool, region: RegionId) -> Option<&CutList>
    requires { IsTrue by_region → AreByRegion lists.now }
    ensures { option_copied result ≡ find (λ list. same_region list.region region) lists.now }
{
    if by_region {
        return list_among(lists, region);
    }
    lists.iter().find(|list| list.region == region)
}

impl Cells {
    /// The cells that these lists make of an image's regions. Lists name `Global`, `Frame` and `Heap` regions; a cut outside its
    /// region is left out, and a region's ends always count as cuts.
    ///
    /// `OldFrame` and `OldHeap` regions have the cuts of their `Frame` and `Heap`. A `Frame` without a list is cut at each word from
    /// -1024 up to 64, a `Heap` without one at each word up to 256, and `Global` without one at the ends of the segments.
    pub fn from_cuts(alloc: Global, lists: Vec<CutList>, image: &Image) -> Result<Cells, AllocError>
        requires lists { AreCutLists lists.items }
        requires image { IsImage image.now }
        ensures lists { IfOk result (λ cells. cells.lists ≡ lists.items) }
        ensures image { IfOk result (λ cells. AreOfImage image.now.segments cells.image) }
    {
        let image = image_extents(alloc, image.segments.as_slice())?;
        let frame = only(alloc, -(1 << 20), 1 << 16)?;
        let heap = only(alloc, 0, 1 << 29)?;
        let frame_words = words(alloc, 273, -1024)?;
        let heap_words = words(alloc, 65, 0)?;
        let by_region = are_by_region(lists.as_slice());
        Ok(Cells {
            lists,
            by_region,
            image,
            frame,
            heap,
            frame_words,
            heap_words,
            no_words: Vec::new(alloc),
        })
    }

    /// The lists that the cells were made from.
    pub fn lists(&self) -> &[CutList]
        ensures lists { result.now ≡ self.now.lists }
        ensures cut_lists { AreCutLists result.now }
    {
        self.lists.as_slice()
    }

    // Where the offsets of a region lie.
    fn extents(&self, region: RegionId) -> &[Extent]
        ensures value { result.now ≡ extents_spec self.now.image region }
        ensures rise { RiseFrom (negsuc 2147483647) result.now }
    {
        match region {
            RegionId::Global => self.image.as_slice(),
            RegionId::Frame(_) | RegionId::OldFrame(_) => self.frame.as_slice(),
            RegionId::Heap(_) | RegionId::OldHeap(_) => self.heap.as_slice(),
        }
    }

    // The cuts of a region that has no list.
    fn words(&self, region: RegionId) -> &[i32]
        ensures { result.now ≡ word_cuts region }
    {
        match region {
            RegionId::Global => self.no_words.as_slice(),
            RegionId::Frame(_) | RegionId::OldFrame(_) => self.frame_words.as_slice(),
            RegionId::Heap(_) | RegionId::OldHeap(_) => self.heap_words.as_slice(),
        }
    }

    // The cuts of a region.
    fn cuts(&self, region: RegionId) -> &[i32]
        ensures value { result.now ≡ cuts_of self.now.lists region }
        ensures rising { AreRising result.now }
    {
        match list_of(self.lists.as_slice(), self.by_region, home(region)) {
            Some(list) => list.cuts.as_slice(),
            None => self.words(region),
        }
    }

    // How a region is divided.
    fn plan(&self, region: RegionId) -> Plan<'_>
        ensures region { result.region ≡ region }
        ensures extents { result.extents.now ≡ extents_spec self.now.image region }
        ensures cuts { result.cuts.now ≡ cuts_of self.now.lists region }
        ensures rise { RiseFrom (negsuc 2147483647) result.extents.now }
        ensures rising { AreRising result.cuts.now }
    {
        Plan {
            region,
            extents: self.extents(region),
            cuts: self.cuts(region),
        }
    }

    /// The cell that has an offset of a region, or `None` exactly where the offset lies outside the region.
    pub fn cell_of(&self, region: RegionId, offset: i32) -> Option<Cell>
        ensures value { result ≡ find (holds offset) (cells_of self.now region) }
        // The cells fill the region.
        ensures inside { is_some result ≡ has_offset (extents_spec self.now.image region) offset }
        // They share no offset.
        ensures only { (cell : Cell) → Contains (cells_of self.now region) cell → holds offset cell ≡ true → result ≡ Some cell }
    {
        self.plan(region).cell_with(offset)
    }

    /// The cells that a range of `len` bytes from some member of `offsets` touches: each once, rising.
    pub fn touching(
        &self,
        alloc: Global,
        region: RegionId,
        offsets: &Si,
        len: u32,
    ) -> Result<Vec<Cell>, AllocError>
        requires { 1 ≤ len }
        ensures { IfOk result (λ cells. AreTouched (cells_of self.now region) offsets.now len cells.items) }
    {
        touched(alloc, &self.plan(region), offsets, len)
    }
}
