ghost use Rattle.std.specs.Prelude.{◌≡◌, ◌↔◌, int_lt, refl, IsTrue};
ghost use Rattle.std.specs.Cmp.{eq_by_cmp_equiv, partial_equiv_from_equiv, po};
ghost use Rattle.std.specs.Ordering.{as_partial_cmp, int_eq, is_eq, is_lt};
ghost use Rattle.image_map.specs.Regions.{rank as rank_spec, number as number_spec, region_cmp, same_region, region_before, ends_cmp, cell_cmp, same_cell, cell_before};
ghost use Rattle.image_map.specs.CallModel.{IsKind, AreSettings};
ghost use Rattle.image_map.specs.TotalOrders.{region_total, cell_total};

use item_list::Items;
use std::cmp::Ordering;

/// A region of memory, named as the analysis sees it. Regions are ordered by these variants, then by their
/// numbers.
#[derive(Clone, Copy, Debug)]
pub enum RegionId {
    /// Numbers, and addresses of the image.
    Global,
    /// The newest activation of the procedure at this address.
    Frame(u32),
    /// All other live activations of that procedure.
    OldFrame(u32),
    /// The newest block with this key.
    Heap(u32),
    /// All other blocks with that key.
    OldHeap(u32),
}

impl RegionId {
    fn rank(&self) -> u32
        ensures { result ≡ rank_spec self.now }
    {
        match self {
            RegionId::Global => 0,
            RegionId::Frame(_) => 1,
            RegionId::OldFrame(_) => 2,
            RegionId::Heap(_) => 3,
            RegionId::OldHeap(_) => 4,
        }
    }

    /// The address of the region's procedure, or its key, and 0 for `Global`.
    pub fn number(&self) -> u32
        ensures { result ≡ number_spec self.now }
    {
        match self {
            RegionId::Global => 0,
            RegionId::Frame(number)
            | RegionId::OldFrame(number)
            | RegionId::Heap(number)
            | RegionId::OldHeap(number) => *number,
        }
    }

    /// Whether this region stands before another.
    pub fn is_before(&self, other: &RegionId) -> bool
        ensures { result ≡ region_before self.now other.now }
    {
        if self.rank() == other.rank() {
            self.number() < other.number()
        } else {
            self.rank() < other.rank()
        }
    }
}

impl PartialEq for RegionId {
    ghost eq = { same_region };

    ghost laws = { partial_equiv_from_equiv (eq_by_cmp_equiv region_total) };

    fn eq(&self, other: &RegionId) -> bool {
        self.rank() == other.rank() && self.number() == other.number()
    }
}

impl Eq for RegionId {
    ghost laws = { eq_by_cmp_equiv region_total };
}

impl PartialOrd for RegionId {
    ghost partial_cmp = { as_partial_cmp region_cmp };

    ghost laws = { po region_total (λ a b. refl) };

    fn partial_cmp(&self, other: &RegionId) -> Option<Ordering> {
        Some(self.cmp(other))
    }
}

impl Ord for RegionId {
    ghost cmp = { region_cmp };

    ghost total = { region_total };

    ghost matches_partial_cmp = { λ a b. refl };

    ghost matches_eq = { λ a b. refl };

    #[tactic(auto, unfolding(crate::specs::Regions::region_cmp))]
    fn cmp(&self, other: &RegionId) -> Ordering {
        self.rank()
            .cmp(&other.rank())
            .then(self.number().cmp(&other.number()))
    }
}

/// The bytes of a region from offset `start` up to, and without, `end`.
/// Cells are ordered by these fields, one after the other.
#[derive(Clone, Copy, Debug)]
pub struct Cell {
    pub region: RegionId,
    pub start: i32,
    pub end: i32,
}

fn is_same(a: i32, b: i32) -> bool
    ensures { result ≡ int_eq a b }
{
    a == b
}

fn is_below(a: i32, b: i32) -> bool
    ensures { result ≡ int_lt a b }
{
    a < b
}

impl Cell {
    fn has_same_ends(&self, other: &Cell) -> bool
        ensures { result ≡ is_eq (ends_cmp self.now other.now) }
    {
        if is_same(self.start, other.start) {
            is_same(self.end, other.end)
        } else {
            false
        }
    }

    fn has_lower_ends(&self, other: &Cell) -> bool
        ensures { result ≡ is_lt (ends_cmp self.now other.now) }
    {
        if is_same(self.start, other.start) {
            is_below(self.end, other.end)
        } else {
            is_below(self.start, other.start)
        }
    }

    /// Whether this cell stands before another.
    pub fn is_before(&self, other: &Cell) -> bool
        ensures { result ≡ cell_before self.now other.now }
    {
        if self.region == other.region {
            self.has_lower_ends(other)
        } else {
            self.region.is_before(&other.region)
        }
    }
}

impl PartialEq for Cell {
    ghost eq = { same_cell };

    ghost laws = { partial_equiv_from_equiv (eq_by_cmp_equiv cell_total) };

    fn eq(&self, other: &Cell) -> bool {
        if self.region == other.region {
            self.has_same_ends(other)
        } else {
            false
        }
    }
}

impl Eq for Cell {
    ghost laws = { eq_by_cmp_equiv cell_total };
}

impl PartialOrd for Cell {
    ghost partial_cmp = { as_partial_cmp cell_cmp };

    ghost laws = { po cell_total (λ a b. refl) };

    fn partial_cmp(&self, other: &Cell) -> Option<Ordering> {
        Some(self.cmp(other))
    }
}

impl Ord for Cell {
    ghost cmp = { cell_cmp };

    ghost total = { cell_total };

    ghost matches_partial_cmp = { λ a b. refl };

    ghost matches_eq = { λ a b. refl };

    #[tactic(auto, unfolding(crate::specs::Regions::cell_cmp))]
    fn cmp(&self, other: &Cell) -> Ordering {
        let by_ends = self.start.cmp(&other.start).then(self.end.cmp(&other.end));
        self.region.cmp(&other.region).then(by_ends)
    }
}

/// A call that runs: the address of the call instruction, of the procedure, and of its return slot.
#[derive(Clone, Copy, Debug, PartialEq, Eq)]
pub struct Activation {
    pub site: u32,
    pub callee: u32,
    pub base: u32,
}

/// A block of the heap: the address of the call that made it, its own address, and its size in bytes.
#[derive(Clone, Copy, Debug, PartialEq, Eq)]
pub struct Block {
    pub site: u32,
    pub base: u32,
    pub size: u32,
}

/// What a call of an extern does, with its number of argument words.
#[derive(Clone, Copy, Debug, PartialEq, Eq)]
pub enum Kind {
    /// Reads its arguments.
    Pure(u32),
    /// Reads its arguments and any mapped byte.
    Reader(u32),
    /// Gives a fresh block of the heap.
    Alloc,
    /// Ends the run.
    Stop,
    /// Of which nothing is known.
    Unknown,
    /// Writes to a buffer: the argument that points to it, and the one that has its length.
    Fills(u32, u32),
}

/// What an analysis starts from: where the program is entered, the number of rounds, and the kind of each
/// extern.
#[derive(Debug, Drop)]
pub struct Settings {
    pub entry: u32,
    pub rounds: u32,
    pub kinds: Items<Kind>,
}

impl Kind {
    /// Whether its numbers are those of argument words: at most 8, and counted from 1.
    pub fn is_valid(&self) -> bool
        ensures { IsTrue result ↔ IsKind self.now }
    {
        match self {
            Kind::Pure(words) | Kind::Reader(words) => *words <= 8,
            Kind::Alloc | Kind::Stop | Kind::Unknown => true,
            Kind::Fills(buffer, len) => 1 <= *buffer && *buffer <= 8 && 1 <= *len && *len <= 8,
        }
    }
}

impl Settings {
    /// Whether the settings fit an image with so many externs: a valid kind for each, and 1 to 8 rounds.
    pub fn are_valid(&self, externs: usize) -> bool
        ensures { IsTrue result ↔ AreSettings externs self.now }
    {
        if self.kinds.len() != externs || self.rounds < 1 || self.rounds > 8 {
            return false;
        }
        self.kinds.as_slice().iter().all(|kind| kind.is_valid())
    }
}
