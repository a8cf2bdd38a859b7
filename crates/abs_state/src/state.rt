//! The type of abstract states.

ghost use Rattle.std.specs.Prelude.{◌≡◌};
ghost use Rattle.abs_semantics.specs.States.{has_region as has_region_spec};
ghost use Rattle.abs_semantics.specs.Start.{normalised};
ghost use Rattle.abs_state.specs.Views.{seen};

use crate::registers::Registers;
use abs_semantics::{Known, Link};
use cell_map::{CellMap, Regions};
use image_map::RegionId;
use item_list::Items;
use std::alloc::AllocError;
use vset::{AbsFlags, CmpFact};

/// What is known of a machine's state at a place of a program.
#[derive(Drop)]
pub struct AbsState {
    pub registers: Registers,
    pub flags: AbsFlags,
    /// A cell that isn't among them may hold every value.
    pub cells: CellMap,
    /// Procedures that have an activation.
    pub live: Items<u32>,
    /// Procedures that have an activation besides their newest.
    pub older: Items<u32>,
    pub links: Items<Link>,
    /// What the bases of a region leave modulo 16.
    pub aligns: Items<Known>,
    /// The keys of blocks, by region, and a size that each block of the region has at least.
    pub blocks: Items<Known>,
    /// What the flags were made of.
    pub fact: Option<CmpFact>,
    /// The procedure at which runs start.
    pub root: u32,
}

impl AbsState {
    /// The lists by which the state has regions.
    pub fn regions(&self) -> Regions<'_>
        ensures { result ≡ record { live = self.now.live; older = self.now.older; blocks = self.now.blocks } }
    {
        Regions {
            live: self.live.as_slice(),
            older: self.older.as_slice(),
            blocks: self.blocks.as_slice(),
        }
    }

    /// Whether the state has a region.
    pub fn has_region(&self, region: &RegionId) -> bool
        ensures { result ≡ has_region_spec (seen self.now) region.now }
    {
        self.regions().has(region)
    }

    /// Takes away the cells that may hold every value.
    #[tactic(auto, unfolding(abs_semantics::specs::Start::normalised))]
    pub fn normalise(&mut self)
        ensures { seen self.new ≡ normalised (seen self.old) }
    {
        self.cells.normalise();
    }
}

impl Clone for AbsState {
    ghost is_clone = { λ s clone. clone ≡ s };

    fn clone(&self) -> Result<AbsState, AllocError> {
        Ok(AbsState {
            registers: self.registers.clone()?,
            flags: self.flags,
            cells: self.cells.clone()?,
            live: self.live.clone()?,
            older: self.older.clone()?,
            links: self.links.clone()?,
            aligns: self.aligns.clone()?,
            blocks: self.blocks.clone()?,
            fact: self.fact,
            root: self.root,
        })
    }
}
