//! Who owns the bytes of the stack and of the heap.

ghost use Rattle.std.specs.Prelude.{◌≡◌, ◌==◌, ◌&&◌, not, if◌then◌else◌};
ghost use Rattle.abs_semantics.specs.declared.parts.Link.{Link};
ghost use Rattle.abs_semantics.specs.States.{has_procedure, known_of};
ghost use Rattle.abs_semantics.specs.Resolve.{most_links, size_or_none};
ghost use Rattle.abs_resolve.specs.Owned.{owned, state_of};

use abs_semantics::{Known, Link};
use cell_map::known_number;
use image_map::RegionId;

/// What of an abstract state tells where addresses lie.
#[derive(Clone, Copy)]
pub struct Owners<'a> {
    live: &'a [u32],
    older: &'a [u32],
    links: &'a [Link],
    blocks: &'a [Known],
    root: u32,
}

/// Whether a link is one of a child of this age.
pub(crate) fn is_link_of(link: &Link, child: u32, aged: bool) -> bool
    ensures { result ≡ (link.now.child == child && (if aged then link.now.aged else not link.now.aged)) }
{
    link.child == child && link.aged == aged
}

impl<'a> Owners<'a> {
    /// The procedures that have activations, those that have older ones, who called whom, the blocks with their least sizes, and
    /// the procedure at which runs start.
    pub fn new(
        live: &'a [u32],
        older: &'a [u32],
        links: &'a [Link],
        blocks: &'a [Known],
        root: u32,
    ) -> Owners<'a>
        ensures { state_of result ≡ owned live.now older.now links.now blocks.now root }
    {
        Owners {
            live,
            older,
            links,
            blocks,
            root,
        }
    }

    pub(crate) fn links(&self) -> &[Link]
        ensures { result.now ≡ (state_of self.now).links }
    {
        self.links
    }

    pub(crate) fn is_root(&self, procedure: u32) -> bool
        ensures { result ≡ (procedure == (state_of self.now).root) }
    {
        procedure == self.root
    }

    /// So many activations at most stand in a row.
    pub(crate) fn most_links(&self) -> usize
        ensures { result ≡ most_links (state_of self.now) }
    {
        self.live.len() + self.older.len()
    }

    /// Whether a procedure has an activation besides its newest.
    pub(crate) fn has_older(&self, procedure: u32) -> bool
        ensures { result ≡ has_procedure procedure (state_of self.now).older }
    {
        self.older.iter().any(|q| *q == procedure)
    }

    /// A size that each block of a region has at least, and 0 where there is none.
    pub(crate) fn size_of(&self, region: &RegionId) -> u32
        ensures { result ≡ size_or_none (known_of region.now (state_of self.now).blocks) }
    {
        known_number(self.blocks, region).unwrap_or(0)
    }
}
