//! The least lists of cuts.
ghost use Rattle.std.specs.Prelude.{IfOk};
ghost use Rattle.image_map.specs.Whole.{IsImage};
ghost use Rattle.asi_cuts.specs.Closed.{Answers};

use crate::facts::Constraint;
use crate::known::KnownCuts;
use crate::lists::{CutResult, lists_of};
use crate::set::Halt;
use crate::spread::add_forced;
use alocs::CutList;
use image_map::Image;
use std::alloc::{AllocError, Global};

/// The least lists of cuts that hold the kept lists and follow the facts, or `TooMany` exactly where they have more than 1,024 different
/// cuts. Lists and facts name `Global`, `Frame` and `Heap` regions; `Global` has the segments of the image.
///
/// A cut outside its region, a kept one too, is left out, and a region without a cut has no list. The ends of regions aren't added, and
/// unless kept lists or facts have them they don't count.
pub fn close(
    alloc: Global,
    kept: &[CutList],
    facts: &[Constraint],
    image: &Image,
) -> Result<CutResult, AllocError>
    requires { IsImage image.now }
    ensures { IfOk result (Answers kept.now facts.now image.now.segments) }
{
    let mut set = KnownCuts::new(alloc)?;
    let added = add_forced(&mut set, kept, facts, image.segments.as_slice());
    let cuts = set.sorted();
    match added {
        Err(halt) => match halt {
            Halt::Memory => Err(AllocError),
            Halt::TooMany => Ok(CutResult::TooMany),
        },
        Ok(()) => Ok(CutResult::Cuts(lists_of(alloc, cuts)?)),
    }
}
