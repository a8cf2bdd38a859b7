//! The first cuts.
ghost use Rattle.std.specs.Prelude.{◌≡◌, ◌++◌, ◌+◌, [], ◌∷◌, IfOk, OnOk, pos};
ghost use Rattle.std.specs.List.{flat_map};
ghost use Rattle.image_map.specs.Whole.{ArePlaced, IsImage};
ghost use Rattle.first_cuts.specs.FirstCuts.{candidates, ends_of, file_cuts as file_cuts_spec, first_lists as first_lists_spec, taken_onto, word_ends};

use crate::constants::take_constants;
use crate::taking::take_all;
use alocs::{CutList, Extent, extent_of};
use image_map::{Image, RegionId, Segment};
use item_list::Items;
use std::alloc::{AllocError, Global};

// Both ends of a range, at the end of others.
fn push_ends(cuts: &mut Vec<i32>, range: &Extent) -> Result<(), AllocError>
    ensures { OnOk result (cuts.new.items ≡ cuts.old.items ++ range.now.start ∷ range.now.end ∷ []) }
{
    cuts.push(range.start)?;
    cuts.push(range.end)?;
    Ok(())
}

fn push_segments(cuts: &mut Vec<i32>, segments: &[Segment]) -> Result<(), AllocError>
    requires { ArePlaced segments.now }
    ensures { OnOk result (cuts.new.items ≡ cuts.old.items ++ flat_map ends_of segments.now) }
{
    for segment in segments {
        let extent = extent_of(segment);
        push_ends(cuts, &extent)?;
    }
    Ok(())
}

// Both ends of a relocated word.
fn push_word(cuts: &mut Vec<i32>, word: u32) -> Result<(), AllocError>
    ensures { OnOk result (cuts.new.items ≡ cuts.old.items ++ word_ends word) }
{
    if word < 0x7FFF_FFFC {
        let range = Extent {
            start: word as i32,
            end: (word + 4) as i32,
        };
        push_ends(cuts, &range)?;
    }
    Ok(())
}

fn push_words(cuts: &mut Vec<i32>, words: &[u32]) -> Result<(), AllocError>
    ensures { OnOk result (cuts.new.items ≡ cuts.old.items ++ flat_map word_ends words.now) }
{
    for word in words {
        push_word(cuts, *word)?;
    }
    Ok(())
}

/// The cuts of `Global` that the file tells: the start and the end of each segment, in their order, and then those of each relocated word.
pub fn file_cuts(alloc: Global, image: &Image) -> Result<Vec<i32>, AllocError>
    requires { IsImage image.now }
    ensures { IfOk result (λ v. v.items ≡ file_cuts_spec image.now) }
{
    let mut cuts = Vec::new(alloc);
    push_segments(&mut cuts, image.segments.as_slice())?;
    push_words(&mut cuts, image.words.as_slice())?;
    Ok(cuts)
}

// The cuts of `Global`.
fn first_cuts(alloc: Global, image: &Image) -> Result<Vec<i32>, AllocError>
    requires { IsImage image.now }
    ensures { IfOk result (λ v. v.items ≡ taken_onto [] (candidates image.now)) }
{
    let told = file_cuts(alloc, image)?;
    let mut taken = Vec::new(alloc);
    take_all(&mut taken, told.as_slice())?;
    take_constants(&mut taken, image)?;
    Ok(taken)
}

/// The lists of cuts with which an analysis of an image begins: one list, of `Global`, rising. One after the other, until 512 different
/// cuts are taken, it has the start and the end of each segment, those of each relocated word, and the constants of the code that are
/// addresses of the image.
pub fn first_lists(alloc: Global, image: &Image) -> Result<Vec<CutList>, AllocError>
    requires { IsImage image.now }
    ensures { IfOk result (λ lists. lists.items ≡ first_lists_spec image.now) }
{
    let cuts = first_cuts(alloc, image)?;
    let mut lists = Vec::new(alloc);
    lists.push(CutList {
        region: RegionId::Global,
        cuts: Items::from_vec(cuts),
    })?;
    Ok(lists)
}
