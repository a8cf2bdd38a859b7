//! The lists of cuts that are kept for the next round.
ghost use Rattle.std.specs.Prelude.{◌≡◌, ◌++◌, [], ◌∷◌, IfOk, OnOk, map};
ghost use Rattle.image_map.specs.Whole.{IsImage};
ghost use Rattle.access_facts.specs.Kept.{frame_list as frame_list_spec, global_list as global_list_spec, heap_list as heap_list_spec, lists_of, round_lists};

use crate::numbers::Names;
use alocs::{Cells, CutList};
use first_cuts::file_cuts;
use image_map::{Image, RegionId};
use item_list::Items;
use std::alloc::{AllocError, Global};

/// The ends of a Frame, and those of its return slot.
const FRAME_CUTS: [i32; 4] = [-0x10_0000, 0, 4, 0x1_0000];

/// The ends of a block.
const HEAP_CUTS: [i32; 2] = [0, 0x2000_0000];

fn push_global(alloc: Global, lists: &mut Vec<CutList>, image: &Image) -> Result<(), AllocError>
    requires { IsImage image.now }
    ensures { OnOk result (lists.new.items ≡ lists.old.items ++ global_list_spec image.now ∷ []) }
{
    let cuts = file_cuts(alloc, image)?;
    lists.push(CutList {
        region: RegionId::Global,
        cuts: Items::from_vec(cuts),
    })?;
    Ok(())
}

fn push_frame(alloc: Global, lists: &mut Vec<CutList>, procedure: u32) -> Result<(), AllocError>
    ensures { OnOk result (lists.new.items ≡ lists.old.items ++ frame_list_spec procedure ∷ []) }
{
    let cuts = Items::from_slice(alloc, &FRAME_CUTS)?;
    lists.push(CutList {
        region: RegionId::Frame(procedure),
        cuts,
    })?;
    Ok(())
}

fn push_heap(alloc: Global, lists: &mut Vec<CutList>, key: u32) -> Result<(), AllocError>
    ensures { OnOk result (lists.new.items ≡ lists.old.items ++ heap_list_spec key ∷ []) }
{
    let cuts = Items::from_slice(alloc, &HEAP_CUTS)?;
    lists.push(CutList {
        region: RegionId::Heap(key),
        cuts,
    })?;
    Ok(())
}

fn push_frames(
    alloc: Global,
    lists: &mut Vec<CutList>,
    procedures: &[u32],
) -> Result<(), AllocError>
    ensures { OnOk result (lists.new.items ≡ lists.old.items ++ map frame_list_spec procedures.now) }
{
    for procedure in procedures {
        push_frame(alloc, lists, *procedure)?;
    }
    Ok(())
}

fn push_heaps(alloc: Global, lists: &mut Vec<CutList>, keys: &[u32]) -> Result<(), AllocError>
    ensures { OnOk result (lists.new.items ≡ lists.old.items ++ map heap_list_spec keys.now) }
{
    for key in keys {
        push_heap(alloc, lists, *key)?;
    }
    Ok(())
}

fn push_list(lists: &mut Vec<CutList>, list: &CutList) -> Result<(), AllocError>
    ensures { OnOk result (lists.new.items ≡ lists.old.items ++ list.now ∷ []) }
{
    let copy = list.clone()?;
    lists.push(copy)?;
    Ok(())
}

fn push_lists(lists: &mut Vec<CutList>, more: &[CutList]) -> Result<(), AllocError>
    ensures { OnOk result (lists.new.items ≡ lists.old.items ++ more.now) }
{
    for list in more {
        push_list(lists, list)?;
    }
    Ok(())
}

// The lists of a round, but for those of the first one.
fn push_round(lists: &mut Vec<CutList>, number: u32, cells: &Cells) -> Result<(), AllocError>
    ensures { OnOk result (lists.new.items ≡ lists.old.items ++ round_lists number cells.now) }
{
    if number != 0 {
        push_lists(lists, cells.lists())?;
    }
    Ok(())
}

/// The lists that the round after this one keeps, where a map has these procedures and keys.
pub(crate) fn lists_after(
    alloc: Global,
    image: &Image,
    names: &Names,
    number: u32,
    cells: &Cells,
) -> Result<Vec<CutList>, AllocError>
    requires { IsImage image.now }
    ensures { IfOk result (λ lists. lists.items ≡ lists_of image.now names.now.procedures.items names.now.keys.items (round_lists number cells.now)) }
{
    let mut lists = Vec::new(alloc);
    push_global(alloc, &mut lists, image)?;
    push_frames(alloc, &mut lists, names.procedures.as_slice())?;
    push_heaps(alloc, &mut lists, names.keys.as_slice())?;
    push_round(&mut lists, number, cells)?;
    Ok(lists)
}
