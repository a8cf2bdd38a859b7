//! What is said of the definitions.
ghost use Rattle.std.specs.Prelude.{◌≤◌, length};
ghost use Rattle.image_map.specs.declared.image.Image.{Image};
ghost use Rattle.alocs.specs.Cells.{AreCutLists};
ghost use Rattle.first_cuts.specs.FirstCuts.{first_cuts, first_lists};

/// The first lists are such that cells can be made of them, and have 512 cuts at most.
pub fn first_lists_are_cut_lists()
    ensures rise { (image : Image) → AreCutLists (first_lists image) }
    ensures few { (image : Image) → length (first_cuts image) ≤ 512 }
{}
