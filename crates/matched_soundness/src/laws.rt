//! Laws of the definitions.

ghost use Rattle.matched_soundness.specs.Laws.{RoundsHaveMatchedArrows, MatchedSlicesListDependences};

/// Where an occurrence depends directly on another, a matched edge or a matched control goes from the other's node to its own; with skip_sp
/// one that isn't by ESP alone.
pub fn rounds_have_matched_arrows()
    ensures { RoundsHaveMatchedArrows }
{}

/// The slice along matched walks of a round without warnings lists each dependence of each run.
pub fn matched_slices_list_dependences()
    ensures { MatchedSlicesListDependences }
{}
