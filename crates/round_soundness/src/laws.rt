//! Laws of the definitions.

ghost use Rattle.round_soundness.specs.Laws.{ChecksAgree, MapsWithoutWarningsAreClean, RoundsDescribeRuns, RoundsKnowStates, RoundsKeepStatesWhole, RoundsReturnHome, RoundsCoverPlaces, RoundsHaveArrows, RoundsListDependences, RoundsTellWays};

/// The check of a map and the argument on slices mean the same by a map that is closed under its steps.
pub fn checks_agree()
    ensures { ChecksAgree }
{}

/// A map in which the check finds nothing is clean.
pub fn maps_without_warnings_are_clean()
    ensures { MapsWithoutWarningsAreClean }
{}

/// The graph of a round without warnings describes each run.
pub fn rounds_describe_runs()
    ensures { RoundsDescribeRuns }
{}

/// At each point of a run before it is complete the abstract state at the state's node stands for it, and unless the next occurrence
/// completes the run, the node of the next state is among the node's successors.
pub fn rounds_know_states()
    ensures { RoundsKnowStates }
{}

/// Each state of a run is whole until the run is complete: no occurrence writes a return slot that was live before it, and none but the
/// return that ends its activation forgets it.
pub fn rounds_keep_states_whole()
    ensures { RoundsKeepStatesWhole }
{}

/// Each return that doesn't complete the run goes to the place after its call.
pub fn rounds_return_home()
    ensures { RoundsReturnHome }
{}

/// What an occurrence reads its node may use, what it writes its node may define, and what its node must define it writes; a byte keeps its
/// cell until it is written again or forgotten.
pub fn rounds_cover_places()
    ensures { RoundsCoverPlaces }
{}

/// Where an occurrence depends directly on another, an edge or a control goes from the other's node to its own; with skip_sp one that isn't
/// by ESP alone.
pub fn rounds_have_arrows()
    ensures { RoundsHaveArrows }
{}

/// The slice of a round without warnings lists each dependence of each run: in a run of the image from the entry, under the call model,
/// each occurrence on which an occurrence at the criterion's address depends, by last write, by the branches that decide whether it comes,
/// directly or through others, stands at an address of the slice.
pub fn rounds_list_dependences()
    ensures { RoundsListDependences }
{}

/// Where an occurrence at one address depends on one at another, the forward slice of the other has its address, there is a shortest path,
/// and the chop between them has the address of each occurrence through which it depends.
pub fn rounds_tell_ways()
    ensures { RoundsTellWays }
{}
