//! What holds of each run, where the premises hold of each step.

ghost use Rattle.std.specs.Prelude.{true};
ghost use Rattle.ia32_semantics.specs.Machine.{Machine};
ghost use Rattle.ia32_semantics.specs.Dependence.{ListsDependences};
ghost use Rattle.slice_soundness.specs.Maps.{Map};
ghost use Rattle.slice_soundness.specs.Premises.{Follows, IsGraphOf, Covers, SlotsAreKept, Describes};
ghost use Rattle.slice_soundness.specs.Located.{Division, Accesses, IsLocated};
ghost use Rattle.slice_soundness.specs.Laws.{ArchitectureMeetsLaws, KnowsStates, StatesAreWhole, RunsKeepSlots, ReturnsHome, LiveProceduresHaveNodes, UntouchedBytesStay, RunsMeetNodes, RunsWalk, DataHasEdges, CompleteRunsEscape, BranchesControl, DependencesAreArrows, DependencesAreChains, SlicesListDependences, PassedTablesAreClean, RowsGiveGraph};
ghost use Rattle.slice_soundness.specs.Example.{machine, example, division, accesses, listed, HasDependences};

/// A machine, and a map that an analysis made of its program.
pub trait Analysis {
    ghost machine: { Machine };

    ghost map: { Map };
}

/// The machine of the 32-bit Intel architecture is as is asked of a machine: where its runs start, that an address has one act, and
/// that a branch isn't the last occurrence of a run.
pub fn architecture_meets_laws()
    ensures { ArchitectureMeetsLaws }
{}

/// The map knows each state of each run, and the next node is a successor.
pub fn knows_states<A: Analysis>()
    ensures { Follows A.machine A.map → KnowsStates A.machine A.map }
{}

/// Each state of a run is whole until the run is complete.
pub fn states_are_whole<A: Analysis>()
    ensures { Follows A.machine A.map → StatesAreWhole A.machine A.map }
{}

/// No live return slot is written, and none is forgotten but by its own return.
pub fn runs_keep_slots<A: Analysis>()
    ensures { Follows A.machine A.map → SlotsAreKept A.machine A.map → RunsKeepSlots A.machine }
{}

/// Each return that doesn't complete the run goes to the place after its call.
pub fn returns_home<A: Analysis>()
    ensures { Follows A.machine A.map → ReturnsHome A.machine }
{}

/// Each procedure that runs or has called has a node in the map.
pub fn live_procedures_have_nodes<A: Analysis>()
    ensures { LiveProceduresHaveNodes A.machine A.map }
{}

/// Each occurrence stands at a node of the graph, so that an address without a node isn't met.
pub fn runs_meet_nodes<A: Analysis>()
    ensures { Follows A.machine A.map → IsGraphOf A.machine A.map → RunsMeetNodes A.machine A.map }
{}

/// From an occurrence to a later one the graph is walked by the nodes between them.
pub fn runs_walk<A: Analysis>()
    ensures { Follows A.machine A.map → IsGraphOf A.machine A.map → RunsWalk A.machine A.map }
{}

/// A dependence by last writer is a data edge, with and without ESP.
pub fn data_has_edges<A: Analysis>()
    ensures { Describes A.machine A.map → DataHasEdges A.machine A.map }
{}

/// A complete run that doesn't come to an address again walks to an end round it.
pub fn complete_runs_escape<A: Analysis>()
    ensures { Follows A.machine A.map → IsGraphOf A.machine A.map → CompleteRunsEscape A.machine A.map }
{}

/// A dependence by the way that a branch went is a control edge.
pub fn branches_control<A: Analysis>()
    ensures { Follows A.machine A.map → IsGraphOf A.machine A.map → BranchesControl A.machine A.map }
{}

/// A direct dependence is an arrow between the nodes.
pub fn dependences_are_arrows<A: Analysis>()
    ensures { Describes A.machine A.map → DependencesAreArrows A.machine A.map }
{}

/// A dependence through others is a chain of arrows.
pub fn dependences_are_chains<A: Analysis>()
    ensures { Describes A.machine A.map → DependencesAreChains A.machine A.map }
{}

/// The slice of an address lists each dependence of each occurrence there, in whatever run.
pub fn slices_list_dependences<A: Analysis>()
    ensures { Describes A.machine A.map → SlicesListDependences A.machine A.map }
{}

/// The map's cells and their graph's sets, by regions, accesses and what happens to the stack.
pub trait Layout: Analysis {
    ghost division: { Division };

    ghost accesses: { Accesses };
}

/// A byte that is neither written nor forgotten stays where it lies, across calls, returns and allocations.
pub fn untouched_bytes_stay<A: Layout>()
    ensures { UntouchedBytesStay A.machine A.map A.division.key }
{}

/// Where bytes, accesses and the graph's sets are as a layout says, the sets cover what is read and written.
pub fn places_are_covered<A: Layout>()
    ensures { IsLocated A.machine A.map A.division A.accesses → Covers A.machine A.map }
{}

/// Where the check of a map's table passes, each successor is there and above what comes to it, and no warning stands.
pub fn passed_tables_are_clean<A: Analysis>()
    ensures { PassedTablesAreClean A.machine A.map }
{}

/// The rows of a map's table give its graph: nodes, steps, branches and ends.
pub fn rows_give_graph<A: Analysis>()
    ensures { RowsGiveGraph A.machine A.map }
{}

/// The premises hold of a small program with a call, a return, a branch, and a store and a load in a frame; so its slice lists
/// what each of its runs depends on, and there are such dependences.
pub fn premises_can_be_met()
    ensures described { Describes machine example }
    ensures slots { SlotsAreKept machine example }
    ensures layout { IsLocated machine example division accesses }
    ensures listed { ListsDependences machine true 11 listed }
    ensures depends { HasDependences }
{}
