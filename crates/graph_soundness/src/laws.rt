//! Laws of the definitions.

ghost use Rattle.graph_soundness.specs.Laws.{CoresAreCovered, ReadsAreCovered, GraphsAreOfMaps, SetsAreOfAccesses, ReachesAreFormed, BytesMove, WritesAreCovered, SureBytesAreWritten, WrittenBytesHaveCells, PlacesAreCovered, GraphsDescribe, SlicesOfGraphsListDependences, ClosedMapsAreClean};

/// Registers and flags that an occurrence reads and writes are in the sets of its node, and those that the node must define are written.
pub fn cores_are_covered()
    ensures { CoresAreCovered }
{}

/// Of each byte that an occurrence reads, the one that completes a run too, the node may use the place where it lies.
pub fn reads_are_covered()
    ensures { ReadsAreCovered }
{}

/// Nodes, steps, branches and ends of the graph that the accesses of a map give are those of the map.
pub fn graphs_are_of_maps()
    ensures { GraphsAreOfMaps }
{}

/// An occurrence leaves the stack where it is and what is allocated; a call takes the bytes below the end of its return slot, and a return
/// or an extern gives up those of the activation that ends.
pub fn bytes_move()
    ensures { BytesMove }
{}

/// The graph's sets have the places of whatever the accesses of a node may concern, and none that isn't written as a whole among those that
/// must be defined.
pub fn sets_are_of_accesses()
    ensures { SetsAreOfAccesses }
{}

/// All intervals of the reaches have the one form of their members, in a map of which each state has the form that the analysis keeps.
pub fn reaches_are_formed()
    ensures { ReachesAreFormed }
{}

/// Each byte that an occurrence writes and doesn't forget lies, after it, at an offset that the node may define, where the check of the
/// map passes.
pub fn writes_are_covered()
    ensures { WritesAreCovered }
{}

/// Each byte that lies, after an occurrence, at an offset that the node must define was written, where the check of the map passes.
pub fn sure_bytes_are_written()
    ensures { SureBytesAreWritten }
{}

/// The graph has a cell wherever a byte lies that was written, where the check of the map passes and its cells divide the image.
pub fn written_bytes_have_cells()
    ensures { WrittenBytesHaveCells }
{}

/// What an occurrence reads and writes has its place in the sets of its node.
pub fn places_are_covered()
    ensures { PlacesAreCovered }
{}

/// The graph of a map whose check passes describes each run.
pub fn graphs_describe()
    ensures { GraphsDescribe }
{}

/// A slice of it lists each dependence of each run.
pub fn slices_of_graphs_list_dependences()
    ensures { SlicesOfGraphsListDependences }
{}

/// A map that is closed under its steps, in which no warning stands and each state has the form that the analysis keeps, is clean.
pub fn closed_maps_are_clean()
    ensures { ClosedMapsAreClean }
{}
