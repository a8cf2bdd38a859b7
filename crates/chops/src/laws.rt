//! Laws over the definitions of chops and paths.
ghost use Rattle.std.specs.Prelude.{◌≡◌, ◌↔◌, ◌∷◌, Bool, List, ℕ};
ghost use Rattle.flow_graph.specs.declared.graph.FlowNode.{FlowNode};
ghost use Rattle.flow_graph.specs.FlowGraph.{IsAt};
ghost use Rattle.slicer.specs.Slicer.{Arrow, InSlice, ListedEdge};
ghost use Rattle.chops.specs.Chops.{InChop, InForward};
ghost use Rattle.chops.specs.Paths.{IsLeastTrace, IsShortestTrace, IsTrace};

/// A path of arrows goes from one address to another exactly where the forward slice of the one has a node at the other, and exactly where
/// the slice of the other has a node at the one. Each node of a chop lies on such a path.
pub fn chop_laws()
    ensures forward { (ordinary sp : List (ℕ × ℕ)) (skip_sp : Bool) (g : List FlowNode) (from to : ℕ) → ((n : ℕ) × IsAt g to n × InForward (ListedEdge ordinary sp skip_sp) g from n) ↔ ((trace : List ℕ) × IsTrace (Arrow (ListedEdge ordinary sp skip_sp) g) (IsAt g from) (IsAt g to) trace) }
    ensures back { (ordinary sp : List (ℕ × ℕ)) (skip_sp : Bool) (g : List FlowNode) (from to : ℕ) → ((n : ℕ) × IsAt g from n × InSlice (ListedEdge ordinary sp skip_sp) g to n) ↔ ((trace : List ℕ) × IsTrace (Arrow (ListedEdge ordinary sp skip_sp) g) (IsAt g from) (IsAt g to) trace) }
    ensures between { (ordinary sp : List (ℕ × ℕ)) (skip_sp : Bool) (g : List FlowNode) (from to n : ℕ) → InChop (ListedEdge ordinary sp skip_sp) g from to n → ((trace : List ℕ) × IsTrace (Arrow (ListedEdge ordinary sp skip_sp) g) (IsAt g from) (λ m. m ≡ n) trace) × ((trace : List ℕ) × IsTrace (Arrow (ListedEdge ordinary sp skip_sp) g) (λ m. m ≡ n) (IsAt g to) trace) }
{}

/// There is one shortest path at most, and it takes the least node at each step, read from its end.
pub fn path_laws()
    ensures one { (ordinary sp : List (ℕ × ℕ)) (skip_sp : Bool) (g : List FlowNode) (from to : ℕ) (a b : List ℕ) → IsShortestTrace (Arrow (ListedEdge ordinary sp skip_sp) g) (IsAt g from) (IsAt g to) a → IsShortestTrace (Arrow (ListedEdge ordinary sp skip_sp) g) (IsAt g from) (IsAt g to) b → a ≡ b }
    ensures least { (ordinary sp : List (ℕ × ℕ)) (skip_sp : Bool) (g : List FlowNode) (from to n : ℕ) (ms : List ℕ) → IsLeastTrace (Arrow (ListedEdge ordinary sp skip_sp) g) (IsAt g from) (IsAt g to) n ms → IsShortestTrace (Arrow (ListedEdge ordinary sp skip_sp) g) (IsAt g from) (IsAt g to) (n ∷ ms) }
{}
