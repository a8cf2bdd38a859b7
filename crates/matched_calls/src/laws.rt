//! Laws over the definitions of matched edges and slices.
ghost use Rattle.std.specs.Prelude.{◌≡◌, [], Bool, Contains, List, ℕ};
ghost use Rattle.flow_graph.specs.declared.graph.FlowNode.{FlowNode};
ghost use Rattle.control_walks.specs.ControlWalks.{Controls};
ghost use Rattle.dep_graph.specs.DepGraph.{DataEdge};
ghost use Rattle.dep_graph.specs.Edges.{HasEdges};
ghost use Rattle.slicer.specs.Slicer.{InSlice, ListedEdge};
ghost use Rattle.matched_calls.specs.declared.kinds.StepKinds.{StepKinds};
ghost use Rattle.matched_calls.specs.Matched.{MatchedControl, MatchedEdge};
ghost use Rattle.matched_calls.specs.Slices.{HasMatches, InSliceOver};

/// Matched edges are data edges, and all of them where no step is a call or a return; matched control is control; so a slice along
/// matched walks lies within the slice.
pub fn matched_laws()
    ensures edges { (g : List FlowNode) (kinds : StepKinds) (place m n : ℕ) → MatchedEdge g kinds place m n → DataEdge g place m n }
    ensures plain { (g : List FlowNode) (kinds : StepKinds) (place m n : ℕ) → kinds.calls ≡ [] → kinds.returns ≡ [] → DataEdge g place m n → MatchedEdge g kinds place m n }
    ensures control { (g : List FlowNode) (kinds : StepKinds) (b n : ℕ) → MatchedControl g kinds b n → Controls g b n }
    ensures slices { (g : List FlowNode) (kinds : StepKinds) (ordinary sp matched matched_sp control : List (ℕ × ℕ)) (skip_sp : Bool) (at n : ℕ) → HasEdges g ordinary sp → HasMatches g kinds matched matched_sp control → InSliceOver (ListedEdge matched matched_sp skip_sp) (λ b n. Contains control (b, n)) g at n → InSlice (ListedEdge ordinary sp skip_sp) g at n }
{}
