//! Laws of the definitions.
ghost use Rattle.std.specs.Prelude.{◌≡◌, ◌≤◌, ℕ, List, length};
ghost use Rattle.image_map.specs.declared.image.Image.{Image};
ghost use Rattle.image_map.specs.declared.region.Settings.{Settings};
ghost use Rattle.image_map.specs.declared.image.Segment.{Segment};
ghost use Rattle.alocs.specs.declared.cells.CutList.{CutList};
ghost use Rattle.alocs.specs.declared.extents.Extent.{Extent};
ghost use Rattle.alocs.specs.Extents.{AreOfImage};
ghost use Rattle.asi_cuts.specs.declared.facts.Constraint.{Constraint};
ghost use Rattle.alocs.specs.Cells.{Division};
ghost use Rattle.asi_cuts.specs.Closed.{AreLeast};
ghost use Rattle.vsa.specs.Views.{told};
ghost use Rattle.rounds.specs.declared.round.Round.{Round};
ghost use Rattle.rounds.specs.Rounds.{HasCells, IsRound};

/// An image has one list of extents, and kept lists and facts force one list of cuts for each region: what cells a round has is settled by
/// the round before it.
pub fn cells_are_settled()
    ensures extents { (segments : List Segment) (xs ys : List Extent) → AreOfImage segments xs → AreOfImage segments ys → xs ≡ ys }
    ensures cuts { (kept : List CutList) (facts : List Constraint) (segments : List Segment) (xs ys : List CutList) → AreLeast kept facts segments xs → AreLeast kept facts segments ys → xs ≡ ys }
{}

/// The number of a round and the number of call sites that its nodes keep settle what it has: its cells, its map, what can't be followed
/// there, its flow graph and whether it is the last.
pub fn numbers_settle_rounds()
    ensures cells { (image : Image) (settings : Settings) (lane n : ℕ) (d e : Division) → HasCells image settings lane n d → HasCells image settings lane n e → d ≡ e }
    ensures map { (image : Image) (settings : Settings) (r q : Round) → IsRound image settings r → IsRound image settings q → r.number ≡ q.number → r.lane ≡ q.lane → told r.states ≡ told q.states }
    ensures warnings { (image : Image) (settings : Settings) (r q : Round) → IsRound image settings r → IsRound image settings q → r.number ≡ q.number → r.lane ≡ q.lane → r.warnings.items ≡ q.warnings.items }
    ensures flow { (image : Image) (settings : Settings) (r q : Round) → IsRound image settings r → IsRound image settings q → r.number ≡ q.number → r.lane ≡ q.lane → r.graph.flow.nodes ≡ q.graph.flow.nodes }
    ensures last { (image : Image) (settings : Settings) (r q : Round) → IsRound image settings r → IsRound image settings q → r.number ≡ q.number → r.lane ≡ q.lane → r.last ≡ q.last }
{}

/// A round has at most 4,096 nodes, and at most 32,770 warnings: 8 at a node and 2 of the whole map.
pub fn rounds_are_small()
    ensures nodes { (image : Image) (settings : Settings) (r : Round) → IsRound image settings r → length r.graph.flow.nodes ≤ 4096 }
    ensures warnings { (image : Image) (settings : Settings) (r : Round) → IsRound image settings r → length r.warnings.items ≤ 32770 }
{}
