//! Laws over the definitions of cuts.
ghost use Rattle.std.specs.Prelude.{◌≡◌, ◌⊎◌, Bool, List, ℤ, ℕ, true};
ghost use Rattle.image_map.specs.declared.image.Segment.{Segment};
ghost use Rattle.image_map.specs.declared.region.RegionId.{RegionId};
ghost use Rattle.alocs.specs.declared.cells.CutList.{CutList};
ghost use Rattle.asi_cuts.specs.declared.facts.Constraint.{Constraint};
ghost use Rattle.asi_cuts.specs.declared.facts.Constraint.TheVariants.{Same};
ghost use Rattle.alocs.specs.Cells.{AreCutLists};
ghost use Rattle.asi_cuts.specs.Closed.{ListsRise};
ghost use Rattle.asi_cuts.specs.Cuts.{Carries, IsCut, lies_in};
ghost use Rattle.asi_cuts.specs.Following.{Follows, IsWithin};

/// The forced cuts hold the kept cuts and follow each fact, and they are the fewest: whatever holds the kept cuts and follows each
/// fact holds all of them.
pub fn least_cuts()
    ensures follow { (kept : List CutList) (facts : List Constraint) (segments : List Segment) → Follows kept facts segments (IsCut kept facts segments) }
    ensures fewest { (kept : List CutList) (facts : List Constraint) (segments : List Segment) (holds : RegionId → ℤ → Bool) → Follows kept facts segments (λ r offset. holds r offset ≡ true) → (r : RegionId) (offset : ℤ) → IsCut kept facts segments r offset → holds r offset ≡ true }
{}

/// Each forced cut lies in its region or at an end of it.
pub fn cuts_lie_inside()
    ensures { (kept : List CutList) (facts : List Constraint) (segments : List Segment) (r : RegionId) (offset : ℤ) → IsCut kept facts segments r offset → lies_in segments r offset ≡ true }
{}

/// Facts divide alike: where a fact makes one cut of another, it makes the other of the one.
pub fn carried_back()
    ensures { (f : Constraint) (q : RegionId) (cut : ℤ) (r : RegionId) (offset : ℤ) → Carries f q cut r offset → Carries f r offset q cut }
{}

/// Of two ranges that are divided alike a cut is carried from the one to the other, from inside to inside: their ends aren't.
pub fn carried_inside()
    ensures { (a : RegionId) (a_start : ℤ) (b : RegionId) (b_start : ℤ) (len : ℕ) (q : RegionId) (cut : ℤ) (r : RegionId) (offset : ℤ) → Carries (Same a a_start b b_start len) q cut r offset → ((q ≡ a) × IsWithin a_start len cut × (r ≡ b) × IsWithin b_start len offset) ⊎ ((q ≡ b) × IsWithin b_start len cut × (r ≡ a) × IsWithin a_start len offset) }
{}

/// Lists that rise, as those of `close` do, are lists that cells are made from.
pub fn closed_lists_fit()
    ensures { (lists : List CutList) → ListsRise lists → AreCutLists lists }
{}
