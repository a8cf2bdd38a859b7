//! Laws on the definitions.
ghost use Rattle.std.specs.Prelude.{ℕ, ◌≡◌, ◌+◌, Bool, true, List, Some, Contains, slice_get};
ghost use Rattle.image_map.specs.declared.image.Image.{Image};
ghost use Rattle.image_map.specs.declared.region.Cell.{Cell};
ghost use Rattle.ia32_types.specs.declared.Reg.{Reg};
ghost use Rattle.ia32_types.specs.declared.Flag.{Flag};
ghost use Rattle.abs_steps.specs.Views.{View};
ghost use Rattle.abs_steps.specs.Places.{Content};
ghost use Rattle.access_facts.specs.Forms.{AreFormed};
ghost use Rattle.access_facts.specs.Places.{cell_places, flag_places, register_places};
ghost use Rattle.access_facts.specs.Rising.{AreBelow, RisesFrom};
ghost use Rattle.access_facts.specs.Rows.{AreSome};
ghost use Rattle.access_facts.specs.Sets.{may_def, may_use, must_def, write_reaches};

/// What a node must define it may define, where no cell is empty and the intervals of its accesses have the one form.
pub fn must_definitions_are_definitions()
    ensures { (image : Image) (cells : List Cell) (v : View) (content : Content) (goes_on : Bool) (place : ℕ) → AreSome cells → AreFormed (write_reaches image v content goes_on) → Contains (must_def image cells v content goes_on) place → Contains (may_def image cells v content goes_on) place }
{}

/// The lists of places rise, each place once.
pub fn places_rise()
    ensures used { (cells : List Cell) (v : View) (content : Content) → RisesFrom 0 (may_use cells v content) }
    ensures defined { (image : Image) (cells : List Cell) (v : View) (content : Content) (goes_on : Bool) → RisesFrom 0 (may_def image cells v content goes_on) }
    ensures always { (image : Image) (cells : List Cell) (v : View) (content : Content) (goes_on : Bool) → RisesFrom 0 (must_def image cells v content goes_on) }
{}

/// Registers have places below 8, flags from 8 on, and cells from 14 on: the place of the k-th cell of a graph is 14 + k.
pub fn places_of_cells()
    ensures registers { (rs : List Reg) → AreBelow 8 (register_places rs) }
    ensures flags { (fs : List Flag) → RisesFrom 8 (flag_places fs) × AreBelow 14 (flag_places fs) }
    ensures there { (test : Cell → Bool) (cells : List Cell) (k : ℕ) (cell : Cell) → slice_get cells k ≡ Some cell → test cell ≡ true → Contains (cell_places test cells) (14 + k) }
    ensures back { (test : Cell → Bool) (cells : List Cell) (place : ℕ) → Contains (cell_places test cells) place → (k : ℕ) × (cell : Cell) × (slice_get cells k ≡ Some cell) × (test cell ≡ true) × (place ≡ 14 + k) }
{}
