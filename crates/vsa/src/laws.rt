//! Laws of the definitions.
ghost use Rattle.std.specs.Prelude.{◌≡◌, Bool, false, List, [], filter};
ghost use Rattle.image_map.specs.declared.image.Image.{Image};
ghost use Rattle.image_map.specs.declared.region.Settings.{Settings};
ghost use Rattle.call_strings.specs.declared.context.Node.{Node};
ghost use Rattle.abs_semantics.specs.States.{AbsState};
ghost use Rattle.abs_steps.specs.Successors.{States, successors};
ghost use Rattle.sweeps.specs.Meaning.{IsLawful};
ghost use Rattle.vsa.specs.Tables.{Table};
ghost use Rattle.vsa.specs.Analysis.{Analysis, states_of, may_return_to, meaning_of};
ghost use Rattle.vsa.specs.Closed.{entry_node, is_closed};
ghost use Rattle.vsa.specs.Laws.{has_node, IsClean};
ghost use Rattle.vsa.specs.Warned.{map_warnings};

/// The successors of a node are made of its own state and of those of the calls to which it may return; no other node counts.
pub fn returns_look_at_their_calls()
    ensures calls { (x : Analysis) (n : Node) (table : List (Node × Table)) (a : AbsState) → successors x.image x.settings (states_of x table) n a ≡ successors x.image x.settings (states_of x (filter (λ e. may_return_to x n e.0) table)) n a }
{}

/// The sweeps may go by nodes with tables of states: nodes stand in one strict order, and a table is the same as itself.
pub fn nodes_are_places()
    ensures lawful { (x : Analysis) → IsLawful (meaning_of x) }
{}

/// A map that hasn't the entry's node isn't closed.
pub fn maps_without_entry_are_open()
    ensures entry { (image : Image) (settings : Settings) (s : States) → has_node (entry_node settings.entry) s.placed ≡ false → is_closed image settings s ≡ false }
{}

/// Where the check finds nothing, no more nodes were met than a map may have, the map is closed under steps, and no warning stands at a node.
pub fn maps_without_warnings_are_clean()
    ensures clean { (image : Image) (settings : Settings) (s : States) (full : Bool) → map_warnings image settings s full ≡ [] → IsClean image settings s full }
{}
