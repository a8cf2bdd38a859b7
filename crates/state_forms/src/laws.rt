//! Laws of the definitions.

ghost use Rattle.state_forms.specs.Laws.{StartsHaveBytes, InstructionsAreSpelled, StartsHaveForm, JoinsHaveForm, WideningsHaveForm, ToppedStatesHaveForm, InstructionsKeepForm, SuccessorsHaveForm, MapsHaveForms};

/// An image from which a run starts has bytes.
pub fn starts_have_bytes()
    ensures { StartsHaveBytes }
{}

/// What stands at an address of such an image can be spelled.
pub fn instructions_are_spelled()
    ensures { InstructionsAreSpelled }
{}

/// The state in which runs start has the form that the analysis keeps.
pub fn starts_have_form()
    ensures { StartsHaveForm }
{}

/// States of the form are joined to one of it.
pub fn joins_have_form()
    ensures { JoinsHaveForm }
{}

/// A state of the form that is widened by one has it.
pub fn widenings_have_form()
    ensures { WideningsHaveForm }
{}

/// A state of the form, in which everything is allowed wherever it differs from another, has it.
pub fn topped_states_have_form()
    ensures { ToppedStatesHaveForm }
{}

/// An instruction keeps the form of a state.
pub fn instructions_keep_form()
    ensures { InstructionsKeepForm }
{}

/// Wherever control goes from a state of the form, it comes with one.
pub fn successors_have_form()
    ensures { SuccessorsHaveForm }
{}

/// Each state of the map that the sweeps make of a program has the form, whatever the settings and the cells.
pub fn maps_have_forms()
    ensures { MapsHaveForms }
{}
