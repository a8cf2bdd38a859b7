//! Laws of states that two become one of.

ghost use Rattle.abs_state.specs.Laws.{JoinsKeepForm, WideningsKeepForm, JoinsKeepRising};

/// What two states are joined to holds every interval in its one form, where both do.
pub fn joins_keep_form()
    ensures { JoinsKeepForm }
{}

/// So does what a new state widens an old one to.
pub fn widenings_keep_form()
    ensures { WideningsKeepForm }
{}

/// The procedures that run, and those whose older runs stand on the stack, rise in it, where they do in
/// the first.
pub fn joins_keep_rising()
    ensures { JoinsKeepRising }
{}
