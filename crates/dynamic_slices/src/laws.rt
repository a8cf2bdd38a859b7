//! Laws of the definitions.

ghost use Rattle.dynamic_slices.specs.Laws.{SlicesAreClosures, ToldSlicesAreDynamic, SlicesAreOne};

/// A dynamic slice of a run has the addresses of a step and of all on which it depends by data. The slice that a log tells is
/// that of the run of which it tells. There is one slice of a step, and one last step at an address.
pub fn dynamic_slice_laws()
    ensures closures { SlicesAreClosures }
    ensures told { ToldSlicesAreDynamic }
    ensures one { SlicesAreOne }
{}
