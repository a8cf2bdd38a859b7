//! Laws of the definitions.

ghost use Rattle.call_soundness.specs.Laws.{FetchedInstructionsStand, ExternsStand, StayingStepsAreRows, CallsAreRows, ReturnsAreRows, AnswersAreRows, StepsAreRows, AbstractStepsAreMet, StepsMoveBytes, SlotsStay, CalledStatesStand, ReturnedStatesStand, AllocatedStatesStand, ControlStepsKeepToAccesses, AnswersKeepToAccesses};

/// An instruction that is fetched at an address is what stands there.
pub fn fetched_instructions_stand()
    ensures { FetchedInstructionsStand }
{}

/// So is an extern.
pub fn externs_stand()
    ensures { ExternsStand }
{}

/// From a state that a map knows, an instruction after which control stays in its context goes to a successor of its node, whose abstract
/// state stands for the state after it. That state is whole.
pub fn staying_steps_are_rows()
    ensures { StayingStepsAreRows }
{}

/// From a state that a map knows, a call goes to a target of its node, and to a successor whose abstract state stands for the state in
/// which the callee begins. That state is whole.
pub fn calls_are_rows()
    ensures { CallsAreRows }
{}

/// From a state that a map knows, a return goes to the place after the newest call: behind each call of the map to which it may go back
/// there is a successor, whose one abstract state stands for the state after it. That state is whole.
pub fn returns_are_rows()
    ensures { ReturnsAreRows }
{}

/// So does the answer of an extern that returns.
pub fn answers_are_rows()
    ensures { AnswersAreRows }
{}

/// From a state that a map knows, each step that isn't the last of a run is a row of the map and leaves a whole state.
pub fn steps_are_rows()
    ensures { StepsAreRows }
{}

/// All that the argument on slices asks of single steps is met: starts are whole and have the initial state, what is below stands for no more, and
/// steps are rows.
pub fn abstract_steps_are_met()
    ensures { AbstractStepsAreMet }
{}

/// From a state that a map knows, a step leaves the stack where it is and what was allocated; a call or a return writes or forgets what it takes of
/// the stack.
pub fn steps_move_bytes()
    ensures { StepsMoveBytes }
{}

/// No step from a state that a map knows writes a return slot, and none forgets one but a return: that of the activation that ends.
pub fn slots_stay()
    ensures { SlotsStay }
{}

/// After a call the abstract state after it stands for the state.
pub fn called_states_stand()
    ensures { CalledStatesStand }
{}

/// So it does after a return.
pub fn returned_states_stand()
    ensures { ReturnedStatesStand }
{}

/// Each byte that a jump, a branch, a call or a return reads or writes is accessed, and what it writes in any case was written.
pub fn control_steps_keep_to_accesses()
    ensures { ControlStepsKeepToAccesses }
{}

/// After an allocation, where nothing is remembered of a comparison or of how blocks of its key are aligned, the abstract state after it
/// stands for the state.
pub fn allocated_states_stand()
    ensures { AllocatedStatesStand }
{}

/// Each byte that an extern's answer writes is accessed, and so is each that it reads, unless it may read every byte.
pub fn answers_keep_to_accesses()
    ensures { AnswersKeepToAccesses }
{}
