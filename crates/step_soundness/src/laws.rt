//! Laws of the definitions.

ghost use Rattle.step_soundness.specs.Laws.{LowPartsAreHeld, SecondBytesAreHeld, WrittenPartsAreHeld, ExtensionsAreHeld, SignsAreHeld, ConditionsMayHold, TruthsAreHeld, ChoicesAreHeld, PushedPointersAreHeld, RisenPointersAreHeld, SteppedPointersAreHeld, GrownPointersAreHeld, AddressesAreHeld, OperandsAreHeld, WrittenRegistersStand, WrittenFlagsStand, FreedFlagsStand, WrittenDirectionsStand, LearnedFactsStand, SavedValuesStand, StoredOperandsStand, PlainStepsAdvance, PlainStepsKeepToAccesses};

/// The low part of a word that a value-set has is one of its low parts.
pub fn low_parts_are_held()
    ensures { LowPartsAreHeld }
{}

/// The second byte of a word is among the values of that operand.
pub fn second_bytes_are_held()
    ensures { SecondBytesAreHeld }
{}

/// A register of which a part is written is among the values that the rule for parts gives.
pub fn written_parts_are_held()
    ensures { WrittenPartsAreHeld }
{}

/// A byte or a word extended with zeros or with its sign is among the extended values.
pub fn extensions_are_held()
    ensures { ExtensionsAreHeld }
{}

/// Copies of a word's sign are among the values of its sign.
pub fn signs_are_held()
    ensures { SignsAreHeld }
{}

/// A condition may come out as it does on flags that may be so.
pub fn conditions_may_hold()
    ensures { ConditionsMayHold }
{}

/// What a condition sets is among the values that its flags allow.
pub fn truths_are_held()
    ensures { TruthsAreHeld }
{}

/// What a condition chooses is among the values that its flags allow.
pub fn choices_are_held()
    ensures { ChoicesAreHeld }
{}

/// The stack pointer after a push.
pub fn pushed_pointers_are_held()
    ensures { PushedPointersAreHeld }
{}

/// The stack pointer after a pop.
pub fn risen_pointers_are_held()
    ensures { RisenPointersAreHeld }
{}

/// The pointer of a string instruction after one element.
pub fn stepped_pointers_are_held()
    ensures { SteppedPointersAreHeld }
{}

/// The pointer of a string instruction after so many elements upwards.
pub fn grown_pointers_are_held()
    ensures { GrownPointersAreHeld }
{}

/// The address of a memory operand is among the values of its address.
pub fn addresses_are_held()
    ensures { AddressesAreHeld }
{}

/// After a part of a register has taken a number, the abstract state in which it took a value that has the number stands for the state.
pub fn written_registers_stand()
    ensures { WrittenRegistersStand }
{}

/// The same of the five flags of arithmetic, with flags that some sets allow.
pub fn written_flags_stand()
    ensures { WrittenFlagsStand }
{}

/// The same where the five flags may be anything.
pub fn freed_flags_stand()
    ensures { FreedFlagsStand }
{}

/// The same of DF.
pub fn written_directions_stand()
    ensures { WrittenDirectionsStand }
{}

/// An abstract state that remembers a comparison stands for a state in which the flags are those of the comparison.
pub fn learned_facts_stand()
    ensures { LearnedFactsStand }
{}

/// What the machine reads of an operand is among its values.
pub fn operands_are_held()
    ensures { OperandsAreHeld }
{}

/// After a number has been stored at an address, the abstract state in which a value that has the number was stored stands for the state.
pub fn saved_values_stand()
    ensures { SavedValuesStand }
{}

/// The same where a number has been stored into an operand, as the machine stores it: a register, a part of one, or memory.
pub fn stored_operands_stand()
    ensures { StoredOperandsStand }
{}

/// After an instruction of moves, arithmetic or the stack at which no warning stands, the next one follows in the same activation, all lies as it should,
/// and the abstract state after the instruction stands for the state.
pub fn plain_steps_advance()
    ensures { PlainStepsAdvance }
{}

/// Each byte that such an instruction reads or writes lies in one of its accesses.
pub fn plain_steps_keep_to_accesses()
    ensures { PlainStepsKeepToAccesses }
{}
