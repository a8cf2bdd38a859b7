//! Laws of the definitions.

ghost use Rattle.abs_semantics.specs.Laws.{BelowStandsForNoMore, ClearedCellsStandForMore, JoinedStandsForFirst, JoinedStandsForSecond, WidenedStandsForNew, WidenedStandsForOld, StartsHaveStates, ResolvedBytesAreOwned, ReadsAreMembers, RangeReadsAreMembers, WritesStandOn, RangeWritesStandOn, UnknownWritesStandOn, SlotsAreLeft, ReadsHaveForm, WritesKeepForm, RangeWritesKeepForm, MemoryOperandsAreMembers};

/// What lies below an abstract state stands for no more states.
pub fn below_stands_for_no_more()
    ensures { BelowStandsForNoMore }
{}

/// A state in which some cells may hold every value stands for no fewer states.
pub fn cleared_cells_stand_for_more()
    ensures { ClearedCellsStandForMore }
{}

/// What two abstract states are joined to stands for each state that the first stands for.
pub fn joined_stands_for_first()
    ensures { JoinedStandsForFirst }
{}

/// It stands for each state that the second stands for, where runs start at the same procedure.
pub fn joined_stands_for_second()
    ensures { JoinedStandsForSecond }
{}

/// What a new abstract state widens an old one to stands for each state that the new one stands for.
pub fn widened_stands_for_new()
    ensures { WidenedStandsForNew }
{}

/// It stands for each state that the old one stands for, where the old one lies below the new one.
pub fn widened_stands_for_old()
    ensures { WidenedStandsForOld }
{}

/// The initial abstract state stands for each state in which a run starts.
pub fn starts_have_states()
    ensures { StartsHaveStates }
{}

/// Where an abstract state stands for a state and resolves an address without a reason, the bytes that the
/// address means are those of one place that is told.
pub fn resolved_bytes_are_owned()
    ensures { ResolvedBytesAreOwned }
{}

/// What the machine reads at an address is a value that a read in the abstract state gives.
pub fn reads_are_members()
    ensures { ReadsAreMembers }
{}

/// What some bytes of a range hold is a value that a read of them within the range gives.
pub fn range_reads_are_members()
    ensures { RangeReadsAreMembers }
{}

/// After a write of the machine the written abstract state stands for the machine's state.
pub fn writes_stand_on()
    ensures { WritesStandOn }
{}

/// The same after a write to a range, of which the machine wrote the first bytes or all.
pub fn range_writes_stand_on()
    ensures { RangeWritesStandOn }
{}

/// The same after a write of which it isn't known how long it is.
pub fn unknown_writes_stand_on()
    ensures { UnknownWritesStandOn }
{}

/// A write that reaches into no return slot, by all that the abstract state tells, leaves each return slot as
/// it was.
pub fn slots_are_left()
    ensures { SlotsAreLeft }
{}

/// What a read gives has intervals of the one form, where those of the state have it.
pub fn reads_have_form()
    ensures { ReadsHaveForm }
{}

/// A write of a value whose intervals have the one form leaves a state whose intervals have it.
pub fn writes_keep_form()
    ensures { WritesKeepForm }
{}

/// So does a write to a range.
pub fn range_writes_keep_form()
    ensures { RangeWritesKeepForm }
{}

/// What memory gives at an address of an operand is a value that the operand has in the abstract state.
pub fn memory_operands_are_members()
    ensures { MemoryOperandsAreMembers }
{}
