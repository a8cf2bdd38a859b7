//! What an analysis can't follow.

/// What can't be followed at a place, or of a whole map.
#[derive(Clone, Copy, Debug, PartialEq, Eq)]
pub enum WarnName {
    /// No extern stands there, and no instruction.
    Undecoded,
    /// Where an indirect jump or call goes isn't known in full, or some place that it may go to is no code.
    UnresolvedJump,
    /// It isn't known where is written.
    UnknownWrite,
    /// A write may leave the activation that its address points into.
    OutOfRegion,
    /// A write may leave its block of the heap.
    HeapOverrun,
    /// A write may meet a return slot.
    ReturnSlot,
    /// The stack pointer isn't where the instruction needs it.
    StackLost,
    /// Nothing is known of the extern.
    UnknownExtern,
    /// The map would have more nodes than it may.
    Full,
    /// The map isn't closed under steps.
    NotClosed,
}
