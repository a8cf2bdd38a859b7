//! What holds over every list of events from the start, allowed or not. Each function is a law and does nothing.

ghost use Rattle.round_core.specs.Laws.{
  ReadSlotKeepsRound,
  NamedSlotIsFilled,
  RoundRisesAtPublish,
  RoundNeverFalls,
  WordFits,
  OneClaimer,
  ClaimerIsMarked,
  ClaimerAloneChangesWord,
  LoadedWordIsNoNewer,
  FreeSlotForClaimer,
  EnteredSlotIsPinned,
  LoadedSlotIsPinned,
};

/// A slot that a seat reads keeps its round until that seat leaves it.
pub fn read_slot_keeps_round()
    ensures keeps_round { ReadSlotKeepsRound }
{}

/// A word's round rises by one where a publishing happens, stays at every other event, and so never falls. The slot that
/// the word names is filled with that round. The word can be packed.
pub fn word_rises_at_publish()
    ensures rises { RoundRisesAtPublish }
    ensures never_falls { RoundNeverFalls }
    ensures filled { NamedSlotIsFilled }
    ensures fits { WordFits }
{}

/// A lane has at most one claimer, and one exactly where its word is marked. Only the claimer changes the word, until it
/// publishes or gives up.
pub fn claimer_alone_changes_word()
    ensures one { OneClaimer }
    ensures marked { ClaimerIsMarked }
    ensures alone { ClaimerAloneChangesWord }
{}

/// The round of a loaded word is at most the lane's word's, and where it is the same, so is the slot.
pub fn loaded_word_is_no_newer()
    ensures no_newer { LoadedWordIsNoNewer }
{}

/// While a claimer has taken no slot, and none holds the next round, it can take one of the `seats + 2` slots.
pub fn free_slot_for_claimer()
    ensures free_slot { FreeSlotForClaimer }
{}

/// A seat that has entered a slot which is filled with the round of its loaded word has pinned that round; and where it
/// enters right after loading, it has pinned the word's.
pub fn reader_after_load_has_pinned()
    ensures entered { EnteredSlotIsPinned }
    ensures loaded { LoadedSlotIsPinned }
{}
