//! Steps on a lane's word: loading it, claiming the next round, and giving the claim up.

ghost use Rattle.std.specs.Prelude.{◌≡◌, ◌≢◌, ◌<◌, false, IfOk, IfErr, None, Some};
ghost use Rattle.round_core.specs.declared.word.Word.{Word};
ghost use Rattle.round_slots.specs.Rule.{AgreesWith};
ghost use Rattle.round_slots.specs.Seats.{Sits, Loads, Becomes, view_in};
ghost use Rattle.round_slots.specs.View.{marked, unmarked, claimed, gave_up};
ghost use Rattle.round_slots.specs.Claims.{front_of, refusal as refusal_spec, Claims, Refuses};

use crate::numbered::Numbered;
use crate::rule::{Look, Mark, Unmark};
use crate::store::{ClaimRefused, Front, Seat, Store, Turn};
use round_core::Word;

/// Why a claim of the round after this one is refused where the word is so.
fn refusal(word: Word, round: u32) -> Option<ClaimRefused>
    ensures { result ≡ refusal_spec round word }
{
    if word.round != round {
        return Some(ClaimRefused::Moved(word.round));
    }
    if word.claimed {
        return Some(ClaimRefused::Busy(round));
    }
    None
}

impl<T: Numbered + Drop> Store<T> {
    /// The lane's word.
    pub(crate) fn look(&self, seat: &mut Seat<T>, lane: u32) -> Word
        requires sits { Sits T.possible self.now.words.shared.table_id self.now.words.shared.key seat.old.place }
        requires lane { lane < self.now.words.shared.key.lanes }
        ensures sits { Sits T.possible self.now.words.shared.table_id self.now.words.shared.key seat.new.place }
        ensures loads { Loads self.now.words.shared.key seat.old.place seat.new.place lane result }
        ensures pinned { seat.new.pinned ≡ seat.old.pinned }
        ensures slot { result.slot < 2147483648 }
    {
        Word::unpack(
            self.words
                .shared
                .load::<Look<T>>(&mut seat.place, lane as usize),
        )
    }

    /// Loads the lane's word. No older word is shown: its round is at least each that the seat has seen or published.
    pub fn load(&self, seat: &mut Seat<T>, lane: u32) -> Front
        requires sits { Sits T.possible self.now.words.shared.table_id self.now.words.shared.key seat.old.place }
        requires lane { lane < self.now.words.shared.key.lanes }
        ensures sits { Sits T.possible self.now.words.shared.table_id self.now.words.shared.key seat.new.place }
        ensures loads { (w : Word) × Loads self.now.words.shared.key seat.old.place seat.new.place lane w × (result ≡ front_of w) }
        ensures pinned { seat.new.pinned ≡ seat.old.pinned }
    {
        let Word { round, claimed, .. } = self.look(seat, lane);
        Front { round, claimed }
    }

    /// Sets the mark if the word is still this one. Otherwise the word that was found comes back.
    fn mark(&self, seat: &mut Seat<T>, lane: u32, word: Word) -> Result<(), Word>
        requires sits { Sits T.possible self.now.words.shared.table_id self.now.words.shared.key seat.old.place }
        requires lane { lane < self.now.words.shared.key.lanes }
        requires free { word.claimed ≡ false }
        requires slot { word.slot < 2147483648 }
        ensures sits { Sits T.possible self.now.words.shared.table_id self.now.words.shared.key seat.new.place }
        ensures won { IfOk result (λ _. AgreesWith self.now.words.shared.key.seats word (view_in seat.old.place lane)
            × Becomes seat.old.place seat.new.place lane (claimed (view_in seat.old.place lane) word (marked word))) }
        ensures lost { IfErr result (λ found. (found ≢ word) × Loads self.now.words.shared.key seat.old.place seat.new.place lane found) }
        ensures pinned { seat.new.pinned ≡ seat.old.pinned }
    {
        let Word { round, slot, .. } = word;
        let claimed = Word {
            round,
            claimed: true,
            slot,
        };
        let expected = word.pack();
        let found = self
            .words
            .shared
            .compare_exchange::<Mark<T>>(&mut seat.place, lane as usize, expected, claimed.pack());
        if found == expected {
            Ok(())
        } else {
            Err(Word::unpack(found))
        }
    }

    /// Claims the round after this one, by one load and at most one exchange.
    ///
    /// # Errors
    /// `Moved` where a word that this call read is of another round, and `Busy` where it is of this round and another
    /// seat has claimed the next.
    pub fn claim(&self, seat: &mut Seat<T>, lane: u32, round: u32) -> Result<Turn, ClaimRefused>
        requires sits { Sits T.possible self.now.words.shared.table_id self.now.words.shared.key seat.old.place }
        requires lane { lane < self.now.words.shared.key.lanes }
        requires round { round < 4294967295 }
        requires no_turn { (view_in seat.old.place lane).turn ≡ None }
        ensures sits { Sits T.possible self.now.words.shared.table_id self.now.words.shared.key seat.new.place }
        ensures claims { IfOk result (λ turn. (turn.lane ≡ lane) × Claims self.now.words.shared.key seat.old.place seat.new.place lane round turn.word) }
        ensures turn { IfOk result (λ turn. (view_in seat.new.place lane).turn ≡ Some turn.word) }
        ensures refuses { IfErr result (λ cause. Refuses self.now.words.shared.key seat.old.place seat.new.place lane round cause) }
        ensures still_none { IfErr result (λ _. (view_in seat.new.place lane).turn ≡ None) }
        ensures pinned { seat.new.pinned ≡ seat.old.pinned }
    {
        let word = self.look(seat, lane);
        if let Some(refused) = refusal(word, round) {
            return Err(refused);
        }
        match self.mark(seat, lane, word) {
            Ok(()) => {
                let word = Word {
                    round,
                    claimed: true,
                    slot: word.slot,
                };
                Ok(Turn { lane, word })
            }
            // A word of this round without the mark would have been the expected one.
            Err(found) => Err(refusal(found, round).unwrap_or(ClaimRefused::Busy(round))),
        }
    }

    /// Takes the claim back.
    pub fn give_up(&self, seat: &mut Seat<T>, turn: Turn)
        requires sits { Sits T.possible self.now.words.shared.table_id self.now.words.shared.key seat.old.place }
        requires lane { turn.lane < self.now.words.shared.key.lanes }
        requires turn { (view_in seat.old.place turn.lane).turn ≡ Some turn.word }
        ensures sits { Sits T.possible self.now.words.shared.table_id self.now.words.shared.key seat.new.place }
        ensures gives_up { AgreesWith self.now.words.shared.key.seats turn.word (view_in seat.old.place turn.lane)
            × Becomes seat.old.place seat.new.place turn.lane (gave_up (view_in seat.old.place turn.lane) turn.word (unmarked turn.word)) }
        ensures ends { (view_in seat.new.place turn.lane).turn ≡ None }
        ensures pinned { seat.new.pinned ≡ seat.old.pinned }
    {
        let Turn { lane, word } = turn;
        let Word { round, slot, .. } = word;
        let free = Word {
            round,
            claimed: false,
            slot,
        };
        self.words
            .shared
            .compare_exchange::<Unmark<T>>(
                &mut seat.place,
                lane as usize,
                word.pack(),
                free.pack(),
            );
    }
}
