//! The store and what its callers hold of it.

ghost use Rattle.std.specs.Prelude.{◌≡◌, ◌+◌, ◌<◌, ◌≤◌, length};
ghost use Rattle.std.specs.Coded.{Coded-set};
ghost use Rattle.round_slots.specs.Rows.{AreRows, AreRows-prop};

use crate::numbered::Numbered;
use crate::rule::Words;
use crate::slots::Slot;
use crate::view::Known;
use atomic_table as table;
use round_core::Word;

/// Values of one to four lanes, shared by one to twelve seats.
#[derive(Drop)]
pub struct Store<T: Numbered + Drop> {
    pub words: Words<T>,
    pub(crate) rows: Vec<Vec<Slot<T>>>,
    ghost sized: { (words.shared.table_id.words ≡ words.shared.key.lanes) × (words.shared.table_id.slots ≡ 0) × (length rows.items ≡ words.shared.key.lanes) × (words.shared.key.seats ≤ 12) × (1 ≤ words.shared.key.lanes) × (words.shared.key.lanes ≤ 4) },
    ghost tagged: { AreRows words.shared.key 0 rows.items } by { AreRows-prop (Coded-set T.Tag.code) words.shared.key 0 rows.items },
}

/// A thread's right to step on a store. It may be dropped, and what it published stays.
#[derive(Drop)]
pub struct Seat<T: Numbered> {
    pub place: table::Seat<(), Option<Known<T::Tag>>>,
    /// The seat holds a pin.
    pub pinned: bool,
}

/// The claim to make a lane's next round. It can't be dropped: end it by `give_up` or `publish`.
pub struct Turn {
    pub(crate) lane: u32,
    /// The lane's word, as the claim left it.
    pub(crate) word: Word,
    ghost fits: { (word.slot < 2147483648) × (word.round < 4294967295) },
}

/// A lane's word as a load shows it.
#[derive(Clone, Copy, Debug, PartialEq, Eq)]
pub struct Front {
    /// The number of the lane's round.
    pub round: u32,
    /// Some seat has claimed the next round.
    pub claimed: bool,
}

/// Why a lane's next round wasn't claimed.
#[derive(Clone, Copy, Debug, PartialEq, Eq)]
pub enum ClaimRefused {
    /// The lane's round is this, as was asked, and a seat has claimed the next one.
    Busy(u32),
    /// The lane's round is this, and another was asked.
    Moved(u32),
}

impl Turn {
    /// The lane.
    pub fn lane(&self) -> u32
        ensures { result ≡ self.now.lane }
    {
        self.lane
    }

    /// The lane's round, after which the next comes.
    pub fn round(&self) -> u32
        ensures { result ≡ self.now.word.round }
    {
        self.word.round
    }
}
