//! The rule of the table of words, and what each step on it tells.

use crate::numbered::Numbered;
use crate::view::{Key, Known};
use atomic_table::{Join, Play, Split, Table, TableRule};
use std::alloc::Global;
use std::marker::PhantomData;

/// The rule of the words and the views.
pub struct Rounds<T> {
    values: PhantomData<T>,
}

impl<T: Numbered> TableRule<(), Option<Known<T::Tag>>, Key<T::Tag>> for Rounds<T> {
    ghost use Rattle.round_slots.specs.Rule.{Keeps};
    ghost use Rattle.round_slots.specs.View.{first_view};

    ghost holds = { λ key. Keeps key T.possible };

    ghost first = { first_view };
}

/// The table of the lanes' words.
pub type Words<T: Numbered> = Table<(), Option<Known<T::Tag>>, Key<T::Tag>, Rounds<T>, Global>;

/// A load.
pub struct Look<T> {
    values: PhantomData<T>,
}

impl<T: Numbered> Play<(), Option<Known<T::Tag>>> for Look<T> {
    ghost use Rattle.round_slots.specs.Plays.{looked};

    ghost then = { looked T.possible };
}

/// The exchange that sets the mark.
pub struct Mark<T> {
    values: PhantomData<T>,
}

impl<T: Numbered> Play<(), Option<Known<T::Tag>>> for Mark<T> {
    ghost use Rattle.round_slots.specs.Plays.{exchanged};
    ghost use Rattle.round_slots.specs.View.{claimed};

    ghost then = { exchanged T.possible claimed };
}

/// The exchange that takes the mark away.
pub struct Unmark<T> {
    values: PhantomData<T>,
}

impl<T: Numbered> Play<(), Option<Known<T::Tag>>> for Unmark<T> {
    ghost use Rattle.round_slots.specs.Plays.{exchanged};
    ghost use Rattle.round_slots.specs.View.{gave_up};

    ghost then = { exchanged T.possible gave_up };
}

/// The exchange that has the word name the next round.
pub struct Advance<T> {
    values: PhantomData<T>,
}

impl<T: Numbered> Play<(), Option<Known<T::Tag>>> for Advance<T> {
    ghost use Rattle.round_slots.specs.Plays.{exchanged};
    ghost use Rattle.round_slots.specs.View.{published};

    ghost then = { exchanged T.possible published };
}

/// Two seats become one.
pub struct Merge;

impl<G> Join<Option<Known<G>>> for Merge {
    ghost use Rattle.round_slots.specs.Joins.{joined};
    ghost use Rattle.std.specs.Prelude.{None};

    ghost both = { joined };

    ghost spent = { None };
}

/// All seats become one, which has seen all that they saw.
pub struct Gather;

impl<G> Join<Option<Known<G>>> for Gather {
    ghost use Rattle.round_slots.specs.Joins.{gathered};
    ghost use Rattle.std.specs.Prelude.{None};

    ghost both = { gathered };

    ghost spent = { None };
}

/// A new seat beside one.
pub struct Add;

impl<G> Split<Option<Known<G>>> for Add {
    ghost use Rattle.round_slots.specs.Joins.{fresh};

    ghost left = { λ v. v };

    ghost right = { fresh };
}
