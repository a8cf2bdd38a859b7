//! Two seats by turns in one thread.
ghost use Rattle.std.specs.Prelude.{◌≡◌, ◌<◌, ◌≤◌, false, IfOk, IfSome};
ghost use Rattle.std.specs.List.{All};
ghost use Rattle.round_slots.specs.Seats.{Sits, HasNoTurn};
ghost use Rattle.round_slots.specs.View.{first_view};

use super::*;
use std::alloc::{AllocError, Global};
use std::sync::Wait;
use std::test::Fail;

/// A value that tells its round twice.
#[derive(Drop)]
struct Twice(u32, u32);

impl Numbered for Twice {
    type Tag = ();

    ghost belongs = { λ _ _ x. x.0 ≡ x.1 };

    ghost possible = { λ _ _ _. Unit {0} };

    ghost number = { λ x. x.0 };

    fn round(&self) -> u32 {
        self.0
    }

    ghost belongs_to_possible = { λ _ _ _ _. tt };
}

/// A store of one lane, and its seats.
fn one_lane(alloc: Global, seats: u32) -> Result<(Store<Twice>, Vec<Seat<Twice>>), AllocError>
    requires some_seat { 1 ≤ seats }
    requires few_seats { seats ≤ 12 }
    ensures lanes { IfOk result (λ made. made.0.words.shared.key.lanes ≡ 1) }
    ensures ready { IfOk result (λ made. All (λ seat. Sits ⟦<Twice as Numbered>⟧.possible made.0.words.shared.table_id made.0.words.shared.key seat.place
        × (seat.place.me.0 ≡ first_view made.0.words.shared.key) × HasNoTurn made.0.words.shared.key seat.place × (seat.pinned ≡ false)) made.1.items) }
{
    let mut first = Vec::new(alloc);
    first.push(Twice(0, 0))?;
    Store::make(alloc, first, seats, &())
}

/// The last of the seats.
fn last_seat(store: &Store<Twice>, seats: &mut Vec<Seat<Twice>>) -> Option<Seat<Twice>>
    requires { All (λ seat. Sits ⟦<Twice as Numbered>⟧.possible store.now.words.shared.table_id store.now.words.shared.key seat.place
        × (seat.place.me.0 ≡ first_view store.now.words.shared.key) × HasNoTurn store.now.words.shared.key seat.place × (seat.pinned ≡ false)) seats.old.items }
    ensures rest { All (λ seat. Sits ⟦<Twice as Numbered>⟧.possible store.now.words.shared.table_id store.now.words.shared.key seat.place
        × (seat.place.me.0 ≡ first_view store.now.words.shared.key) × HasNoTurn store.now.words.shared.key seat.place × (seat.pinned ≡ false)) seats.new.items }
    ensures seat { IfSome result (λ seat. Sits ⟦<Twice as Numbered>⟧.possible store.now.words.shared.table_id store.now.words.shared.key seat.place
        × (seat.place.me.0 ≡ first_view store.now.words.shared.key) × HasNoTurn store.now.words.shared.key seat.place × (seat.pinned ≡ false)) }
{
    seats.pop()
}

/// Publishes the lane's next round, unless another seat has claimed it.
fn advance<R: Wait>(rt: &R, store: &Store<Twice>, seat: &mut Seat<Twice>, lane: u32) -> bool
    requires sits { Sits ⟦<Twice as Numbered>⟧.possible store.now.words.shared.table_id store.now.words.shared.key seat.old.place }
    requires lane { lane < store.now.words.shared.key.lanes }
    requires no_turn { HasNoTurn store.now.words.shared.key seat.old.place }
    ensures sits { Sits ⟦<Twice as Numbered>⟧.possible store.now.words.shared.table_id store.now.words.shared.key seat.new.place }
    ensures no_turn { HasNoTurn store.now.words.shared.key seat.new.place }
    ensures pinned { seat.new.pinned ≡ seat.old.pinned }
{
    let Front { round, .. } = store.load(seat, lane);
    if round == u32::MAX {
        return false;
    }
    match store.claim(seat, lane, round) {
        Ok(turn) => {
            let next = turn.round() + 1;
            store.publish(rt, seat, turn, Twice(next, next));
            true
        }
        Err(_) => false,
    }
}

/// Why the claim of the round after this one is refused. A claim that is won is given up.
fn refused(
    store: &Store<Twice>,
    seat: &mut Seat<Twice>,
    lane: u32,
    round: u32,
) -> Option<ClaimRefused>
    requires sits { Sits ⟦<Twice as Numbered>⟧.possible store.now.words.shared.table_id store.now.words.shared.key seat.old.place }
    requires lane { lane < store.now.words.shared.key.lanes }
    requires round { round < 4294967295 }
    requires no_turn { HasNoTurn store.now.words.shared.key seat.old.place }
    ensures sits { Sits ⟦<Twice as Numbered>⟧.possible store.now.words.shared.table_id store.now.words.shared.key seat.new.place }
    ensures no_turn { HasNoTurn store.now.words.shared.key seat.new.place }
    ensures pinned { seat.new.pinned ≡ seat.old.pinned }
{
    match store.claim(seat, lane, round) {
        Ok(turn) => {
            store.give_up(seat, turn);
            None
        }
        Err(cause) => Some(cause),
    }
}

/// How the other seat is refused while this one has the turn, and after it has published.
fn refusals<R: Wait>(
    rt: &R,
    store: &Store<Twice>,
    seat: &mut Seat<Twice>,
    other: &mut Seat<Twice>,
) -> (Option<ClaimRefused>, Option<ClaimRefused>)
    requires sits { Sits ⟦<Twice as Numbered>⟧.possible store.now.words.shared.table_id store.now.words.shared.key seat.old.place }
    requires other_sits { Sits ⟦<Twice as Numbered>⟧.possible store.now.words.shared.table_id store.now.words.shared.key other.old.place }
    requires lanes { store.now.words.shared.key.lanes ≡ 1 }
    requires no_turn { HasNoTurn store.now.words.shared.key seat.old.place }
    requires other_no_turn { HasNoTurn store.now.words.shared.key other.old.place }
{
    let turn = match store.claim(seat, 0, 0) {
        Ok(turn) => turn,
        Err(cause) => return (Some(cause), None),
    };
    let busy = refused(store, other, 0, 0);
    let next = turn.round() + 1;
    store.publish(rt, seat, turn, Twice(next, next));
    (busy, refused(store, other, 0, 0))
}

/// The round that a reader pins, the one that it still holds when two more are published, and the one that it pins then.
fn held_rounds<R: Wait>(
    rt: &R,
    store: &Store<Twice>,
    reader: &mut Seat<Twice>,
    writer: &mut Seat<Twice>,
) -> [u32; 3]
    requires sits { Sits ⟦<Twice as Numbered>⟧.possible store.now.words.shared.table_id store.now.words.shared.key reader.old.place }
    requires writer_sits { Sits ⟦<Twice as Numbered>⟧.possible store.now.words.shared.table_id store.now.words.shared.key writer.old.place }
    requires lanes { store.now.words.shared.key.lanes ≡ 1 }
    requires unpinned { reader.old.pinned ≡ false }
    requires no_turn { HasNoTurn store.now.words.shared.key writer.old.place }
    ensures writer_sits { Sits ⟦<Twice as Numbered>⟧.possible store.now.words.shared.table_id store.now.words.shared.key writer.new.place }
{
    let pin = store.pin(rt, reader, 0);
    let first = pin.round();
    advance(rt, store, writer, 0);
    advance(rt, store, writer, 0);
    let still = pin.value().1;
    pin.leave(reader);
    let pin = store.pin(rt, reader, 0);
    let last = pin.round();
    pin.leave(reader);
    [first, still, last]
}

/// What the lane shows to a seat that took another in, when both have published.
fn front_after_join<R: Wait>(
    rt: &R,
    store: &Store<Twice>,
    seat: &mut Seat<Twice>,
    other: Seat<Twice>,
) -> Front
    requires sits { Sits ⟦<Twice as Numbered>⟧.possible store.now.words.shared.table_id store.now.words.shared.key seat.old.place }
    requires other_sits { Sits ⟦<Twice as Numbered>⟧.possible store.now.words.shared.table_id store.now.words.shared.key other.place }
    requires lanes { store.now.words.shared.key.lanes ≡ 1 }
    requires other_unpinned { other.pinned ≡ false }
    requires no_turn { HasNoTurn store.now.words.shared.key seat.old.place }
    requires other_no_turn { HasNoTurn store.now.words.shared.key other.place }
    ensures sits { Sits ⟦<Twice as Numbered>⟧.possible store.now.words.shared.table_id store.now.words.shared.key seat.new.place }
{
    let mut other = other;
    advance(rt, store, seat, 0);
    advance(rt, store, &mut other, 0);
    store.join(seat, other);
    store.load(seat, 0)
}

/// What the lane shows last, when the store is closed with this seat.
fn last_front(
    alloc: Global,
    store: Store<Twice>,
    seat: Seat<Twice>,
) -> Result<Option<Front>, AllocError>
    requires { Sits ⟦<Twice as Numbered>⟧.possible store.words.shared.table_id store.words.shared.key seat.place }
{
    let mut seats = Vec::new(alloc);
    seats.push(seat)?;
    let fronts = store.close(seats);
    Ok(fronts[0])
}

#[test]
fn two_seats_by_turns(rt: HostRuntime) -> Result<(), Fail> {
    let (store, mut seats) = one_lane(rt.alloc(), 2)?;
    let mut seat = last_seat(&store, &mut seats).ok_or("no seat")?;
    let mut other = last_seat(&store, &mut seats).ok_or("no seat")?;
    let causes = refusals(&rt, &store, &mut seat, &mut other);
    assert!(rt; causes == (Some(ClaimRefused::Busy(0)), Some(ClaimRefused::Moved(1))));
    Ok(())
}

#[test]
fn one_reads_while_one_publishes(rt: HostRuntime) -> Result<(), Fail> {
    let (store, mut seats) = one_lane(rt.alloc(), 2)?;
    let mut reader = last_seat(&store, &mut seats).ok_or("no seat")?;
    let mut writer = last_seat(&store, &mut seats).ok_or("no seat")?;
    assert_eq!(rt;
        held_rounds(&rt, &store, &mut reader, &mut writer),
        [0, 0, 2]
    );
    let last = Front {
        round: 2,
        claimed: false,
    };
    assert!(rt; last_front(rt.alloc(), store, writer)? == Some(last));
    Ok(())
}

#[test]
fn two_seats_become_one(rt: HostRuntime) -> Result<(), Fail> {
    let (store, mut seats) = one_lane(rt.alloc(), 2)?;
    let mut seat = last_seat(&store, &mut seats).ok_or("no seat")?;
    let other = last_seat(&store, &mut seats).ok_or("no seat")?;
    let front = front_after_join(&rt, &store, &mut seat, other);
    let second = Front {
        round: 2,
        claimed: false,
    };
    assert!(rt; front == second);
    assert!(rt; last_front(rt.alloc(), store, seat)? == Some(second));
    Ok(())
}
