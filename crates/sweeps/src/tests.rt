// Sweeps over a small domain, with what an independent count of them gave.
ghost use Rattle.std.specs.Prelude.{◌≡◌, ℕ, map, IfOk};
ghost use Rattle.sweeps.specs.Toy.{toy, toy_lawful, toy_next, up_to_hundred, after_call};

use super::{Domain, Row, is_closed, sweep_all};
use crate::whole::sweep_within;
use std::alloc::{AllocError, Global};
use std::test::Fail;

#[derive(Drop)]
struct Toy {
    alloc: Global,
}

fn up(state: u32) -> u32
    ensures { result ≡ up_to_hundred state }
{
    if state < 100 { state + 1 } else { 100 }
}

fn after(place: u32) -> u32
    ensures { result ≡ after_call place }
{
    if place == 1 { 2 } else { 4 }
}

fn returned<'a>(alloc: Global, others: &[(&'a u32, &'a u32)]) -> Result<Vec<(u32, u32)>, AllocError>
    ensures { IfOk result (λ v. v.items ≡ toy_next 10 0 (map {B = ℕ × ℕ} (λ o. (o.0.now, o.1.now)) others.now)) }
{
    let mut next = Vec::new(alloc);
    for other in others {
        next.push((after(*other.0), *other.1))?;
    }
    Ok(next)
}

impl Domain for Toy {
    type Place = u32;

    type State = u32;

    ghost meaning = { λ t. toy };

    fn is_before(&self, place: &u32, other: &u32) -> bool {
        *place < *other
    }

    fn address(&self, place: &u32) -> u32 {
        *place
    }

    fn copy_place(&self, place: &u32) -> Result<u32, AllocError> {
        Ok(*place)
    }

    fn copy_state(&self, state: &u32) -> Result<u32, AllocError> {
        Ok(*state)
    }

    fn looks_at_others(&self, place: &u32) -> bool {
        *place == 10
    }

    fn concerns(&self, place: &u32, other: &u32) -> bool {
        *place == 10 && (*other == 1 || *other == 3)
    }

    fn successors<'a>(
        &self,
        place: &u32,
        state: &u32,
        others: &[(&'a u32, &'a u32)],
    ) -> Result<Vec<(u32, u32)>, AllocError> {
        if *place == 10 {
            return returned(self.alloc, others);
        }
        if *place == 5 {
            return Ok(vec![in self.alloc; (5, up(*state)), (6, *state)]?);
        }
        if *place == 1 {
            return Ok(vec![in self.alloc; (10, *state)]?);
        }
        if *place == 3 {
            return Ok(vec![in self.alloc; (10, up(*state))]?);
        }
        if *place == 2 {
            return Ok(vec![in self.alloc; (3, *state)]?);
        }
        if *place == 4 {
            return Ok(vec![in self.alloc; (5, *state)]?);
        }
        if *place == 0 {
            return Ok(vec![in self.alloc; (1, *state), (20, *state)]?);
        }
        if 20 <= *place && *place < 80 {
            return Ok(vec![in self.alloc; (*place + 1, up(*state)), (99, *state)]?);
        }
        Ok(Vec::new(self.alloc))
    }

    fn join(&self, state: &u32, other: &u32) -> Result<u32, AllocError> {
        Ok((*state).max(*other))
    }

    fn widen(&self, old: &u32, new: &u32) -> Result<u32, AllocError> {
        Ok(if *old < *new { 1000 } else { *new })
    }

    fn top_differences(&self, old: &u32, new: &u32) -> Result<u32, AllocError> {
        Ok(if *old == *new { *new } else { 2000 })
    }

    fn is_below(&self, state: &u32, other: &u32) -> bool {
        *state <= *other
    }

    fn is_same(&self, state: &u32, other: &u32) -> bool {
        *state == *other
    }

    ghost lawful = { λ t. toy_lawful };
}

fn row_of(rows: &[Row<u32, u32>], place: u32) -> Option<(u32, u32)> {
    for row in rows {
        if row.place == place {
            return Some((row.state, row.changes));
        }
    }
    None
}

#[test]
fn sweeps(rt: HostRuntime) -> Result<(), Fail> {
    let toy = Toy { alloc: rt.alloc() };
    let swept = sweep_all(rt.alloc(), &toy, &0, &5)?;
    let rows = swept.rows.as_slice();
    assert!(rt; !swept.full);
    assert_eq!(rt; row_of(rows, 10), Some((6, 2)));
    assert_eq!(rt; row_of(rows, 2), Some((5, 1)));
    assert_eq!(rt; row_of(rows, 4), Some((5, 1)));
    assert_eq!(rt; row_of(rows, 5), Some((100, 4)));
    assert_eq!(rt; row_of(rows, 6), Some((100, 4)));
    assert_eq!(rt; row_of(rows, 80), Some((65, 1)));
    assert_eq!(rt; row_of(rows, 99), Some((64, 48)));
    Ok(())
}

#[test]
fn fills(rt: HostRuntime) -> Result<(), Fail> {
    let toy = Toy { alloc: rt.alloc() };
    let swept = sweep_within(rt.alloc(), &toy, 3, &0, &5)?;
    let rows = swept.rows.as_slice();
    assert!(rt; swept.full);
    assert_eq!(rt; rows.len(), 3);
    assert_eq!(rt; row_of(rows, 20), Some((5, 1)));
    assert_eq!(rt; row_of(rows, 10), None);
    Ok(())
}

#[test]
fn closes(rt: HostRuntime) -> Result<(), Fail> {
    let toy = Toy { alloc: rt.alloc() };
    assert!(rt;
        is_closed(
            rt.alloc(),
            &toy,
            &4,
            &5,
            &[(&4, &5), (&5, &100), (&6, &100)]
        )?
    );
    assert!(rt; !is_closed(rt.alloc(), &toy, &4, &5, &[(&4, &5), (&5, &100), (&6, &99)])?);
    assert!(rt; !is_closed(rt.alloc(), &toy, &4, &5, &[(&5, &100), (&6, &100)])?);
    Ok(())
}
