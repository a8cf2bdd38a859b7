//! Shrinking sweeps: each works out every place anew.
ghost use Rattle.std.specs.Prelude.{◌≡◌, true, map, length, replicate, IfOk, OnOk};
ghost use Rattle.sweeps.specs.declared.kept.Slot.TheVariants.{Due};
ghost use Rattle.sweeps.specs.Sweeps.{AreRising, shrunk};
ghost use Rattle.sweeps.specs.Kept.{place_in, made_stale, all_arrivals, AreAimed, rows_of, shrink_slots};

use crate::domain::Domain;
use crate::growing::{add, aim, gather, renew, settle};
use crate::kept::{Arrival, Kept, Slot, number};
use std::alloc::{AllocError, Global};

// All rows' successors are to be made anew.
fn make_stale<P, S>(kept: &mut Vec<Kept<P, S>>)
    ensures { kept.new.items ≡ map made_stale kept.old.items }
{
    for at in 0..kept.len() {
        kept[at].stale = true;
    }
}

fn due_slots<S: Drop>(alloc: Global, count: usize) -> Result<Vec<Slot<S>>, AllocError>
    ensures { IfOk result (λ v. v.items ≡ replicate count Due) }
{
    let mut slots = Vec::new(alloc);
    for at in 0..count {
        slots.push(Slot::Due)?;
    }
    Ok(slots)
}

// All arrivals come to the slots of their places, and the initial state last to the entry's.
fn gather_all<D: Domain>(
    domain: &D,
    entry: &D::Place,
    initial: &D::State,
    kept: &[Kept<D::Place, D::State>],
    slots: &mut [Slot<D::State>],
) -> Result<(), AllocError>
    requires rising { AreRising (D.meaning domain.now) (map place_in kept.now) }
    requires slots { length slots.old ≡ length kept.now }
    requires aimed { AreAimed (D.meaning domain.now) (map place_in kept.now) (all_arrivals kept.now) }
    ensures { OnOk result (slots.new ≡ shrink_slots (D.meaning domain.now) entry.now initial.now kept.now slots.old) }
{
    gather(domain, false, kept, slots)?;
    let start = Arrival {
        place: domain.copy_place(entry)?,
        state: domain.copy_state(initial)?,
        target: number(domain, kept, entry),
    };
    add(domain, false, kept, slots, &start)?;
    Ok(())
}

/// A shrinking sweep.
pub(crate) fn shrink<D: Domain>(
    alloc: Global,
    domain: &D,
    entry: &D::Place,
    initial: &D::State,
    kept: &mut Vec<Kept<D::Place, D::State>>,
) -> Result<(), AllocError>
    requires { AreRising (D.meaning domain.now) (map place_in kept.old.items) }
    ensures rows { OnOk result (rows_of kept.new.items ≡ shrunk (D.meaning domain.now) entry.now initial.now (rows_of kept.old.items)) }
    ensures rising { OnOk result (AreRising (D.meaning domain.now) (map place_in kept.new.items)) }
{
    make_stale(kept);
    renew(alloc, domain, kept)?;
    aim(alloc, domain, kept);
    let mut slots = due_slots(alloc, kept.len())?;
    gather_all(
        domain,
        entry,
        initial,
        kept.as_slice(),
        slots.as_mut_slice(),
    )?;
    settle(domain, false, kept, slots.as_mut_slice())?;
    Ok(())
}
