//! The dynamic slice of a step.
ghost use Rattle.std.specs.Prelude.{◌≡◌, ◌↔◌, ◌++◌, ◌∷◌, [], ℕ, ◌<◌, ◌^◌, length, slice_get, Some, Contains, IfOk, OnOk, MatchOption, if◌then◌else◌};
ghost use Rattle.flow_graph.specs.Walks.{IsOn};
ghost use Rattle.dynamic_slices.specs.Slices.{places_told, IsToldToDepend, DependOnEarlier, IsNeverAt, IsLastAt, IsInSlice, IsDynamicSlice};

use crate::marks::mark_slice;
use flow_graph::is_on;
use ia32_run::{Occurrence, listed};
use std::alloc::{AllocError, Global};

/// The last step of a run that stands at an address.
pub fn last_at(steps: &[Occurrence], at: u32) -> Option<u32>
    requires { length steps.now < 2 ^ 32 }
    ensures { MatchOption result (IsNeverAt (places_told steps.now) at) (λ last. IsLastAt (places_told steps.now) at last) }
{
    let mut left = steps.len();
    'steps_left: while left > 0 {
        left -= 1;
        if steps[left].at == at {
            return Some(left as u32);
        }
    }
    None
}

/// Puts a number at the end, if it is wanted.
fn push_if(numbers: &mut Vec<u32>, number: u32, wanted: bool) -> Result<(), AllocError>
    ensures { OnOk result (numbers.new.items ≡ numbers.old.items ++ (if wanted then number ∷ [] else [])) }
{
    if wanted {
        numbers.push(number)?;
    }
    Ok(())
}

/// The addresses of the marked steps.
fn marked_places(
    alloc: Global,
    steps: &[Occurrence],
    marks: &[bool],
) -> Result<Vec<u32>, AllocError>
    ensures { IfOk result (λ found. (a : ℕ) → Contains found.items a ↔ ((i : ℕ) × (slice_get (places_told steps.now) i ≡ Some a) × IsOn marks.now i)) }
{
    let mut found = Vec::new(alloc);
    for n in 0..steps.len() {
        push_if(&mut found, steps[n].at, is_on(marks, n))?;
    }
    Ok(found)
}

/// Marks of a step and of those on which it depends, directly or through others.
fn marks_of(
    alloc: Global,
    steps: &[Occurrence],
    last: u32,
    skip_sp: bool,
) -> Result<Vec<bool>, AllocError>
    requires last { last < length steps.now }
    requires earlier { DependOnEarlier skip_sp steps.now }
    ensures { IfOk result (λ marks. (n : ℕ) → IsOn marks.items n ↔ IsInSlice (IsToldToDepend skip_sp steps.now) last n) }
{
    let mut marks = vec![in alloc; false; steps.len()]?;
    mark_slice(steps, last, skip_sp, &mut marks);
    Ok(marks)
}

/// The addresses of a step and of those on which it depends by last writes, directly or through others: rising, each once.
/// Dependences by ESP may be left out.
pub fn dynamic_slice(
    alloc: Global,
    steps: &[Occurrence],
    last: u32,
    skip_sp: bool,
) -> Result<Vec<u32>, AllocError>
    requires last { last < length steps.now }
    requires earlier { DependOnEarlier skip_sp steps.now }
    ensures { IfOk result (λ addresses. IsDynamicSlice (IsToldToDepend skip_sp steps.now) (places_told steps.now) last addresses.items) }
{
    let marks = marks_of(alloc, steps, last, skip_sp)?;
    let found = marked_places(alloc, steps, &marks)?;
    Ok(listed(found))
}
