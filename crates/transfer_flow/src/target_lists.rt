//! Where a jump or a call may go.

ghost use Rattle.std.specs.Prelude.{◌≡◌, ◌≤◌, ◌∷◌, [], ◌++◌, ◌<◌, get_or, map, length, filter, nat_lt, not, if◌then◌else◌, Some, IfOk, OnOk, IfSome};
ghost use Rattle.strided.specs.Operations.{count};
ghost use Rattle.strided.specs.Interval.{member_after};
ghost use Rattle.si_bits.specs.Concrete.{word};
ghost use Rattle.vset.specs.Values.{Values, Top};
ghost use Rattle.abs_semantics.specs.Joins.{with_number, numbers_of};
ghost use Rattle.abs_semantics.specs.States.{value_at};
ghost use Rattle.abs_semantics.specs.Accesses.{cells_read};
ghost use Rattle.abs_steps.specs.Places.{target_values as target_values_spec, values_of as values_of_spec, all_numbers as all_numbers_spec, words_in as words_in_spec, if_few as if_few_spec, few_words as few_words_spec, is_indirect as is_indirect_spec, known_targets as known_targets_spec, targets as targets_spec, followed as followed_spec, is_place as is_place_spec};
ghost use Rattle.abs_state.specs.Views.{seen};
ghost use Rattle.abs_state.specs.Reads.{items_of};
ghost use Rattle.transfer.specs.Views.{view_by};

use crate::contents::is_place;
use abs_state::{AbsState, put_number};
use ia32_types::{Operand, Width};
use image_map::{Cell, Image};
use std::alloc::{AllocError, Global};
use strided::Si;
use transfer::View;
use vset::ValueSet;

/// At most so many targets are followed.
const MOST_TARGETS: u64 = 1024;

fn only(alloc: Global, value: ValueSet) -> Result<Vec<ValueSet>, AllocError>
    ensures { IfOk result (λ v. v.items ≡ value ∷ []) }
{
    let mut out = Vec::new(alloc);
    out.push(value)?;
    Ok(out)
}

/// A number by its place.
pub(crate) fn number_at(numbers: &[u32], place: usize) -> u32
    requires { place < length numbers.now }
    ensures { result ≡ get_or numbers.now place result }
{
    numbers[place]
}

fn cell_at(cells: &[Cell], place: usize) -> Cell
    requires { place < length cells.now }
    ensures { result ≡ get_or cells.now place result }
{
    cells[place]
}

/// The values of some cells.
fn values_at(alloc: Global, a: &AbsState, cells: &[Cell]) -> Result<Vec<ValueSet>, AllocError>
    ensures { IfOk result (λ v. v.items ≡ map (value_at (seen a.now)) cells.now) }
{
    let mut out = Vec::new(alloc);
    for at in 0..cells.len() {
        let cell = cell_at(cells, at);
        let value = a.value_at(&cell)?;
        out.push(value)?;
    }
    Ok(out)
}

/// The values of some cells, or that nothing is known.
fn values_of(
    alloc: Global,
    a: &AbsState,
    cells: Option<Vec<Cell>>,
) -> Result<Vec<ValueSet>, AllocError>
    ensures { IfOk result (λ v. v.items ≡ values_of_spec (seen a.now) (items_of cells)) }
{
    match cells {
        None => only(alloc, ValueSet::top()),
        Some(cells) => values_at(alloc, a, cells.as_slice()),
    }
}

/// The values of a target: those of each cell that it is read from, or the operand's.
#[tactic(auto, unfolding(abs_steps::specs::Places::target_values))]
fn target_values(
    alloc: Global,
    view: &View<'_>,
    operand: &Option<Operand>,
) -> Result<Vec<ValueSet>, AllocError>
    ensures { IfOk result (λ v. v.items ≡ target_values_spec (view_by view.now) operand.now) }
{
    match operand {
        Some(Operand::Mem(m)) => {
            if m.gs {
                return only(alloc, ValueSet::top());
            }
            let at = view.state.address(alloc, m)?;
            let cells = view
                .state
                .cells_read(alloc, view.cells, view.procedure, &at, 4)?;
            values_of(alloc, view.state, cells)
        }
        _ => only(alloc, view.value_of(alloc, Width::D32, operand)?),
    }
}

/// The numbers of some values, where each is of numbers alone.
fn all_numbers(alloc: Global, values: &[ValueSet]) -> Result<Option<Vec<Si>>, AllocError>
    ensures { IfOk result (λ r. items_of r ≡ all_numbers_spec values.now) }
{
    let mut out = Vec::new(alloc);
    for value in values {
        match value.only_number() {
            None => return Ok(None),
            Some(numbers) => out.push(numbers)?,
        }
    }
    Ok(Some(out))
}

/// How many members an interval has.
fn member_count(x: &Si) -> u32
    requires { count x.now ≤ 1024 }
    ensures { result ≡ count x.now }
{
    x.count() as u32
}

/// The member with a number, as a word.
fn member_word(x: &Si, number: u32) -> u32
    requires { number < count x.now }
    ensures { result ≡ word (member_after x.now number) }
{
    x.member(number).cast_unsigned()
}

/// The members of an interval as words, put among others.
fn put_words(words: &mut Vec<u32>, x: &Si) -> Result<(), AllocError>
    requires { count x.now ≤ 1024 }
    ensures { OnOk result (words.new.items ≡ numbers_of (words_in_spec x.now) words.old.items) }
{
    let mut left = member_count(x);
    'members: while left > 0 {
        left -= 1;
        put_number(words, member_word(x, left))?;
    }
    Ok(())
}

fn are_few(x: &Si) -> bool
    ensures { result ≡ not (nat_lt 1024 (count x.now)) }
{
    x.count() <= MOST_TARGETS
}

fn if_few(words: Vec<u32>) -> Option<Vec<u32>>
    ensures { items_of result ≡ if_few_spec words.items }
{
    if words.len() as u64 <= MOST_TARGETS {
        Some(words)
    } else {
        None
    }
}

/// The different words of all intervals, rising, where they are at most 1,024.
fn words_of(alloc: Global, xs: &[Si]) -> Result<Option<Vec<u32>>, AllocError>
    ensures { IfOk result (λ r. items_of r ≡ few_words_spec (Some xs.now)) }
{
    let mut out = Vec::new(alloc);
    let mut rest = xs;
    while let Some((x, before)) = rest.split_last() {
        if !are_few(x) {
            return Ok(None);
        }
        put_words(&mut out, x)?;
        rest = before;
    }
    Ok(if_few(out))
}

/// The different words of all intervals, where they are known and at most 1,024.
fn few_words(alloc: Global, xs: Option<Vec<Si>>) -> Result<Option<Vec<u32>>, AllocError>
    ensures { IfOk result (λ r. items_of r ≡ few_words_spec (items_of xs)) }
{
    match xs {
        None => Ok(None),
        Some(xs) => words_of(alloc, xs.as_slice()),
    }
}

/// Whether a target is no number of the instruction's own.
pub(crate) fn is_indirect(operand: &Option<Operand>) -> bool
    ensures { result ≡ is_indirect_spec operand.now }
{
    !matches!(operand, Some(Operand::Imm(_)))
}

/// The addresses to which a jump or a call may go, rising, or `None` where they aren't known.
#[tactic(auto, unfolding(abs_steps::specs::Places::known_targets))]
pub fn known_targets(
    alloc: Global,
    view: &View<'_>,
    operand: &Option<Operand>,
) -> Result<Option<Vec<u32>>, AllocError>
    ensures { IfOk result (λ r. items_of r ≡ known_targets_spec (view_by view.now) operand.now) }
{
    match operand {
        Some(Operand::Imm(target)) => {
            let mut out = Vec::new(alloc);
            out.push(*target)?;
            Ok(Some(out))
        }
        _ => {
            let values = target_values(alloc, view, operand)?;
            let numbers = all_numbers(alloc, values.as_slice())?;
            few_words(alloc, numbers)
        }
    }
}

/// The addresses to which a jump or a call may go, rising, where they are known.
#[tactic(auto, unfolding(abs_steps::specs::Places::targets))]
pub fn targets(
    alloc: Global,
    view: &View<'_>,
    operand: &Option<Operand>,
) -> Result<Vec<u32>, AllocError>
    ensures { IfOk result (λ v. v.items ≡ targets_spec (view_by view.now) operand.now) }
{
    match known_targets(alloc, view, operand)? {
        None => Ok(Vec::new(alloc)),
        Some(targets) => Ok(targets),
    }
}

/// Puts an address behind others, if control may go on there.
fn put_place(out: &mut Vec<u32>, image: &Image, target: u32) -> Result<(), AllocError>
    ensures { OnOk result (out.new.items ≡ out.old.items ++ (if is_place_spec image.now target then target ∷ [] else [])) }
{
    if is_place(image, target) {
        out.push(target)?;
    }
    Ok(())
}

/// Those of some addresses where control may go on.
fn places(alloc: Global, image: &Image, targets: &[u32]) -> Result<Vec<u32>, AllocError>
    ensures { IfOk result (λ v. v.items ≡ filter (is_place_spec image.now) targets.now) }
{
    let mut out = Vec::new(alloc);
    for at in 0..targets.len() {
        let target = number_at(targets, at);
        put_place(&mut out, image, target)?;
    }
    Ok(out)
}

/// The targets that are followed: where the target is indirect, the places.
#[tactic(auto, unfolding(abs_steps::specs::Places::followed))]
pub fn followed(
    alloc: Global,
    image: &Image,
    view: &View<'_>,
    operand: &Option<Operand>,
) -> Result<Vec<u32>, AllocError>
    ensures { IfOk result (λ v. v.items ≡ followed_spec image.now (view_by view.now) operand.now) }
{
    let targets = targets(alloc, view, operand)?;
    if is_indirect(operand) {
        places(alloc, image, targets.as_slice())
    } else {
        Ok(targets)
    }
}
