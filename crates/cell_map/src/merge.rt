//! Two rising lists of cells become one, in one pass.

ghost use Rattle.std.specs.Prelude.{◌≡◌, ◌++◌, ◌+ℤ◌, pos, drop, [], ◌∷◌, IfOk, IfSome, OnOk};
ghost use Rattle.std.specs.Ordering.{int_eq};
ghost use Rattle.strided.specs.Interval.{IsCanonical};
ghost use Rattle.vset.specs.Values.{Parts};
ghost use Rattle.vset.specs.Operations.{of_both as of_both_spec};
ghost use Rattle.abs_semantics.specs.Joins.{fits_below, has_length as has_length_spec, may_hold as may_hold_spec, held_by as held_by_spec};
ghost use Rattle.cell_map.specs.Merges.{entry, value_alone, value_by as value_by_spec, value_of_both, alone as alone_spec, merged as merged_spec};

use crate::regions::{Rule, Side, Turn};
use abs_semantics::CellValue;
use image_map::{Cell, RegionId};
use std::alloc::{AllocError, Global};
use strided::Si;
use vset::{Both, Part, ValueSet, is_same_part};

/// Puts a cell's value at the end of a list, unless it is every value.
fn put(out: &mut Vec<CellValue>, cell: &Cell, value: ValueSet) -> Result<(), AllocError>
    ensures { OnOk result (out.new.items ≡ out.old.items ++ entry cell.now value) }
{
    if value.parts().is_some() {
        out.push(CellValue { cell: *cell, value })?;
    }
    Ok(())
}

/// The same with a cell that one list alone has, where it is wanted.
fn put_alone(out: &mut Vec<CellValue>, wanted: bool, e: &CellValue) -> Result<(), AllocError>
    ensures { OnOk result (out.new.items ≡ out.old.items ++ entry e.now.cell (value_alone wanted e.now.value)) }
{
    if wanted {
        put(out, &e.cell, e.value.clone()?)
    } else {
        Ok(())
    }
}

/// The cells of one list whose region is of a side.
fn put_rest(
    out: &mut Vec<CellValue>,
    rule: &Rule<'_>,
    side: Side,
    es: &[CellValue],
) -> Result<(), AllocError>
    ensures { OnOk result (out.new.items ≡ out.old.items ++ alone_spec rule.now.both rule.now.first rule.now.second side es.now) }
{
    let mut turn = Turn {
        region: RegionId::Global,
        side: Side::Together,
    };
    for e in es {
        turn = rule.turned(turn, &e.cell.region);
        put_alone(out, side.is(turn.side), e)?;
    }
    Ok(())
}

/// The entries from one on.
pub(crate) fn rest(es: &[CellValue], from: usize) -> &[CellValue]
    ensures { result.now ≡ drop from es.now }
{
    match es.get(from..) {
        Some(rest) => rest,
        None => &[],
    }
}

fn is_same(a: i64, b: i64) -> bool
    ensures { result ≡ int_eq a b }
{
    a == b
}

fn behind(start: i32, len: u32) -> i64
    ensures { result ≡ start +ℤ pos len }
{
    i64::from(start) + i64::from(len)
}

/// Whether a cell has so many bytes.
pub fn has_length(len: u32, cell: &Cell) -> bool
    ensures { result ≡ has_length_spec len cell.now }
{
    is_same(i64::from(cell.end), behind(cell.start, len))
}

fn is_up_to(numbers: Option<Si>, most: i32) -> bool
    ensures { result ≡ fits_below most (numbers) }
{
    match numbers {
        None => false,
        Some(si) => 0 <= si.lo() && si.hi() <= most,
    }
}

/// Whether a cell may hold a value, by its length and the value alone.
fn may_hold(cell: &Cell, value: &ValueSet) -> bool
    ensures { result ≡ may_hold_spec cell.now value.now }
{
    has_length(4, cell)
        || has_length(1, cell) && is_up_to(value.only_number(), 255)
        || has_length(2, cell) && is_up_to(value.only_number(), 65535)
}

/// A value, or every value where the cell may not hold it.
pub fn held_by(cell: &Cell, value: ValueSet) -> ValueSet
    ensures { result ≡ held_by_spec cell.now value }
{
    if may_hold(cell, &value) {
        value
    } else {
        ValueSet::top()
    }
}

/// The part of a value-set that has one alone.
fn lone_part(v: &ValueSet) -> Option<Part>
    ensures { IfSome result (λ x. (v.now ≡ Parts (x ∷ [])) × IsCanonical x.si) }
{
    match v.parts() {
        Some([x]) => Some(*x),
        _ => None,
    }
}

/// The one part that both have, where they have no other.
fn part_of_each(v: &ValueSet, w: &ValueSet) -> Option<Part>
    ensures { IfSome result (λ x. (v.now ≡ Parts (x ∷ [])) × (w.now ≡ Parts (x ∷ [])) × IsCanonical x.si) }
{
    let x = lone_part(v)?;
    let y = lone_part(w)?;
    if is_same_part(&x, &y) { Some(x) } else { None }
}

/// The values of both. Where both are one and the same part they are that part.
#[tactic(auto, unfolding(vset::specs::Operations::join, vset::specs::Operations::widen))]
pub fn of_both(
    alloc: Global,
    both: Both,
    v: &ValueSet,
    w: &ValueSet,
) -> Result<ValueSet, AllocError>
    ensures { IfOk result (λ u. u ≡ of_both_spec both v.now w.now) }
{
    if let Some(part) = part_of_each(v, w) {
        return Ok(ValueSet::one(part));
    }
    match both {
        Both::Joined => v.join(alloc, w),
        Both::Widened => v.widen(alloc, w),
    }
}

fn value_by(
    alloc: Global,
    both: Both,
    side: Side,
    x: &CellValue,
    y: &CellValue,
) -> Result<ValueSet, AllocError>
    ensures { IfOk result (λ v. v ≡ value_by_spec both side x.now.cell x.now.value y.now.value) }
{
    match side {
        Side::First => x.value.clone(),
        Side::Second => y.value.clone(),
        Side::Together => Ok(held_by(&x.cell, of_both(alloc, both, &x.value, &y.value)?)),
    }
}

/// The cells of two rising lists made anew.
pub(crate) fn merge(
    alloc: Global,
    rule: &Rule<'_>,
    xs: &[CellValue],
    ys: &[CellValue],
) -> Result<Vec<CellValue>, AllocError>
    ensures { IfOk result (λ v. v.items ≡ merged_spec (value_of_both rule.now.both rule.now.first rule.now.second) xs.now ys.now) }
{
    let mut out = Vec::new(alloc);
    let mut turn = Turn {
        region: RegionId::Global,
        side: Side::Together,
    };
    let mut i = 0;
    let mut j = 0;
    while i < xs.len() && j < ys.len() {
        let x = &xs[i];
        let y = &ys[j];
        if x.cell == y.cell {
            turn = rule.turned(turn, &x.cell.region);
            let value = value_by(alloc, rule.both, turn.side, x, y)?;
            put(&mut out, &x.cell, value)?;
            i += 1;
            j += 1;
        } else if x.cell.is_before(&y.cell) {
            turn = rule.turned(turn, &x.cell.region);
            put_alone(&mut out, Side::First.is(turn.side), x)?;
            i += 1;
        } else {
            turn = rule.turned(turn, &y.cell.region);
            put_alone(&mut out, Side::Second.is(turn.side), y)?;
            j += 1;
        }
    }
    put_rest(&mut out, rule, Side::First, rest(xs, i))?;
    put_rest(&mut out, rule, Side::Second, rest(ys, j))?;
    Ok(out)
}
