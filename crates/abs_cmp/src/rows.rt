//! What is left of an interval under a condition, one function a row.

ghost use Rattle.std.specs.Prelude.{◌≡◌, ◌<ℤ◌, ◌+ℤ◌, ◌-ℤ◌, ◌<◌, pos};
ghost use Rattle.strided.specs.Interval.{least, greatest};
ghost use Rattle.abs_cmp.specs.Rows.{less as less_spec, at_most as at_most_spec, at_least as at_least_spec, greater as greater_spec, is_natural as is_natural_spec, below as below_spec, not_above as not_above_spec, not_below as not_below_spec, above as above_spec, without_end as without_end_spec, not_equal as not_equal_spec, is_zero as is_zero_spec, negative as negative_spec, not_negative as not_negative_spec, row as row_spec, opposite as opposite_spec};

use strided::Si;

fn lowered(number: i32) -> i32
    requires { least <ℤ number }
    ensures { result ≡ number -ℤ pos 1 }
{
    number - 1
}

fn raised(number: i32) -> i32
    requires { number <ℤ greatest }
    ensures { result ≡ number +ℤ pos 1 }
{
    number + 1
}

/// The members less than `number`.
#[tactic(auto, unfolding(crate::specs::Rows::less))]
fn less(x: &Si, number: i32) -> Option<Si>
    ensures { result ≡ less_spec x.now number }
{
    if number == i32::MIN {
        None
    } else {
        x.clip(i32::MIN, lowered(number))
    }
}

#[tactic(auto, unfolding(crate::specs::Rows::at_most))]
fn at_most(x: &Si, number: i32) -> Option<Si>
    ensures { result ≡ at_most_spec x.now number }
{
    x.clip(i32::MIN, number)
}

#[tactic(auto, unfolding(crate::specs::Rows::at_least))]
fn at_least(x: &Si, number: i32) -> Option<Si>
    ensures { result ≡ at_least_spec x.now number }
{
    x.clip(number, i32::MAX)
}

/// The members greater than `number`.
#[tactic(auto, unfolding(crate::specs::Rows::greater))]
fn greater(x: &Si, number: i32) -> Option<Si>
    ensures { result ≡ greater_spec x.now number }
{
    if number == i32::MAX {
        None
    } else {
        x.clip(raised(number), i32::MAX)
    }
}

/// Whether no member is below 0.
fn is_natural(a: &Si) -> bool
    ensures { result ≡ is_natural_spec a.now }
{
    0 <= a.lo()
}

/// Whether 0 is the one member.
fn is_zero(a: &Si) -> bool
    ensures { result ≡ is_zero_spec a.now }
{
    a.lo() == 0 && a.hi() == 0
}

/// The members that may be below one of the bound, as numbers without a sign.
#[tactic(auto, unfolding(crate::specs::Rows::below))]
fn below(x: &Si, bound: &Si) -> Option<Si>
    ensures { result ≡ below_spec x.now bound.now }
{
    if !is_natural(bound) {
        Some(*x)
    } else if bound.hi() == 0 {
        None
    } else {
        x.clip(0, lowered(bound.hi()))
    }
}

/// The members that may be at most one of the bound, as numbers without a sign.
#[tactic(auto, unfolding(crate::specs::Rows::not_above))]
fn not_above(x: &Si, bound: &Si) -> Option<Si>
    ensures { result ≡ not_above_spec x.now bound.now }
{
    if is_natural(bound) {
        x.clip(0, bound.hi())
    } else {
        Some(*x)
    }
}

/// The members that may be at least one of the bound, as numbers without a sign.
#[tactic(auto, unfolding(crate::specs::Rows::not_below))]
fn not_below(x: &Si, bound: &Si) -> Option<Si>
    ensures { result ≡ not_below_spec x.now bound.now }
{
    if is_natural(bound) && is_natural(x) {
        at_least(x, bound.lo())
    } else {
        Some(*x)
    }
}

/// The members that may be above one of the bound, as numbers without a sign.
#[tactic(auto, unfolding(crate::specs::Rows::above))]
fn above(x: &Si, bound: &Si) -> Option<Si>
    ensures { result ≡ above_spec x.now bound.now }
{
    if is_natural(bound) && is_natural(x) {
        greater(x, bound.lo())
    } else {
        Some(*x)
    }
}

/// The members without `number`, where that is an end.
#[tactic(auto, unfolding(crate::specs::Rows::without_end))]
fn without_end(x: &Si, number: i32) -> Option<Si>
    ensures { result ≡ without_end_spec x.now number }
{
    if number == x.lo() {
        greater(x, number)
    } else if number == x.hi() {
        less(x, number)
    } else {
        Some(*x)
    }
}

/// The members without the bound, where that is one number.
#[tactic(auto, unfolding(crate::specs::Rows::not_equal))]
fn not_equal(x: &Si, bound: &Si) -> Option<Si>
    ensures { result ≡ not_equal_spec x.now bound.now }
{
    if bound.lo() == bound.hi() {
        without_end(x, bound.lo())
    } else {
        Some(*x)
    }
}

/// The members whose difference from 0 has the sign.
#[tactic(auto, unfolding(crate::specs::Rows::negative))]
fn negative(x: &Si, bound: &Si) -> Option<Si>
    ensures { result ≡ negative_spec x.now bound.now }
{
    if is_zero(bound) { less(x, 0) } else { Some(*x) }
}

#[tactic(auto, unfolding(crate::specs::Rows::not_negative))]
fn not_negative(x: &Si, bound: &Si) -> Option<Si>
    ensures { result ≡ not_negative_spec x.now bound.now }
{
    if is_zero(bound) {
        at_least(x, 0)
    } else {
        Some(*x)
    }
}

/// The members of `x` that the condition of this number allows on the flags of their comparison with some
/// member of the bound, or more of them; `None` where no member is left.
#[tactic(auto, unfolding(crate::specs::Rows::row))]
pub(crate) fn row(condition: u8, x: &Si, bound: &Si) -> Option<Si>
    ensures { result ≡ row_spec condition x.now bound.now }
{
    match condition {
        2 => below(x, bound),
        3 => not_below(x, bound),
        4 => x.clip(bound.lo(), bound.hi()),
        5 => not_equal(x, bound),
        6 => not_above(x, bound),
        7 => above(x, bound),
        8 => negative(x, bound),
        9 => not_negative(x, bound),
        12 => less(x, bound.hi()),
        13 => at_least(x, bound.lo()),
        14 => at_most(x, bound.hi()),
        15 => greater(x, bound.lo()),
        _ => Some(*x),
    }
}

/// The number of the condition that holds exactly where this one doesn't.
#[tactic(auto, unfolding(crate::specs::Rows::opposite))]
pub(crate) fn opposite(condition: u8) -> u8
    requires { condition < 16 }
    ensures { result ≡ opposite_spec condition }
{
    if condition % 2 == 1 {
        condition - 1
    } else {
        condition + 1
    }
}
