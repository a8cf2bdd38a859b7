//! Ends of intervals in wider integers.

ghost use Rattle.std.specs.Int.{int_max, int_min};
ghost use Rattle.std.specs.Prelude.{◌≡◌, ◌*ℤ◌, ◌+ℤ◌, ◌≤ℤ◌, ◌≤◌, ◌^◌, ◌/◌, ◌-ℤ◌, ◌<◌, ◌&&◌, int_le, int_lt, neg_ℤ, pos, unsigned_abs};
ghost use Rattle.si_bits.specs.Operations.{least_product, greatest_product};
ghost use Rattle.strided.specs.Interval.{least as least_word, greatest as greatest_word};

use strided::Si;

/// Two ends.
#[derive(Clone, Copy)]
pub(crate) struct Ends {
    pub(crate) lo: i64,
    pub(crate) hi: i64,
}

/// From the lower of the lower ends to the higher of the higher ones.
pub(crate) fn hull(a: Ends, b: Ends) -> Ends
    ensures low { result.lo ≡ int_min a.lo b.lo }
    ensures high { result.hi ≡ int_max a.hi b.hi }
{
    Ends {
        lo: least(a.lo, b.lo),
        hi: greatest(a.hi, b.hi),
    }
}

/// The products of the ends and `factor`.
pub(crate) fn times(a: &Si, factor: i64) -> Ends
    requires { unsigned_abs factor ≤ 2 ^ 31 }
    ensures low { result.lo ≡ least_product a.now factor }
    ensures high { result.hi ≡ greatest_product a.now factor }
{
    let from_lo = product(a.lo(), factor);
    let from_hi = product(a.hi(), factor);
    Ends {
        lo: least(from_lo, from_hi),
        hi: greatest(from_lo, from_hi),
    }
}

/// The product.
fn product(a: i32, b: i64) -> i64
    requires { unsigned_abs b ≤ 2 ^ 31 }
    ensures { result ≡ a *ℤ b }
{
    i64::from(a) * b
}

fn least(a: i64, b: i64) -> i64
    ensures { result ≡ int_min a b }
{
    a.min(b)
}

fn greatest(a: i64, b: i64) -> i64
    ensures { result ≡ int_max a b }
{
    a.max(b)
}

/// Whether both are signed words.
pub(crate) fn are_words(ends: Ends) -> bool
    ensures { result ≡ (int_le least_word ends.lo && int_le ends.hi greatest_word) }
{
    i64::from(i32::MIN) <= ends.lo && ends.hi <= i64::from(i32::MAX)
}

/// The same number in fewer bits.
pub(crate) fn narrow(number: i64) -> i32
    requires low { least_word ≤ℤ number }
    requires high { number ≤ℤ greatest_word }
    ensures { result ≡ number }
{
    number as i32
}

/// The power of 2.
pub(crate) fn power(exponent: u32) -> u32
    requires { exponent < 32 }
    ensures value { result ≡ 2 ^ exponent }
    ensures positive { 0 < result }
{
    1 << exponent
}

/// The same number.
pub(crate) fn natural(number: u32) -> i32
    requires { number < 2 ^ 31 }
    ensures { result ≡ pos number }
{
    number as i32
}

/// The number as far below 0.
pub(crate) fn minus(number: u32) -> i32
    requires { number ≤ 2 ^ 31 }
    ensures { result ≡ neg_ℤ (pos number) }
{
    (-i64::from(number)) as i32
}

/// `number` less `by`.
pub(crate) fn less(number: i32, by: u32) -> i32
    requires natural { pos 0 ≤ℤ number }
    requires narrow { by ≤ 2 ^ 31 }
    ensures { result ≡ number -ℤ pos by }
{
    (i64::from(number) - i64::from(by)) as i32
}

/// Whether `number` is less than `bound`.
pub(crate) fn is_below(number: i32, bound: u32) -> bool
    ensures { result ≡ int_lt number (pos bound) }
{
    i64::from(number) < i64::from(bound)
}

/// Whether `number` is not less than `bound`.
pub(crate) fn is_at_least(number: i32, bound: u32) -> bool
    ensures { result ≡ int_le (pos bound) number }
{
    i64::from(bound) <= i64::from(number)
}
