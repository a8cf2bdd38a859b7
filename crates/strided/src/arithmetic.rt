//! Distances, divisors and sums of ends, computed in wider integers.

ghost use Rattle.std.specs.Int.{◌∣◌, IsGcd, int_gap, next_multiple_of};
ghost use Rattle.std.specs.Prelude.{◌≡◌, ◌↔◌, ◌+ℤ◌, ◌-ℤ◌, ◌≤ℤ◌, ◌/◌, ◌%◌, ◌==◌, IsTrue, pos};
ghost use Rattle.strided.specs.Concrete.{signed as signed_value};
ghost use Rattle.strided.specs.Gcd.{gcd as gcd_value};
ghost use Rattle.strided.specs.Interval.{IsSpan, greatest};

/// 2^32, by which the processor's numbers wrap.
const TURN: i64 = 1 << 32;

/// How far `hi` lies above `lo`.
pub(crate) fn gap(lo: i32, hi: i32) -> u32
    requires { lo ≤ℤ hi }
    ensures { hi ≡ lo +ℤ pos result }
{
    (i64::from(hi) - i64::from(lo)) as u32
}

/// How far `hi` lies above `lo`, or 0 where it doesn't.
pub(crate) fn rise(lo: i32, hi: i32) -> u32
    ensures { result ≡ int_gap lo hi }
{
    if lo <= hi { gap(lo, hi) } else { 0 }
}

/// The number `by` above `lo`.
pub(crate) fn raised(lo: i32, by: u32) -> i32
    requires { (lo +ℤ pos by) ≤ℤ greatest }
    ensures { result ≡ lo +ℤ pos by }
{
    (i64::from(lo) + i64::from(by)) as i32
}

pub(crate) fn sum(a: i32, b: i32) -> i64
    ensures { result ≡ a +ℤ b }
{
    i64::from(a) + i64::from(b)
}

pub(crate) fn difference(a: i32, b: i32) -> i64
    ensures { result ≡ a -ℤ b }
{
    i64::from(a) - i64::from(b)
}

/// The signed number that is `value` modulo 2^32.
pub(crate) fn signed(value: i64) -> i32
    ensures { result ≡ signed_value value }
{
    (value.rem_euclid(TURN) as u32).cast_signed()
}

/// How many times `divisor` goes into `number`; 0 does so no time.
pub(crate) fn quotient(number: u32, divisor: u32) -> u32
    ensures { result ≡ number / divisor }
{
    if divisor == 0 { 0 } else { number / divisor }
}

/// What is left of `number` then.
pub(crate) fn remainder(number: u32, divisor: u32) -> u32
    ensures { result ≡ number % divisor }
{
    if divisor == 0 {
        number
    } else {
        number % divisor
    }
}

/// The least multiple of `divisor` that isn't below `number`, or `number` where `divisor` is 0.
pub(crate) fn next_multiple(number: u32, divisor: u32) -> u64
    ensures { result ≡ next_multiple_of number divisor }
{
    if divisor == 0 {
        u64::from(number)
    } else {
        u64::from(number).next_multiple_of(u64::from(divisor))
    }
}

/// Whether `number` is a multiple of `divisor`; the one multiple of 0 is 0.
pub(crate) fn divides(divisor: u32, number: u32) -> bool
    ensures value { result ≡ (number % divisor == 0) }
    ensures multiple { IsTrue result ↔ (divisor ∣ number) }
{
    remainder(number, divisor) == 0
}

/// Whether an interval may reach `gap` above its lower end by this stride, which is 0 where it doesn't rise.
pub(crate) fn is_span(stride: u32, gap: u32) -> bool
    ensures { IsTrue result ↔ IsSpan stride gap }
{
    if gap == 0 {
        stride == 0
    } else {
        divides(stride, gap)
    }
}

/// The greatest common divisor, in which a zero counts for nothing.
pub(crate) fn gcd(a: u32, b: u32) -> u32
    ensures value { result ≡ gcd_value a b }
    ensures greatest { IsGcd a b result }
{
    let mut divisor = a;
    let mut rest = b;
    while rest != 0 {
        let next = divisor % rest;
        divisor = rest;
        rest = next;
    }
    divisor
}
