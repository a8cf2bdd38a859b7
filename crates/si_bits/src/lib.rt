//! Strided intervals under the processor's operations on bits, its products, its shifts and its extensions.
//!
//! Each operation answers the interval of its formula, which holds every result of the processor's
//! operation on members. No call takes memory, and none refuses.
#![tactic(auto)]

ghost use Rattle.std.specs.Prelude.{◌≡◌, ◌⊎◌, ◌<◌, ◌^◌, ◌≤ℤ◌, ◌<ℤ◌, ℤ, pos};
ghost use Rattle.strided.specs.Interval.{IsMember};
ghost use Rattle.si_bits.specs.Operations.{and, or, xor, mul, shl, shr, sar, low, sign_extend};
ghost use Rattle.si_bits.specs.Concrete.{and_of, or_of, xor_of, product_of, shl_of, shr_of, sar_of, low_of, extension_of};

mod mask;
mod multiply;
mod part;
mod shape;
mod shift;
mod wide;

use strided::Si;

/// The bits that are set in both.
pub fn and(a: &Si, b: &Si) -> Si
    ensures value { result ≡ and a.now b.now }
    ensures sound { (v w : ℤ) → IsMember v a.now → IsMember w b.now → IsMember (and_of v w) result }
{
    mask::conjunction(a, b)
}

/// The bits that are set in one or both.
pub fn or(a: &Si, b: &Si) -> Si
    ensures value { result ≡ or a.now b.now }
    ensures sound { (v w : ℤ) → IsMember v a.now → IsMember w b.now → IsMember (or_of v w) result }
{
    mask::disjunction(a, b)
}

/// The bits that are set in one alone.
pub fn xor(a: &Si, b: &Si) -> Si
    ensures value { result ≡ xor a.now b.now }
    ensures sound { (v w : ℤ) → IsMember v a.now → IsMember w b.now → IsMember (xor_of v w) result }
{
    mask::difference(a, b)
}

/// The products of members, modulo 2^32.
pub fn mul(a: &Si, b: &Si) -> Si
    ensures value { result ≡ mul a.now b.now }
    ensures sound { (v w : ℤ) → IsMember v a.now → IsMember w b.now → IsMember (product_of v w) result }
{
    multiply::product(a, b)
}

/// The members shifted to the left by `count` bits, modulo 2^32.
pub fn shl(a: &Si, count: u32) -> Si
    requires { count < 32 }
    ensures value { result ≡ shl a.now count }
    ensures sound { (v : ℤ) → IsMember v a.now → IsMember (shl_of count v) result }
{
    multiply::shifted_left(a, count)
}

/// The members shifted to the right by `count` bits, with zeros from above.
pub fn shr(a: &Si, count: u32) -> Si
    requires { count < 32 }
    ensures value { result ≡ shr a.now count }
    ensures sound { (v : ℤ) → IsMember v a.now → IsMember (shr_of count v) result }
{
    shift::with_zeros(a, count)
}

/// The members shifted to the right by `count` bits, with copies of the sign bit from above.
pub fn sar(a: &Si, count: u32) -> Si
    requires { count < 32 }
    ensures value { result ≡ sar a.now count }
    ensures sound { (v : ℤ) → IsMember v a.now → IsMember (sar_of count v) result }
{
    shift::with_sign(a, count)
}

/// The low 8 bits of the members.
pub fn low8(a: &Si) -> Si
    ensures value { result ≡ low 8 a.now }
    ensures sound { (v : ℤ) → IsMember v a.now → IsMember (low_of 8 v) result }
{
    part::low(a, 8)
}

/// The low 16 bits of the members.
pub fn low16(a: &Si) -> Si
    ensures value { result ≡ low 16 a.now }
    ensures sound { (v : ℤ) → IsMember v a.now → IsMember (low_of 16 v) result }
{
    part::low(a, 16)
}

/// The members, numbers of 8 or 16 bits, as signed numbers of so many bits.
pub fn sign_extend(a: &Si, bits: u32) -> Si
    requires width { (bits ≡ 8) ⊎ (bits ≡ 16) }
    requires natural { pos 0 ≤ℤ a.now.lo }
    requires narrow { a.now.hi <ℤ pos (2 ^ bits) }
    ensures value { result ≡ sign_extend bits a.now }
    ensures sound { (v : ℤ) → IsMember v a.now → IsMember (extension_of bits v) result }
{
    part::sign_extend(a, bits)
}

#[cfg(test)]
mod tests;
