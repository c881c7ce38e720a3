//! Lowest terms, in 128 bits.

ghost use Rattle.std.specs.Prelude.{◌≡◌, ◌≢◌, ◌↔◌, IsErrOf, ◌-ℤ◌, ◌<◌, ◌^◌, ◌*◌, ◌*ℤ◌, pos, unsigned_abs};
ghost use Rattle.vt_frac.specs.Arithmetic.{floor_of};
ghost use Rattle.vt_frac.specs.Divisor.{gcd};
ghost use Rattle.vt_frac.specs.Fraction.{IsFraction, fitted, over, reduced, unless_zero, with_sign};

use super::Frac;
use crate::FracFault;

/// The greatest size of a part.
const LARGEST: u128 = i64::MAX as u128;

/// The greatest common divisor, by Euclid's algorithm.
fn common_divisor(a: u128, b: u128) -> u128
    ensures { result ≡ gcd a b }
{
    let mut greater = a;
    let mut less = b;
    while less != 0 {
        let rest = greater % less;
        greater = less;
        less = rest;
    }
    greater
}

/// `n / d` in lowest terms.
pub(super) fn lowest(n: i128, d: u128) -> Result<Frac, FracFault>
    requires { 0 < d }
    ensures { result ≡ fitted (over n d) }
{
    let size = n.unsigned_abs();
    let divisor = common_divisor(size, d);
    let above = size / divisor;
    let below = d / divisor;
    if above > LARGEST || below > LARGEST {
        return Err(FracFault::Overflow);
    }
    Ok(Frac {
        numer: signed(n, above),
        denom: below as u64,
    })
}

/// This size with the sign of `n`.
fn signed(n: i128, size: u128) -> i64
    requires { size < 2 ^ 63 }
    ensures { result ≡ with_sign n size }
{
    let size = size as i64;
    if n < 0 { -size } else { size }
}

/// `n / d` in lowest terms, or `Zero` where d is 0.
pub(super) fn ratio(n: i128, d: i128) -> Result<Frac, FracFault>
    requires { unsigned_abs n < 2 ^ 127 }
    ensures value { result ≡ unless_zero d (fitted (reduced n d)) }
    ensures zero { IsErrOf result FracFault.Zero ↔ (d ≡ pos 0) }
{
    if d == 0 {
        return Err(FracFault::Zero);
    }
    let size = d.unsigned_abs();
    if d < 0 {
        lowest(-n, size)
    } else {
        lowest(n, size)
    }
}

/// What is left of `n` after a whole number of times `d`: it has the sign of `d`, and is smaller.
pub(super) fn rest(n: i128, d: i128) -> i128
    requires nonzero { d ≢ pos 0 }
    requires n_fits { unsigned_abs n < 2 ^ 127 }
    requires d_fits { unsigned_abs d < 2 ^ 127 }
    ensures { result ≡ n -ℤ floor_of (reduced n d) *ℤ d }
{
    let negative = d < 0;
    if negative {
        -(-n).rem_euclid(-d)
    } else {
        n.rem_euclid(d)
    }
}

/// The first numerator times the second denominator.
pub(super) fn cross(a: &Frac, b: &Frac) -> i128
    ensures product { result ≡ a.now.numer *ℤ pos b.now.denom }
    ensures fractions { IsFraction a.now × IsFraction b.now }
    ensures small { unsigned_abs result < 2 ^ 126 }
{
    i128::from(a.numer) * i128::from(b.denom)
}

/// The product of both denominators.
pub(super) fn denominators(a: &Frac, b: &Frac) -> u128
    ensures product { result ≡ a.now.denom * b.now.denom }
    ensures positive { 0 < result }
{
    u128::from(a.denom) * u128::from(b.denom)
}

/// The product of both numerators.
pub(super) fn numerators(a: &Frac, b: &Frac) -> i128
    ensures { result ≡ a.now.numer *ℤ b.now.numer }
{
    i128::from(a.numer) * i128::from(b.numer)
}
