//! Arithmetic on exact fractions, with the language's fault.

ghost use Rattle.std.specs.Prelude.{◌≡◌, ◌≢◌, ◌^◌, ◌<◌, pos, IsTrue};
ghost use Rattle.vt_frac.specs.Fraction.{Fraction, fitted, whole};
ghost use Rattle.vt_ring.specs.Exact.{absolute_of, exact, exact_difference, exact_product, exact_quotient, exact_sum, is_negative, is_positive, rounded_up};

use vt_frac::{Frac, FracFault};
use vt_value::FaultKind;

/// f + g, or `Overflow` where that does not fit.
pub fn exact_sum(f: Frac, g: Frac) -> Result<Frac, FaultKind>
    ensures { result ≡ exact_sum f g }
{
    exact(f.add(g))
}

/// f - g, or `Overflow` where that does not fit.
pub fn exact_difference(f: Frac, g: Frac) -> Result<Frac, FaultKind>
    ensures { result ≡ exact_difference f g }
{
    exact(f.sub(g))
}

/// f * g, or `Overflow` where that does not fit.
pub fn exact_product(f: Frac, g: Frac) -> Result<Frac, FaultKind>
    ensures { result ≡ exact_product f g }
{
    exact(f.mul(g))
}

/// f / g, or `Overflow` where that does not fit.
pub(crate) fn exact_quotient(f: Frac, g: Frac) -> Result<Frac, FaultKind>
    requires { g.numer ≢ pos 0 }
    ensures { result ≡ exact_quotient f g }
{
    exact(f.div(g))
}

/// What an operation answers, with the language's fault.
fn exact(answer: Result<Frac, FracFault>) -> Result<Frac, FaultKind>
    ensures { (f : Fraction) → answer ≡ fitted f → result ≡ exact f }
{
    match answer {
        Ok(f) => Ok(f),
        Err(_) => Err(FaultKind::Overflow),
    }
}

/// A whole number as a fraction.
pub(crate) fn whole(n: u64) -> Frac
    requires { n < 2 ^ 63 }
    ensures { result ≡ whole (pos n) }
{
    match Frac::new(n as i64, 1) {
        Ok(fraction) => fraction,
        Err(_) => unreachable!(),
    }
}

/// The size of a fraction, without its sign.
pub(crate) fn absolute(f: Frac) -> Frac
    ensures { result ≡ absolute_of f }
{
    if is_negative(f) { negated(f) } else { f }
}

/// The size of a fraction below 0.
fn negated(f: Frac) -> Frac
    requires { IsTrue (is_negative f) }
    ensures { result ≡ absolute_of f }
{
    match Frac::new(-f.numer(), f.denom()) {
        Ok(size) => size,
        Err(_) => unreachable!(),
    }
}

pub(crate) fn is_positive(f: Frac) -> bool
    ensures { result ≡ is_positive f }
{
    f.numer() > 0
}

pub(crate) fn is_negative(f: Frac) -> bool
    ensures { result ≡ is_negative f }
{
    f.numer() < 0
}

/// The least whole number not below a fraction of at least 0.
pub(crate) fn rounded_up(f: Frac) -> u64
    ensures { result ≡ rounded_up f }
{
    let denom = f.denom() as u64;
    (f.numer().unsigned_abs() + (denom - 1)) / denom
}
