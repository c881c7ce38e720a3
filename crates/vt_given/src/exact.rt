//! Exact fractions, with the language's fault.

ghost use Rattle.std.specs.Prelude.{◌≡◌, ◌≢◌, pos};
ghost use Rattle.vt_frac.specs.Fraction.{Fraction, fitted, whole};
ghost use Rattle.vt_ring.specs.Exact.{exact, exact_quotient, is_negative};

use vt_frac::{Frac, FracFault};
use vt_value::{FaultKind, Integer, Value};

/// f / g, or `Overflow` where that does not fit.
pub fn exact_quotient(f: Frac, g: Frac) -> Result<Frac, FaultKind>
    requires { g.numer ≢ pos 0 }
    ensures { result ≡ exact_quotient f g }
{
    exact(f.div(g))
}

/// What an operation answers, with the language's fault.
fn exact(answer: Result<Frac, FracFault>) -> Result<Frac, FaultKind>
    ensures { (f : Fraction) → answer ≡ fitted f → result ≡ exact f }
{
    match answer {
        Ok(f) => Ok(f),
        Err(_) => Err(FaultKind::Overflow),
    }
}

/// Whether it is below 0.
pub fn is_negative(f: Frac) -> bool
    ensures { result ≡ is_negative f }
{
    f.numer() < 0
}

/// A number of 32 bits, as a fraction.
pub fn whole(n: u32) -> Frac
    ensures { result ≡ whole (pos n) }
{
    match Value::Whole(integer(n)).number() {
        Some(fraction) => fraction,
        None => unreachable!(),
    }
}

/// A number of 32 bits, as one of the language.
pub fn integer(n: u32) -> Integer
    ensures { result ≡ pos n }
{
    match Integer::new(i64::from(n)) {
        Some(integer) => integer,
        None => unreachable!(),
    }
}
