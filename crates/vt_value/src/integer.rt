//! Whole numbers within their range.

ghost use Rattle.std.specs.Prelude.{◌≡◌, ◌↔◌, ◌^◌, ◌<◌, unsigned_abs, IsSome, IfSome};
ghost use Rattle.vt_frac.specs.Fraction.{whole};

use std::marker::Model;
use vt_frac::Frac;

/// A whole number from `-(2^63 - 1)` to `2^63 - 1`.
#[derive(Clone, Copy, Debug, PartialEq, Eq)]
pub struct Integer {
    number: i64,
}

impl Model for Integer {
    ghost use Rattle.std.specs.Prelude.{ℤ, ◌^◌, ◌<◌, unsigned_abs};

    ghost Value = { ℤ };

    ghost view = { λ i. i.number };

    ghost invariant = { λ i. unsigned_abs i.number < 2 ^ 63 };

    ghost inverse = { λ z. record { number = z } };
}

impl Integer {
    /// The whole number, or `None` for `-(2^63)`, which is out of range.
    pub fn new(number: i64) -> Option<Integer>
        ensures some { IsSome result ↔ (unsigned_abs number < 2 ^ 63) }
        ensures value { IfSome result (λ i. i ≡ number) }
    {
        if number == i64::MIN {
            return None;
        }
        Some(Integer { number })
    }

    /// Its number.
    pub fn get(&self) -> i64
        ensures value { result ≡ self.now }
        ensures within { unsigned_abs self.now < 2 ^ 63 }
    {
        self.number
    }
}

/// The whole number as a fraction.
pub(crate) fn fraction(number: Integer) -> Frac
    ensures { result ≡ whole number }
{
    match Frac::new(number.get(), 1) {
        Ok(fraction) => fraction,
        Err(_) => unreachable!(),
    }
}
