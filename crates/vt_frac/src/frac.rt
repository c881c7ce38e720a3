//! Exact fractions and their arithmetic.

ghost use Rattle.std.specs.Prelude.{◌≡◌, ◌↔◌, ◌+ℤ◌, ◌*ℤ◌, ◌≤ℤ◌, ◌<ℤ◌, pos, IsErrOf};
ghost use Rattle.vt_frac.specs.Arithmetic.{difference_of, floor_of, product_of, quotient_of, remainder_of, sum_of};
ghost use Rattle.vt_frac.specs.Fraction.{IsFraction, fitted, reduced, unless_zero};

use crate::FracFault;
use lowest::{cross, denominators, lowest, numerators, ratio, rest};
use std::marker::Model;

mod decimal;
mod lowest;
mod order;
mod text;

/// An exact fraction in lowest terms. Its denominator is at least 1, and both parts are at most `2^63 - 1` in size.
#[derive(Clone, Copy, Debug, PartialEq, Eq)]
pub struct Frac {
    numer: i64,
    denom: u64,
}

impl Model for Frac {
    ghost use Rattle.vt_frac.specs.Fraction.{Fraction, IsFraction};

    ghost Value = { Fraction };

    ghost view = { λ f. record { numer = f.numer; denom = f.denom } };

    ghost invariant = { λ f. IsFraction (record { numer = f.numer; denom = f.denom }) };

    ghost inverse = { λ f. record { numer = f.numer; denom = f.denom } };
}

impl Frac {
    /// The fraction `n / d`, or `Zero` where d is 0, or `Overflow` where a part of it, in lowest terms, is above `2^63 - 1` in size.
    pub fn new(n: i64, d: i64) -> Result<Frac, FracFault>
        ensures value { result ≡ unless_zero d (fitted (reduced n d)) }
        ensures zero { IsErrOf result FracFault.Zero ↔ (d ≡ pos 0) }
    {
        ratio(i128::from(n), i128::from(d))
    }

    /// The number above the line.
    pub fn numer(&self) -> i64
        ensures value { result ≡ self.now.numer }
        ensures fraction { IsFraction self.now }
    {
        self.numer
    }

    /// The number below the line, at least 1.
    pub fn denom(&self) -> i64
        ensures value { result ≡ pos self.now.denom }
        ensures fraction { IsFraction self.now }
    {
        self.denom as i64
    }

    /// The exact sum, or `Overflow` where it does not fit.
    pub fn add(&self, other: Frac) -> Result<Frac, FracFault>
        ensures { result ≡ fitted (sum_of self.now other) }
    {
        let sum = cross(self, &other) + cross(&other, self);
        lowest(sum, denominators(self, &other))
    }

    /// The exact difference, or `Overflow` where it does not fit.
    pub fn sub(&self, other: Frac) -> Result<Frac, FracFault>
        ensures { result ≡ fitted (difference_of self.now other) }
    {
        let difference = cross(self, &other) - cross(&other, self);
        lowest(difference, denominators(self, &other))
    }

    /// The exact product, or `Overflow` where it does not fit.
    pub fn mul(&self, other: Frac) -> Result<Frac, FracFault>
        ensures { result ≡ fitted (product_of self.now other) }
    {
        lowest(numerators(self, &other), denominators(self, &other))
    }

    /// The exact quotient, or `Zero` where `other` is 0, or `Overflow` where it does not fit.
    pub fn div(&self, other: Frac) -> Result<Frac, FracFault>
        ensures value { result ≡ unless_zero other.numer (fitted (quotient_of self.now other)) }
        ensures zero { IsErrOf result FracFault.Zero ↔ (other.numer ≡ pos 0) }
    {
        ratio(cross(self, &other), cross(&other, self))
    }

    /// The greatest whole number not above the value.
    pub fn floor(&self) -> i64
        ensures value { result ≡ floor_of self.now }
        ensures not_above { (result *ℤ pos self.now.denom) ≤ℤ self.now.numer }
        ensures greatest { self.now.numer <ℤ ((result +ℤ pos 1) *ℤ pos self.now.denom) }
    {
        self.numer.div_euclid(self.denom as i64)
    }

    /// `self - other * floor(self / other)`, which has the sign of `other`, or `Zero` where `other` is 0, or `Overflow` where that result does not fit.
    pub fn rem(&self, other: Frac) -> Result<Frac, FracFault>
        ensures value { result ≡ unless_zero other.numer (fitted (remainder_of self.now other)) }
        ensures zero { IsErrOf result FracFault.Zero ↔ (other.numer ≡ pos 0) }
    {
        let divisor = cross(&other, self);
        if divisor == 0 {
            return Err(FracFault::Zero);
        }
        lowest(
            rest(cross(self, &other), divisor),
            denominators(self, &other),
        )
    }
}
