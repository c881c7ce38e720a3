//! Why there is no fraction.

use thiserror::Error;

/// Why there is no fraction for an answer.
#[derive(Clone, Copy, Debug, PartialEq, Eq, Error)]
pub enum FracFault {
    /// The divisor is 0.
    #[error("division by zero")]
    Zero,
    /// A part of the exact answer, in lowest terms, is above `2^63 - 1` in size.
    #[error("a part of the fraction is above 2^63 - 1")]
    Overflow,
}

/// Why bytes are no decimal number.
#[derive(Clone, Copy, Debug, PartialEq, Eq, Error)]
pub enum DecimalFault {
    /// They are neither digits nor digits, a dot and digits.
    #[error("not a decimal number")]
    Shape,
    /// There are more than 19 digits without a dot, or more than 18 on a side of it.
    #[error("too many digits")]
    Long,
    /// A part of the value, as a fraction in lowest terms, is above `2^63 - 1`.
    #[error("a part of the fraction is above 2^63 - 1")]
    Overflow,
}
