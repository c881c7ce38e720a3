//! Decimal numbers.

ghost use Rattle.std.specs.Prelude.{◌≡◌, ◌↔◌, List, ℕ, IsErrOf, ◌<◌, ◌≤◌, ◌^◌, ◌&&◌, length, position, pos, if◌then◌else◌, IsTrue, IfSome};
ghost use Rattle.std.specs.List.{list_all};
ghost use Rattle.std.specs.Char.{is_ascii_digit};
ghost use Rattle.vt_frac.specs.Decimal.{IsDecimal, IsPointed, are_digits, decimal_of, digits_value, fitted_decimal, is_dot, pointed_decimal, whole_decimal};
ghost use Rattle.vt_frac.specs.Fraction.{over};

use super::Frac;
use super::lowest::lowest;
use crate::DecimalFault;

/// The most digits without a dot, whose number fits 64 bits.
const MOST_WHOLE: usize = 19;

/// The most digits on a side of the dot.
const MOST_ON_A_SIDE: usize = 18;

impl Frac {
    /// The exact value of `digits` or `digits.digits`, with at most 19 digits in the first form and 18 on each side in the second.
    pub fn read_decimal(bytes: &[u8]) -> Result<Frac, DecimalFault>
        ensures value { result ≡ decimal_of bytes.now }

        // By the form of the bytes: where they are `before.after`, there is no other way to split them.
        ensures whole { IsTrue (are_digits bytes.now) → result ≡ whole_decimal bytes.now }
        ensures pointed { (before after : List ℕ) → IsPointed before after bytes.now → result ≡ pointed_decimal before after }
        ensures shape { IsErrOf result DecimalFault.Shape ↔ ¬ IsDecimal bytes.now }
    {
        if are_digits(bytes) {
            return read_whole(bytes);
        }
        match first_dot(bytes) {
            Some(dot) => read_pointed(&bytes[..dot], &bytes[dot + 1..]),
            None => Err(DecimalFault::Shape),
        }
    }
}

/// There is a digit, and nothing but digits.
fn are_digits(bytes: &[u8]) -> bool
    ensures { result ≡ are_digits bytes.now }
{
    !bytes.is_empty() && all_digits(bytes)
}

fn all_digits(bytes: &[u8]) -> bool
    ensures { result ≡ list_all is_ascii_digit bytes.now }
{
    bytes.iter().all(|byte| byte.is_ascii_digit())
}

fn first_dot(bytes: &[u8]) -> Option<usize>
    ensures place { result ≡ position is_dot bytes.now }
    ensures within { IfSome result (λ dot. dot < length bytes.now) }
{
    bytes.iter().position(|byte| *byte == b'.')
}

/// The number that at most 19 digits write.
fn number(digits: &[u8]) -> u64
    requires digits { IsTrue (are_digits digits.now) }
    requires few { length digits.now ≤ 19 }
    ensures value { result ≡ digits_value digits.now }
    ensures below { result < 10 ^ length digits.now }
{
    let mut number = 0;
    for digit in digits {
        number = number * 10 + u64::from(*digit - b'0');
    }
    number
}

fn read_whole(digits: &[u8]) -> Result<Frac, DecimalFault>
    requires { IsTrue (are_digits digits.now) }
    ensures { result ≡ whole_decimal digits.now }
{
    if digits.len() > MOST_WHOLE {
        return Err(DecimalFault::Long);
    }
    lowest_decimal(u128::from(number(digits)), 1)
}

fn read_pointed(before: &[u8], after: &[u8]) -> Result<Frac, DecimalFault>
    ensures { result ≡ (if are_digits before.now && are_digits after.now then pointed_decimal before.now after.now
        else Err DecimalFault.Shape) }
{
    if !are_digits(before) || !are_digits(after) {
        return Err(DecimalFault::Shape);
    }
    if before.len() > MOST_ON_A_SIDE || after.len() > MOST_ON_A_SIDE {
        return Err(DecimalFault::Long);
    }
    let parts = u128::from(10u64.pow(after.len() as u32));
    let whole = u128::from(number(before));
    lowest_decimal(whole * parts + u128::from(number(after)), parts)
}

fn lowest_decimal(n: u128, d: u128) -> Result<Frac, DecimalFault>
    requires positive { 0 < d }
    requires fits { n < 2 ^ 127 }
    ensures { result ≡ fitted_decimal (over (pos n) d) }
{
    lowest(n as i128, d).map_err(|_| DecimalFault::Overflow)
}
