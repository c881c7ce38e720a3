//! Kinds and ranges of arguments.

ghost use Rattle.std.specs.Prelude.{◌≡◌, ◌||◌, pos, int_lt, Some};
ghost use Rattle.vt_ring.specs.Arguments.{between, count_from, whole_argument};
ghost use Rattle.vt_ring.specs.private.Knitting.{count_or_zero};
ghost use Rattle.vt_value.specs.Kinds.{whole_of};

use vt_value::{FaultKind, Integer, Value};

/// The whole number that a value is, or `WrongKind`.
pub fn whole_argument(value: &Value) -> Result<Integer, FaultKind>
    ensures { result ≡ whole_argument value.now }
{
    match value {
        Value::Whole(n) => Ok(*n),
        Value::Nil => Err(FaultKind::WrongKind),
        Value::Bool(_) => Err(FaultKind::WrongKind),
        Value::Part(_) => Err(FaultKind::WrongKind),
        Value::Sym(_) => Err(FaultKind::WrongKind),
        Value::Text(_) => Err(FaultKind::WrongKind),
        Value::Ring(_) => Err(FaultKind::WrongKind),
    }
}

/// A number of at least 0, or `BadValue`.
pub(crate) fn count_from(n: i64) -> Result<u64, FaultKind>
    ensures { result ≡ count_from n }
{
    if n < 0 {
        Err(FaultKind::BadValue)
    } else {
        Ok(n as u64)
    }
}

/// A number from `least` to `most`, or `BadValue`.
pub(crate) fn between(least: u64, most: u64, n: i64) -> Result<u64, FaultKind>
    ensures { result ≡ between least most n }
{
    if n < 0 {
        return Err(FaultKind::BadValue);
    }
    let count = n as u64;
    if count < least || count > most {
        return Err(FaultKind::BadValue);
    }
    Ok(count)
}

/// A whole number of at least 0, and 0 for every other value.
pub(crate) fn count_or_zero(value: &Value) -> u64
    ensures { result ≡ count_or_zero (whole_of value.now) }
{
    match value {
        Value::Whole(n) => at_least_zero(*n),
        Value::Nil => 0,
        Value::Bool(_) => 0,
        Value::Part(_) => 0,
        Value::Sym(_) => 0,
        Value::Text(_) => 0,
        Value::Ring(_) => 0,
    }
}

/// Whether a number is below 0, or another was.
pub(crate) fn is_below_zero(n: Integer, was_below: bool) -> bool
    ensures { result ≡ (was_below || int_lt n (pos 0)) }
{
    was_below || n.get() < 0
}

fn at_least_zero(n: Integer) -> u64
    ensures { result ≡ count_or_zero (Some n) }
{
    let number = n.get();
    if number < 0 { 0 } else { number as u64 }
}
