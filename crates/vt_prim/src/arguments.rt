//! What calls take: how many arguments, and of which kinds.

ghost use Rattle.std.specs.Prelude.{◌≡◌, Ok, Err, IfOk, IfErr, Some};
ghost use Rattle.std.specs.Option.{option_copied};
ghost use Rattle.vt_ring.specs.Arguments.{between};
ghost use Rattle.vt_ring.specs.Signatures.{number_argument, number_or, one_of, one_or_none_of, one_or_two_of, option_named, ring_argument, symbol_argument, three_of, two_of, two_or_three_of, whole_or};

use vt_frac::{Frac, Name};
use vt_ring::whole_argument;
use vt_value::{FaultKind, Integer, Value};

/// The one argument.
pub(crate) fn one(args: &[Value]) -> Result<&Value, FaultKind>
    ensures ok { IfOk result (λ a. one_of args.now ≡ Ok a.now) }
    ensures err { IfErr result (λ kind. one_of args.now ≡ Err kind) }
{
    match args {
        [a] => Ok(a),
        _ => Err(FaultKind::WrongCount),
    }
}

/// The one argument, if there is one.
pub(crate) fn one_or_none(args: &[Value]) -> Result<Option<&Value>, FaultKind>
    ensures ok { IfOk result (λ a. one_or_none_of args.now ≡ Ok (option_copied a)) }
    ensures err { IfErr result (λ kind. one_or_none_of args.now ≡ Err kind) }
{
    match args {
        [] => Ok(None),
        [a] => Ok(Some(a)),
        _ => Err(FaultKind::WrongCount),
    }
}

/// The two arguments.
pub(crate) fn two(args: &[Value]) -> Result<(&Value, &Value), FaultKind>
    ensures ok { IfOk result (λ a. two_of args.now ≡ Ok (a.0.now, a.1.now)) }
    ensures err { IfErr result (λ kind. two_of args.now ≡ Err kind) }
{
    match args {
        [a, b] => Ok((a, b)),
        _ => Err(FaultKind::WrongCount),
    }
}

/// The first argument, and the second if there is one.
pub(crate) fn one_or_two(args: &[Value]) -> Result<(&Value, Option<&Value>), FaultKind>
    ensures ok { IfOk result (λ a. one_or_two_of args.now ≡ Ok (a.0.now, option_copied a.1)) }
    ensures err { IfErr result (λ kind. one_or_two_of args.now ≡ Err kind) }
{
    match args {
        [a] => Ok((a, None)),
        [a, b] => Ok((a, Some(b))),
        _ => Err(FaultKind::WrongCount),
    }
}

/// The three arguments.
pub(crate) fn three(args: &[Value]) -> Result<(&Value, &Value, &Value), FaultKind>
    ensures ok { IfOk result (λ a. three_of args.now ≡ Ok (a.0.now, a.1.now, a.2.now)) }
    ensures err { IfErr result (λ kind. three_of args.now ≡ Err kind) }
{
    match args {
        [a, b, c] => Ok((a, b, c)),
        _ => Err(FaultKind::WrongCount),
    }
}

/// The first two arguments, and the third if there is one.
pub(crate) fn two_or_three(args: &[Value]) -> Result<(&Value, &Value, Option<&Value>), FaultKind>
    ensures ok { IfOk result (λ a. two_or_three_of args.now ≡ Ok (a.0.now, a.1.now, option_copied a.2)) }
    ensures err { IfErr result (λ kind. two_or_three_of args.now ≡ Err kind) }
{
    match args {
        [a, b] => Ok((a, b, None)),
        [a, b, c] => Ok((a, b, Some(c))),
        _ => Err(FaultKind::WrongCount),
    }
}

/// The value of the option of this name, if it is given.
pub(crate) fn option_named<'a>(name: &[u8], options: &'a [(Name, Value)]) -> Option<&'a Value>
    ensures { option_copied result ≡ option_named name.now options.now }
{
    let option = options.iter().find(|option| option.0.as_bytes() == name)?;
    Some(&option.1)
}

/// The items of a ring.
pub(crate) fn ring_argument(value: &Value) -> Result<&[Value], FaultKind>
    ensures ok { IfOk result (λ items. ring_argument value.now ≡ Ok items.now) }
    ensures err { IfErr result (λ kind. ring_argument value.now ≡ Err kind) }
{
    match value {
        Value::Ring(items) => Ok(items.as_slice()),
        Value::Nil => Err(FaultKind::WrongKind),
        Value::Bool(_) => Err(FaultKind::WrongKind),
        Value::Whole(_) => Err(FaultKind::WrongKind),
        Value::Part(_) => Err(FaultKind::WrongKind),
        Value::Sym(_) => Err(FaultKind::WrongKind),
        Value::Text(_) => Err(FaultKind::WrongKind),
    }
}

/// A number, as the fraction that it is worth.
pub(crate) fn number_argument(value: &Value) -> Result<Frac, FaultKind>
    ensures { result ≡ number_argument value.now }
{
    value.number().ok_or(FaultKind::WrongKind)
}

/// The name of a symbol.
pub(crate) fn symbol_argument(value: &Value) -> Result<&[u8], FaultKind>
    ensures ok { IfOk result (λ name. symbol_argument value.now ≡ Ok name.now) }
    ensures err { IfErr result (λ kind. symbol_argument value.now ≡ Err kind) }
{
    match value {
        Value::Sym(symbol) => Ok(symbol.as_bytes()),
        Value::Nil => Err(FaultKind::WrongKind),
        Value::Bool(_) => Err(FaultKind::WrongKind),
        Value::Whole(_) => Err(FaultKind::WrongKind),
        Value::Part(_) => Err(FaultKind::WrongKind),
        Value::Text(_) => Err(FaultKind::WrongKind),
        Value::Ring(_) => Err(FaultKind::WrongKind),
    }
}

/// A whole number that need not be given.
pub(crate) fn whole_or(other: Integer, value: Option<&Value>) -> Result<Integer, FaultKind>
    ensures { result ≡ whole_or other (option_copied value.entry) }
{
    match value {
        None => Ok(other),
        Some(value) => whole_argument(value),
    }
}

/// A number that need not be given.
pub(crate) fn number_or(other: Frac, value: Option<&Value>) -> Result<Frac, FaultKind>
    ensures { result ≡ number_or other (option_copied value.entry) }
{
    match value {
        None => Ok(other),
        Some(value) => number_argument(value),
    }
}

/// A whole number from the least to the greatest.
pub(crate) fn between(least: u32, greatest: u32, number: Integer) -> Result<u32, FaultKind>
    ensures { result ≡ between least greatest number }
{
    let n = number.get();
    if n < i64::from(least) || n > i64::from(greatest) {
        return Err(FaultKind::BadValue);
    }
    Ok(n as u32)
}
