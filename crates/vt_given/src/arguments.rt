//! What calls take: how many arguments, and of which kinds.

ghost use Rattle.std.specs.Prelude.{◌≡◌, Ok, Err, IfOk, IfErr};
ghost use Rattle.std.specs.Option.{option_copied};
ghost use Rattle.vt_ring.specs.Signatures.{a_number, a_ring, a_whole, number_argument, one_of, one_or_none_of, one_or_two_of, option_named, ring_argument, symbol_argument, two_of};
ghost use Rattle.vt_run.specs.calls.Arguments.{a_symbol};

use vt_frac::{Frac, Name};
use vt_ring::whole_argument;
use vt_value::{FaultKind, Integer, Symbol, Value};

/// The one argument.
pub fn one(args: &[Value]) -> Result<&Value, FaultKind>
    ensures ok { IfOk result (λ a. one_of args.now ≡ Ok a.now) }
    ensures err { IfErr result (λ kind. one_of args.now ≡ Err kind) }
{
    match args {
        [a] => Ok(a),
        _ => Err(FaultKind::WrongCount),
    }
}

/// The one argument, if there is one.
pub fn one_or_none(args: &[Value]) -> Result<Option<&Value>, FaultKind>
    ensures ok { IfOk result (λ a. one_or_none_of args.now ≡ Ok (option_copied a)) }
    ensures err { IfErr result (λ kind. one_or_none_of args.now ≡ Err kind) }
{
    match args {
        [] => Ok(None),
        [a] => Ok(Some(a)),
        _ => Err(FaultKind::WrongCount),
    }
}

/// The two arguments.
pub fn two(args: &[Value]) -> Result<(&Value, &Value), FaultKind>
    ensures ok { IfOk result (λ a. two_of args.now ≡ Ok (a.0.now, a.1.now)) }
    ensures err { IfErr result (λ kind. two_of args.now ≡ Err kind) }
{
    match args {
        [a, b] => Ok((a, b)),
        _ => Err(FaultKind::WrongCount),
    }
}

/// The first argument, and the second if there is one.
pub fn one_or_two(args: &[Value]) -> Result<(&Value, Option<&Value>), FaultKind>
    ensures ok { IfOk result (λ a. one_or_two_of args.now ≡ Ok (a.0.now, option_copied a.1)) }
    ensures err { IfErr result (λ kind. one_or_two_of args.now ≡ Err kind) }
{
    match args {
        [a] => Ok((a, None)),
        [a, b] => Ok((a, Some(b))),
        _ => Err(FaultKind::WrongCount),
    }
}

/// The value of the option of this name, if it is given.
pub fn option_named<'a>(name: &[u8], options: &'a [(Name, Value)]) -> Option<&'a Value>
    ensures { option_copied result ≡ option_named name.now options.now }
{
    let option = options.iter().find(|option| option.0.as_bytes() == name)?;
    Some(&option.1)
}

/// The items of a ring.
pub fn ring_argument(value: &Value) -> Result<&[Value], FaultKind>
    ensures ok { IfOk result (λ items. ring_argument value.now ≡ Ok items.now) }
    ensures err { IfErr result (λ kind. ring_argument value.now ≡ Err kind) }
{
    match value {
        Value::Ring(items) => Ok(items.as_slice()),
        Value::Nil => Err(FaultKind::WrongKind),
        Value::Bool(_) => Err(FaultKind::WrongKind),
        Value::Whole(_) => Err(FaultKind::WrongKind),
        Value::Part(_) => Err(FaultKind::WrongKind),
        Value::Sym(_) => Err(FaultKind::WrongKind),
        Value::Text(_) => Err(FaultKind::WrongKind),
    }
}

/// A number, as the fraction that it is worth.
pub fn number_argument(value: &Value) -> Result<Frac, FaultKind>
    ensures { result ≡ number_argument value.now }
{
    value.number().ok_or(FaultKind::WrongKind)
}

/// The name of a symbol.
pub fn symbol_argument(value: &Value) -> Result<&Symbol, FaultKind>
    ensures ok { IfOk result (λ name. symbol_argument value.now ≡ Ok name.now) }
    ensures err { IfErr result (λ kind. symbol_argument value.now ≡ Err kind) }
{
    match value {
        Value::Sym(symbol) => Ok(symbol),
        Value::Nil => Err(FaultKind::WrongKind),
        Value::Bool(_) => Err(FaultKind::WrongKind),
        Value::Whole(_) => Err(FaultKind::WrongKind),
        Value::Part(_) => Err(FaultKind::WrongKind),
        Value::Text(_) => Err(FaultKind::WrongKind),
        Value::Ring(_) => Err(FaultKind::WrongKind),
    }
}

/// `r`
pub fn a_ring(args: &[Value]) -> Result<&[Value], FaultKind>
    ensures ok { IfOk result (λ items. a_ring args.now ≡ Ok items.now) }
    ensures err { IfErr result (λ kind. a_ring args.now ≡ Err kind) }
{
    ring_argument(one(args)?)
}

/// `n`
pub fn a_whole(args: &[Value]) -> Result<Integer, FaultKind>
    ensures { result ≡ a_whole args.now }
{
    whole_argument(one(args)?)
}

/// `N`
pub fn a_number(args: &[Value]) -> Result<Frac, FaultKind>
    ensures { result ≡ a_number args.now }
{
    number_argument(one(args)?)
}

/// `:x`
pub fn a_symbol(args: &[Value]) -> Result<&Symbol, FaultKind>
    ensures ok { IfOk result (λ name. a_symbol args.now ≡ Ok name.now) }
    ensures err { IfErr result (λ kind. a_symbol args.now ≡ Err kind) }
{
    symbol_argument(one(args)?)
}
