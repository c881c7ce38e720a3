//! The calls that make rings.

ghost use Rattle.std.specs.Prelude.{◌≡◌, pos, Ok, Err, IfOk, IfErr, IsTrue};
ghost use Rattle.std.specs.Option.{option_copied};
ghost use Rattle.vt_frac.specs.Fraction.{whole};
ghost use Rattle.vt_ring.specs.Signatures.{number_or};
ghost use Rattle.vt_value.specs.Answers.{Gives};
ghost use Rattle.vt_value.specs.Kinds.{number_of, ring_of};
ghost use Rattle.vt_ring.specs.MakeCalls.{bools_call, knit_call, line_call, may_be_whole, one_step, range_call, ring_call, ring_of_one, spread_call};

use crate::arguments::{number_argument, number_or, option_named, two_or_three, whole_or};
use crate::lists::copies_within;
use crate::signatures::{integer, one_whole, two_numbers, two_wholes};
use std::alloc::Global;
use vt_frac::{Frac, Name};
use vt_ring::{bools, knit, line, range, spread};
use vt_value::{FaultKind, Value, ValueFault};

/// `ring V..`
#[tactic(auto, unfolding(vt_ring::specs::MakeCalls::ring_call))]
pub(crate) fn ring_call(alloc: Global, args: &[Value]) -> Result<Value, ValueFault>
    ensures { Gives (ring_call args.now) result }
{
    match args {
        [Value::Ring(items)] => Ok(Value::Ring(items.copy(alloc)?)),
        _ => {
            let list = copies_within(alloc, args)?;
            Ok(Value::Ring(list))
        }
    }
}

/// `knit V, n, V, n..`
#[tactic(auto, unfolding(vt_ring::specs::MakeCalls::knit_call))]
pub(crate) fn knit_call(alloc: Global, args: &[Value]) -> Result<Value, ValueFault>
    ensures { Gives (knit_call args.now) result }
{
    let list = knit(alloc, args)?;
    Ok(Value::Ring(list))
}

/// `bools n..`
#[tactic(auto, unfolding(vt_ring::specs::MakeCalls::bools_call))]
pub(crate) fn bools_call(alloc: Global, args: &[Value]) -> Result<Value, ValueFault>
    ensures { Gives (bools_call args.now) result }
{
    let list = bools(alloc, args)?;
    Ok(Value::Ring(list))
}

/// `line N, N`, option `steps:`
#[tactic(auto, unfolding(vt_ring::specs::MakeCalls::line_call))]
pub(crate) fn line_call(
    alloc: Global,
    args: &[Value],
    options: &[(Name, Value)],
) -> Result<Value, ValueFault>
    ensures { Gives (line_call args.now options.now) result }
{
    let (a, b) = two_numbers(args)?;
    let steps = whole_or(integer(4), option_named(b"steps", options))?;
    let list = line(alloc, a, b, steps.get())?;
    Ok(Value::Ring(list))
}

/// `spread n, n`
#[tactic(auto, unfolding(vt_ring::specs::MakeCalls::spread_call))]
pub(crate) fn spread_call(alloc: Global, args: &[Value]) -> Result<Value, ValueFault>
    ensures { Gives (spread_call args.now) result }
{
    let (k, n) = two_wholes(args)?;
    let list = spread(alloc, k.get(), n.get())?;
    Ok(Value::Ring(list))
}

/// `range N, N`, `range N, N, N`, option `step:`
#[tactic(auto, unfolding(vt_ring::specs::MakeCalls::range_call))]
pub(crate) fn range_call(
    alloc: Global,
    args: &[Value],
    options: &[(Name, Value)],
) -> Result<Value, ValueFault>
    ensures { Gives (range_call args.now options.now) result }
{
    let (first, second, third) = two_or_three(args)?;
    let given = one_step(third, option_named(b"step", options))?;
    let a = number_argument(first)?;
    let b = number_argument(second)?;
    let step = number_or(one_whole(), given)?;
    let wholes = is_whole(first, a) && is_whole(second, b) && is_step_whole(given, step);
    let list = range(alloc, a, b, step, wholes)?;
    Ok(Value::Ring(list))
}

/// The step: the third number or the option, if one is given.
fn one_step<'a>(
    third: Option<&'a Value>,
    option: Option<&'a Value>,
) -> Result<Option<&'a Value>, FaultKind>
    ensures ok { IfOk result (λ step. one_step (option_copied third.entry) (option_copied option.entry) ≡ Ok (option_copied step)) }
    ensures err { IfErr result (λ kind. one_step (option_copied third.entry) (option_copied option.entry) ≡ Err kind) }
{
    match third {
        None => Ok(option),
        Some(third) => match option {
            None => Ok(Some(third)),
            Some(_) => Err(FaultKind::WrongCount),
        },
    }
}

/// The number is a whole one by its kind.
fn is_whole(value: &Value, number: Frac) -> bool
    requires { number_of value.now ≡ Some number }
    ensures value { result ≡ may_be_whole (Some value.now) }
    ensures one { IsTrue result → number.denom ≡ 1 }
{
    match value {
        Value::Whole(_) => true,
        Value::Nil => false,
        Value::Bool(_) => false,
        Value::Part(_) => false,
        Value::Sym(_) => false,
        Value::Text(_) => false,
        Value::Ring(_) => false,
    }
}

/// The step is a whole number by its kind, or not given.
fn is_step_whole(given: Option<&Value>, step: Frac) -> bool
    requires { number_or (whole (pos 1)) (option_copied given) ≡ Ok step }
    ensures value { result ≡ may_be_whole (option_copied given.entry) }
    ensures one { IsTrue result → step.denom ≡ 1 }
{
    match given {
        None => true,
        Some(value) => is_whole(value, step),
    }
}
