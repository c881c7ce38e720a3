//! The calls on numbers.

ghost use Rattle.std.specs.Prelude.{◌≡◌, pos};
ghost use Rattle.vt_frac.specs.Arithmetic.{floor_of};
ghost use Rattle.vt_value.specs.Answers.{Gives};
ghost use Rattle.vt_ring.specs.NumberCalls.{abs_call, ceil_call, ceiling_of, dec_call, even_call, floor_call, half, inc_call, is_even, max_call, min_call, odd_call, round_call};

use crate::arguments::{one, two};
use crate::signatures::{a_number, a_whole, integer};
use std::alloc::Global;
use vt_frac::Frac;
use vt_ring::exact_sum;
use vt_value::{ArithOp, FaultKind, Integer, OrderOp, Value, ValueFault, arith, compare};

/// `min N, N`
#[tactic(auto, unfolding(vt_ring::specs::NumberCalls::min_call))]
pub(crate) fn min_call(alloc: Global, args: &[Value]) -> Result<Value, ValueFault>
    ensures { Gives (min_call args.now) result }
{
    let (a, b) = two(args)?;
    let below = compare(OrderOp::Lt, b, a)?;
    let least = if below { b } else { a };
    Ok(least.copy(alloc)?)
}

/// `max N, N`
#[tactic(auto, unfolding(vt_ring::specs::NumberCalls::max_call))]
pub(crate) fn max_call(alloc: Global, args: &[Value]) -> Result<Value, ValueFault>
    ensures { Gives (max_call args.now) result }
{
    let (a, b) = two(args)?;
    let above = compare(OrderOp::Gt, b, a)?;
    let greatest = if above { b } else { a };
    Ok(greatest.copy(alloc)?)
}

/// `abs N`
#[tactic(auto, unfolding(vt_ring::specs::NumberCalls::abs_call))]
pub(crate) fn abs_call(alloc: Global, args: &[Value]) -> Result<Value, ValueFault>
    ensures { Gives (abs_call args.now) result }
{
    let n = one(args)?;
    let zero = Value::Whole(integer(0));
    if compare(OrderOp::Lt, n, &zero)? {
        return arith(alloc, ArithOp::Sub, &zero, n);
    }
    Ok(n.copy(alloc)?)
}

/// `inc N`
#[tactic(auto, unfolding(vt_ring::specs::NumberCalls::inc_call))]
pub(crate) fn inc_call(alloc: Global, args: &[Value]) -> Result<Value, ValueFault>
    ensures { Gives (inc_call args.now) result }
{
    arith(alloc, ArithOp::Add, one(args)?, &Value::Whole(integer(1)))
}

/// `dec N`
#[tactic(auto, unfolding(vt_ring::specs::NumberCalls::dec_call))]
pub(crate) fn dec_call(alloc: Global, args: &[Value]) -> Result<Value, ValueFault>
    ensures { Gives (dec_call args.now) result }
{
    arith(alloc, ArithOp::Sub, one(args)?, &Value::Whole(integer(1)))
}

/// `floor N`
#[tactic(auto, unfolding(vt_ring::specs::NumberCalls::floor_call))]
pub(crate) fn floor_call(args: &[Value]) -> Result<Value, ValueFault>
    ensures { Gives (floor_call args.now) result }
{
    let number = a_number(args)?;
    Ok(Value::Whole(floor_of(number)))
}

/// `ceil N`
#[tactic(auto, unfolding(vt_ring::specs::NumberCalls::ceil_call))]
pub(crate) fn ceil_call(args: &[Value]) -> Result<Value, ValueFault>
    ensures { Gives (ceil_call args.now) result }
{
    let number = a_number(args)?;
    Ok(Value::Whole(ceiling_of(number)))
}

/// `round N`
#[tactic(auto, unfolding(vt_ring::specs::NumberCalls::round_call))]
pub(crate) fn round_call(args: &[Value]) -> Result<Value, ValueFault>
    ensures { Gives (round_call args.now) result }
{
    let number = a_number(args)?;
    let above = exact_sum(number, half())?;
    Ok(Value::Whole(floor_of(above)))
}

/// `even n`
#[tactic(auto, unfolding(vt_ring::specs::NumberCalls::even_call))]
pub(crate) fn even_call(args: &[Value]) -> Result<Value, ValueFault>
    ensures { Gives (even_call args.now) result }
{
    let n = a_whole(args)?;
    Ok(Value::Bool(is_even(n)))
}

/// `odd n`
#[tactic(auto, unfolding(vt_ring::specs::NumberCalls::odd_call))]
pub(crate) fn odd_call(args: &[Value]) -> Result<Value, ValueFault>
    ensures { Gives (odd_call args.now) result }
{
    let n = a_whole(args)?;
    Ok(Value::Bool(!is_even(n)))
}

fn is_even(n: Integer) -> bool
    ensures { result ≡ is_even n }
{
    n.get().unsigned_abs() % 2 == 0
}

fn half() -> Frac
    ensures { result ≡ half }
{
    match Frac::new(1, 2) {
        Ok(fraction) => fraction,
        Err(_) => unreachable!(),
    }
}

/// The greatest whole number not above the value.
fn floor_of(number: Frac) -> Integer
    ensures { result ≡ floor_of number }
{
    match Integer::new(number.floor()) {
        Some(floor) => floor,
        None => unreachable!(),
    }
}

/// The least whole number not below the value.
#[tactic(auto, unfolding(vt_ring::specs::NumberCalls::ceiling_of))]
fn ceiling_of(number: Frac) -> Integer
    ensures { result ≡ ceiling_of number }
{
    let below = (-number.numer()).div_euclid(number.denom());
    match Integer::new(-below) {
        Some(ceiling) => ceiling,
        None => unreachable!(),
    }
}
