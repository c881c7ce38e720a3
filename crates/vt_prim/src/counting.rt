//! The calls that count and sum the items of a ring.

ghost use Rattle.std.specs.Prelude.{◌≡◌, pos, length, is_some};
ghost use Rattle.std.specs.List.{list_all};
ghost use Rattle.vt_value.specs.Answers.{Gives};
ghost use Rattle.vt_value.specs.Kinds.{number_of};
ghost use Rattle.vt_ring.specs.CountCalls.{added_up, are_numbers, count_call, length_call, size_call, sum_call};
ghost use Rattle.vt_prim.specs.private.Adding.{answer_of, value_of};

use crate::adding::{Number, plus, value_of};
use crate::signatures::{a_ring, integer};
use vt_value::{FaultKind, Integer, Value, ValueFault};

/// `length r`
#[tactic(auto, unfolding(vt_ring::specs::CountCalls::length_call))]
pub(crate) fn length_call(args: &[Value]) -> Result<Value, ValueFault>
    ensures { Gives (length_call args.now) result }
{
    let items = a_ring(args)?;
    Ok(Value::Whole(count_of(items)))
}

/// `size r`
#[tactic(auto, unfolding(vt_ring::specs::CountCalls::size_call))]
pub(crate) fn size_call(args: &[Value]) -> Result<Value, ValueFault>
    ensures { Gives (size_call args.now) result }
{
    let items = a_ring(args)?;
    Ok(Value::Whole(count_of(items)))
}

/// `count r`
#[tactic(auto, unfolding(vt_ring::specs::CountCalls::count_call))]
pub(crate) fn count_call(args: &[Value]) -> Result<Value, ValueFault>
    ensures { Gives (count_call args.now) result }
{
    let items = a_ring(args)?;
    Ok(Value::Whole(count_of(items)))
}

/// `sum r`
#[tactic(auto, unfolding(vt_ring::specs::CountCalls::sum_call))]
pub(crate) fn sum_call(args: &[Value]) -> Result<Value, ValueFault>
    ensures { Gives (sum_call args.now) result }
{
    let items = a_ring(args)?;
    if !are_numbers(items) {
        return Err(ValueFault::Fault(FaultKind::WrongKind));
    }
    let sum = added_up(Number::Whole(integer(0)), items)?;
    Ok(value_of(sum))
}

/// The number of items.
fn count_of(items: &[Value]) -> Integer
    ensures { result ≡ pos (length items.now) }
{
    match Integer::new(items.len() as i64) {
        Some(count) => count,
        None => unreachable!(),
    }
}

/// Every item is a number.
pub(crate) fn are_numbers(items: &[Value]) -> bool
    ensures { result ≡ are_numbers items.now }
{
    items.iter().all(|item| is_number(item))
}

fn is_number(item: &Value) -> bool
    ensures { result ≡ is_some (number_of item.now) }
{
    item.number().is_some()
}

/// A number, and to it one item after the other.
fn added_up(number: Number, items: &[Value]) -> Result<Number, FaultKind>
    ensures { answer_of result ≡ added_up (value_of number) items.now }
{
    let mut total = number;
    let mut rest = items;
    while let Some((first, behind)) = rest.split_first() {
        total = plus(total, first)?;
        rest = behind;
    }
    Ok(total)
}
