//! Lists that are made of copies of values.

ghost use Rattle.std.specs.Prelude.{◌≡◌, ◌++◌, IfOk, OnOk, replicate, reverse};
ghost use Rattle.vt_ring.specs.Limits.{within_limits};
ghost use Rattle.vt_value.specs.Answers.{Gives};

use crate::within::{is_within, is_within_backwards};
use std::alloc::Global;
use vt_frac::NoMemory;
use vt_value::{FaultKind, Items, Value, ValueFault};

/// Appends a copy of each value.
pub(crate) fn push_copies(
    alloc: Global,
    items: &mut Items,
    values: &[Value],
) -> Result<(), NoMemory>
    ensures { OnOk result (items.new ≡ items.old ++ values.now) }
{
    for value in values {
        items.push(value.copy(alloc)?)?;
    }
    Ok(())
}

/// Appends a copy of each value, from the last to the first.
fn push_backwards(alloc: Global, items: &mut Items, values: &[Value]) -> Result<(), NoMemory>
    ensures { OnOk result (items.new ≡ items.old ++ reverse values.now) }
{
    let mut left = values;
    while let Some((last, prefix)) = left.split_last() {
        items.push(last.copy(alloc)?)?;
        left = prefix;
    }
    Ok(())
}

/// Appends so many copies of a value.
pub(crate) fn push_times(
    alloc: Global,
    items: &mut Items,
    value: &Value,
    times: u64,
) -> Result<(), NoMemory>
    ensures { OnOk result (items.new ≡ items.old ++ replicate times value.now) }
{
    for _made in 0..times {
        items.push(value.copy(alloc)?)?;
    }
    Ok(())
}

/// The items of both, or `TooLarge`.
pub(crate) fn joined(alloc: Global, prefix: &[Value], rest: &[Value]) -> Result<Items, ValueFault>
    ensures { Gives (within_limits (prefix.now ++ rest.now)) result }
{
    if !is_within(prefix, rest) {
        return Err(ValueFault::Fault(FaultKind::TooLarge));
    }
    let items = copies_of_both(alloc, prefix, rest)?;
    Ok(items)
}

fn copies_of_both(alloc: Global, prefix: &[Value], rest: &[Value]) -> Result<Items, NoMemory>
    ensures { IfOk result (λ items. items ≡ prefix.now ++ rest.now) }
{
    let mut items = Items::new(alloc);
    push_copies(alloc, &mut items, prefix)?;
    push_copies(alloc, &mut items, rest)?;
    Ok(items)
}

/// The items of the prefix, and then the others from its last to its first, or `TooLarge`.
pub(crate) fn joined_backwards(
    alloc: Global,
    prefix: &[Value],
    rest: &[Value],
) -> Result<Items, ValueFault>
    ensures { Gives (within_limits (prefix.now ++ reverse rest.now)) result }
{
    if !is_within_backwards(prefix, rest) {
        return Err(ValueFault::Fault(FaultKind::TooLarge));
    }
    let items = there_and_back(alloc, prefix, rest)?;
    Ok(items)
}

fn there_and_back(alloc: Global, prefix: &[Value], rest: &[Value]) -> Result<Items, NoMemory>
    ensures { IfOk result (λ items. items ≡ prefix.now ++ reverse rest.now) }
{
    let mut items = Items::new(alloc);
    push_copies(alloc, &mut items, prefix)?;
    push_backwards(alloc, &mut items, rest)?;
    Ok(items)
}
