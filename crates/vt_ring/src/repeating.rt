//! The calls `stretch` and `repeat`.

ghost use Rattle.std.specs.Prelude.{◌≡◌, IfOk, flat_map, replicate};
ghost use Rattle.vt_ring.specs.Repeating.{repeat_of, repeated, stretch_of, stretched};
ghost use Rattle.vt_ring.specs.Limits.{within_limits};
ghost use Rattle.vt_value.specs.Answers.{Gives};

use crate::arguments::count_from;
use crate::copies::{push_copies, push_times};
use crate::within::{is_repeated_within, is_stretched_within};
use std::alloc::Global;
use vt_frac::NoMemory;
use vt_value::{FaultKind, Items, Value, ValueFault};

/// Each item n times. `BadValue` where n is below 0, `TooLarge` above the limits.
pub fn stretch(alloc: Global, items: &[Value], n: i64) -> Result<Items, ValueFault>
    ensures { Gives (stretch_of items.now n) result }
{
    match count_from(n) {
        Err(kind) => Err(ValueFault::Fault(kind)),
        Ok(times) => stretched(alloc, items, times),
    }
}

fn stretched(alloc: Global, items: &[Value], times: u64) -> Result<Items, ValueFault>
    ensures { Gives (within_limits (stretched times items.now)) result }
{
    if !is_stretched_within(items, times) {
        return Err(ValueFault::Fault(FaultKind::TooLarge));
    }
    let list = each_times(alloc, items, times)?;
    Ok(list)
}

fn each_times(alloc: Global, items: &[Value], times: u64) -> Result<Items, NoMemory>
    ensures { IfOk result (λ list. list ≡ stretched times items.now) }
{
    let mut list = Items::new(alloc);
    for item in items {
        push_times(alloc, &mut list, item, times)?;
    }
    Ok(list)
}

/// The whole n times. `BadValue` where n is below 0, `TooLarge` above the limits.
pub fn repeat(alloc: Global, items: &[Value], n: i64) -> Result<Items, ValueFault>
    ensures { Gives (repeat_of items.now n) result }
{
    match count_from(n) {
        Err(kind) => Err(ValueFault::Fault(kind)),
        Ok(times) => repeated(alloc, items, times),
    }
}

fn repeated(alloc: Global, items: &[Value], times: u64) -> Result<Items, ValueFault>
    ensures { Gives (within_limits (repeated times items.now)) result }
{
    if !is_repeated_within(items, times) {
        return Err(ValueFault::Fault(FaultKind::TooLarge));
    }
    let list = whole_times(alloc, items, times)?;
    Ok(list)
}

fn whole_times(alloc: Global, items: &[Value], times: u64) -> Result<Items, NoMemory>
    ensures { IfOk result (λ list. list ≡ repeated times items.now) }
{
    let mut list = Items::new(alloc);
    if items.is_empty() {
        return Ok(list);
    }
    for _made in 0..times {
        push_copies(alloc, &mut list, items)?;
    }
    Ok(list)
}
