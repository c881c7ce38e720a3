//! The calls `take` and `drop`.

ghost use Rattle.std.specs.Prelude.{◌≡◌, drop, take};
ghost use Rattle.vt_ring.specs.TakeAndDrop.{drop_of, take_of};
ghost use Rattle.vt_value.specs.Answers.{Gives};

use crate::arguments::count_from;
use crate::copies::joined;
use std::alloc::Global;
use vt_value::{Items, Value, ValueFault};

/// The first n items, or all where there are no more. `BadValue` where n is below 0, `TooLarge` above the limits.
pub fn take(alloc: Global, items: &[Value], n: i64) -> Result<Items, ValueFault>
    ensures { Gives (take_of items.now n) result }
{
    match count_from(n) {
        Err(kind) => Err(ValueFault::Fault(kind)),
        Ok(count) => joined(alloc, prefix_of(items, count), &[]),
    }
}

/// All but the first n items, or none where there are no more. `BadValue` where n is below 0, `TooLarge` above the limits.
pub fn drop_first(alloc: Global, items: &[Value], n: i64) -> Result<Items, ValueFault>
    ensures { Gives (drop_of items.now n) result }
{
    match count_from(n) {
        Err(kind) => Err(ValueFault::Fault(kind)),
        Ok(count) => joined(alloc, back_of(items, count), &[]),
    }
}

fn prefix_of(items: &[Value], count: u64) -> &[Value]
    ensures { result.now ≡ take count items.now }
{
    &items[..(count as usize).min(items.len())]
}

fn back_of(items: &[Value], count: u64) -> &[Value]
    ensures { result.now ≡ drop count items.now }
{
    &items[(count as usize).min(items.len())..]
}
