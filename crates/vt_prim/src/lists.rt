//! Lists made of the items of rings.

ghost use Rattle.std.specs.Prelude.{◌≡◌, drop, take, ok_or};
ghost use Rattle.std.specs.Option.{option_copied};
ghost use Rattle.vt_value.specs.Answers.{Gives};
ghost use Rattle.vt_value.specs.Arithmetic.{are_within};
ghost use Rattle.vt_ring.specs.Arguments.{count_from};
ghost use Rattle.vt_ring.specs.Limits.{within_limits};

use std::alloc::Global;
use vt_ring::drop_first;
use vt_value::{FaultKind, Items, MAX_ITEMS, MAX_SIZE, Value, ValueFault, sizes};

/// Copies of the items, or `TooLarge`.
pub(crate) fn copies_within(alloc: Global, items: &[Value]) -> Result<Items, ValueFault>
    ensures { Gives (within_limits items.now) result }
{
    drop_first(alloc, items, 0)
}

/// Whether a ring of the items is within the limits.
pub(crate) fn are_within(items: &[Value]) -> bool
    ensures { result ≡ are_within items.now }
{
    items.len() <= MAX_ITEMS && sizes(items) < MAX_SIZE
}

/// A whole number of at least 0.
pub(crate) fn count_from(n: i64) -> Result<usize, FaultKind>
    ensures { result ≡ count_from n }
{
    if n < 0 {
        return Err(FaultKind::BadValue);
    }
    Ok(n as usize)
}

/// The first items, so many.
pub(crate) fn prefix_of(items: &[Value], count: usize) -> &[Value]
    ensures { result.now ≡ take count items.now }
{
    &items[..count.min(items.len())]
}

/// All but so many of the first items.
pub(crate) fn rest_of(items: &[Value], count: usize) -> &[Value]
    ensures { result.now ≡ drop count items.now }
{
    &items[count.min(items.len())..]
}

/// A copy of the item, or `EmptyRing` where there is none.
pub(crate) fn copy_of_item(alloc: Global, item: Option<&Value>) -> Result<Value, ValueFault>
    ensures { Gives (ok_or (option_copied item.entry) FaultKind.EmptyRing) result }
{
    match item {
        None => Err(ValueFault::Fault(FaultKind::EmptyRing)),
        Some(item) => Ok(item.copy(alloc)?),
    }
}
