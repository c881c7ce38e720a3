//! The calls that give parts of a ring, or turn or repeat one.

ghost use Rattle.std.specs.Prelude.{◌≡◌};
ghost use Rattle.vt_value.specs.Answers.{Gives};
ghost use Rattle.vt_ring.specs.Called.{as_ring};
ghost use Rattle.vt_ring.specs.Turning.{rotate_of};
ghost use Rattle.vt_ring.specs.PartCalls.{butlast_call, drop_call, drop_last_call, drop_last_of, first_call, last_call, mirror_call, reflect_call, repeat_call, reverse_call, rotate_call, stretch_call, take_call, take_last_call, take_last_of};

use crate::arguments::{one_or_two, ring_argument, whole_or};
use crate::lists::{copies_within, copy_of_item, count_from, prefix_of, rest_of};
use crate::signatures::{a_ring, a_ring_and_a_whole, integer};
use std::alloc::Global;
use vt_ring::{drop_first, mirror, reflect, repeat, reverse, rotate, stretch, take};
use vt_value::{Integer, Items, Value, ValueFault};

/// `take r, n`
#[tactic(auto, unfolding(vt_ring::specs::PartCalls::take_call))]
pub(crate) fn take_call(alloc: Global, args: &[Value]) -> Result<Value, ValueFault>
    ensures { Gives (take_call args.now) result }
{
    let (items, n) = a_ring_and_a_whole(args)?;
    let list = take(alloc, items, n)?;
    Ok(Value::Ring(list))
}

/// `drop r, n`
#[tactic(auto, unfolding(vt_ring::specs::PartCalls::drop_call))]
pub(crate) fn drop_call(alloc: Global, args: &[Value]) -> Result<Value, ValueFault>
    ensures { Gives (drop_call args.now) result }
{
    let (items, n) = a_ring_and_a_whole(args)?;
    let list = drop_first(alloc, items, n)?;
    Ok(Value::Ring(list))
}

/// `take_last r, n`
#[tactic(auto, unfolding(vt_ring::specs::PartCalls::take_last_call))]
pub(crate) fn take_last_call(alloc: Global, args: &[Value]) -> Result<Value, ValueFault>
    ensures { Gives (take_last_call args.now) result }
{
    let (items, n) = a_ring_and_a_whole(args)?;
    let list = take_last(alloc, items, n)?;
    Ok(Value::Ring(list))
}

/// `drop_last r, n`
#[tactic(auto, unfolding(vt_ring::specs::PartCalls::drop_last_call))]
pub(crate) fn drop_last_call(alloc: Global, args: &[Value]) -> Result<Value, ValueFault>
    ensures { Gives (drop_last_call args.now) result }
{
    let (items, n) = a_ring_and_a_whole(args)?;
    let list = drop_last(alloc, items, n)?;
    Ok(Value::Ring(list))
}

/// `stretch r, n`
#[tactic(auto, unfolding(vt_ring::specs::PartCalls::stretch_call))]
pub(crate) fn stretch_call(alloc: Global, args: &[Value]) -> Result<Value, ValueFault>
    ensures { Gives (stretch_call args.now) result }
{
    let (items, n) = a_ring_and_a_whole(args)?;
    let list = stretch(alloc, items, n)?;
    Ok(Value::Ring(list))
}

/// `repeat r, n`
#[tactic(auto, unfolding(vt_ring::specs::PartCalls::repeat_call))]
pub(crate) fn repeat_call(alloc: Global, args: &[Value]) -> Result<Value, ValueFault>
    ensures { Gives (repeat_call args.now) result }
{
    let (items, n) = a_ring_and_a_whole(args)?;
    let list = repeat(alloc, items, n)?;
    Ok(Value::Ring(list))
}

/// `rotate r`, `rotate r, n`
#[tactic(auto, unfolding(vt_ring::specs::PartCalls::rotate_call))]
pub(crate) fn rotate_call(alloc: Global, args: &[Value]) -> Result<Value, ValueFault>
    ensures { Gives (rotate_call args.now) result }
{
    let (r, n) = one_or_two(args)?;
    let items = ring_argument(r)?;
    let number = whole_or(integer(1), n)?;
    rotated(alloc, items, number)
}

/// `reverse r`
#[tactic(auto, unfolding(vt_ring::specs::PartCalls::reverse_call))]
pub(crate) fn reverse_call(alloc: Global, args: &[Value]) -> Result<Value, ValueFault>
    ensures { Gives (reverse_call args.now) result }
{
    let items = a_ring(args)?;
    let list = reverse(alloc, items)?;
    Ok(Value::Ring(list))
}

/// `mirror r`
#[tactic(auto, unfolding(vt_ring::specs::PartCalls::mirror_call))]
pub(crate) fn mirror_call(alloc: Global, args: &[Value]) -> Result<Value, ValueFault>
    ensures { Gives (mirror_call args.now) result }
{
    let items = a_ring(args)?;
    let list = mirror(alloc, items)?;
    Ok(Value::Ring(list))
}

/// `reflect r`
#[tactic(auto, unfolding(vt_ring::specs::PartCalls::reflect_call))]
pub(crate) fn reflect_call(alloc: Global, args: &[Value]) -> Result<Value, ValueFault>
    ensures { Gives (reflect_call args.now) result }
{
    let items = a_ring(args)?;
    let list = reflect(alloc, items)?;
    Ok(Value::Ring(list))
}

/// `butlast r`
#[tactic(auto, unfolding(vt_ring::specs::PartCalls::butlast_call))]
pub(crate) fn butlast_call(alloc: Global, args: &[Value]) -> Result<Value, ValueFault>
    ensures { Gives (butlast_call args.now) result }
{
    let items = a_ring(args)?;
    let list = copies_within(alloc, prefix_of(items, items.len().saturating_sub(1)))?;
    Ok(Value::Ring(list))
}

/// `first r`
#[tactic(auto, unfolding(vt_ring::specs::PartCalls::first_call))]
pub(crate) fn first_call(alloc: Global, args: &[Value]) -> Result<Value, ValueFault>
    ensures { Gives (first_call args.now) result }
{
    let items = a_ring(args)?;
    copy_of_item(alloc, items.get(0))
}

/// `last r`
#[tactic(auto, unfolding(vt_ring::specs::PartCalls::last_call))]
pub(crate) fn last_call(alloc: Global, args: &[Value]) -> Result<Value, ValueFault>
    ensures { Gives (last_call args.now) result }
{
    let items = a_ring(args)?;
    copy_of_item(alloc, items.get(items.len().saturating_sub(1)))
}

/// The last items, so many.
fn take_last(alloc: Global, items: &[Value], n: i64) -> Result<Items, ValueFault>
    ensures { Gives (take_last_of items.now n) result }
{
    let count = count_from(n)?;
    copies_within(alloc, rest_of(items, items.len().saturating_sub(count)))
}

/// All but so many of the last items.
fn drop_last(alloc: Global, items: &[Value], n: i64) -> Result<Items, ValueFault>
    ensures { Gives (drop_last_of items.now n) result }
{
    let count = count_from(n)?;
    copies_within(alloc, prefix_of(items, items.len().saturating_sub(count)))
}

/// The ring of the items, turned.
fn rotated(alloc: Global, items: &[Value], number: Integer) -> Result<Value, ValueFault>
    ensures { Gives (as_ring (rotate_of items.now number)) result }
{
    let list = rotate(alloc, items, number.get())?;
    Ok(Value::Ring(list))
}
