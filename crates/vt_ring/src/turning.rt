//! The calls `rotate`, `reverse`, `mirror` and `reflect`.

ghost use Rattle.std.specs.Prelude.{◌≡◌, ◌≤◌, length, drop, reverse, Err, IsOk, MatchResult};
ghost use Rattle.vt_ring.specs.Limits.{within_limits};
ghost use Rattle.vt_ring.specs.Turning.{mirror_of, moved_indices, reflect_of, reverse_of, rotate_of, turned};
ghost use Rattle.vt_value.specs.Answers.{Gives};

use crate::at::wrapped;
use crate::copies::{joined, joined_backwards};
use std::alloc::Global;
use vt_value::{FaultKind, Items, Value, ValueFault};

/// The items turned round: item i of the result is item `i + n`, counted round and round. `Overflow` where a sum `i + n` does not fit, `TooLarge` above the limits.
pub fn rotate(alloc: Global, items: &[Value], n: i64) -> Result<Items, ValueFault>
    ensures { Gives (rotate_of items.now n) result }
{
    if items.is_empty() {
        return Ok(Items::new(alloc));
    }
    match first_fault(items.len(), n) {
        Err(kind) => Err(ValueFault::Fault(kind)),
        Ok(()) => turned(alloc, items, wrapped(n, items.len())),
    }
}

/// The first fault of the sums `i + n` for each i below `count`.
fn first_fault(count: usize, n: i64) -> Result<(), FaultKind>
    ensures { MatchResult result (λ _. IsOk (moved_indices count n)) (λ kind. moved_indices count n ≡ Err kind) }
{
    if count == 0 {
        return Ok(());
    }
    if n == i64::MIN {
        return Err(FaultKind::Overflow);
    }
    let last = i128::from(n) + (count - 1) as i128;
    if last > i128::from(i64::MAX) {
        return Err(FaultKind::Overflow);
    }
    Ok(())
}

fn turned(alloc: Global, items: &[Value], at: usize) -> Result<Items, ValueFault>
    requires { at ≤ length items.now }
    ensures { Gives (within_limits (turned items.now at)) result }
{
    let (prefix, rest) = items.split_at(at);
    joined(alloc, rest, prefix)
}

/// The items backwards. `TooLarge` above the limits.
pub fn reverse(alloc: Global, items: &[Value]) -> Result<Items, ValueFault>
    ensures { Gives (reverse_of items.now) result }
{
    joined_backwards(alloc, &[], items)
}

/// The items, and then the items backwards. `TooLarge` above the limits.
pub fn mirror(alloc: Global, items: &[Value]) -> Result<Items, ValueFault>
    ensures { Gives (mirror_of items.now) result }
{
    joined_backwards(alloc, items, items)
}

/// The items, and then the items backwards without the first of these. `TooLarge` above the limits.
pub fn reflect(alloc: Global, items: &[Value]) -> Result<Items, ValueFault>
    ensures { Gives (reflect_of items.now) result }
{
    joined_backwards(alloc, items, without_last(items))
}

fn without_last(items: &[Value]) -> &[Value]
    ensures { reverse result.now ≡ drop 1 (reverse items.now) }
{
    match items.split_last() {
        Some((_last, prefix)) => prefix,
        None => items,
    }
}
