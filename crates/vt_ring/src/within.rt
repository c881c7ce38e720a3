//! The limits of a ring.

ghost use Rattle.std.specs.Prelude.{◌≡◌, ◌+◌, ◌*◌, ◌++◌, ◌&&◌, length, nat_le, reverse};
ghost use Rattle.vt_ring.specs.private.Knitting.{knitted};
ghost use Rattle.vt_ring.specs.Repeating.{repeated, stretched};
ghost use Rattle.vt_value.specs.Arithmetic.{are_within};
ghost use Rattle.vt_value.specs.Sizes.{sizes_of};

use crate::arguments::count_or_zero;
use vt_value::{MAX_ITEMS, MAX_SIZE, Value, sizes};

/// Whether a ring of so many items, whose sizes are so large together, is within the limits.
fn are_few(count: u64, size: u64) -> bool
    ensures { result ≡ (nat_le count 4096 && nat_le (1 + size) 65536) }
{
    count <= MAX_ITEMS as u64 && size < MAX_SIZE
}

/// Whether a ring of the items of both is within the limits.
pub(crate) fn is_within(prefix: &[Value], rest: &[Value]) -> bool
    ensures { result ≡ are_within (prefix.now ++ rest.now) }
{
    let count = (prefix.len() as u64).saturating_add(rest.len() as u64);
    let size = sizes(prefix).saturating_add(sizes(rest));
    are_few(count, size)
}

/// Whether a ring of the items of the prefix, and then the others from the last to the first, is within the limits.
pub(crate) fn is_within_backwards(prefix: &[Value], rest: &[Value]) -> bool
    ensures { result ≡ are_within (prefix.now ++ reverse rest.now) }
{
    is_within(prefix, rest)
}

/// Whether a ring of each item so many times is within the limits. Nothing is built for it.
pub(crate) fn is_stretched_within(items: &[Value], times: u64) -> bool
    ensures { result ≡ are_within (stretched times items.now) }
{
    is_within_times(items, times)
}

/// Whether a ring of the whole so many times is within the limits. Nothing is built for it.
pub(crate) fn is_repeated_within(items: &[Value], times: u64) -> bool
    ensures { result ≡ are_within (repeated times items.now) }
{
    is_within_times(items, times)
}

/// Whether so many times the items are within the limits.
fn is_within_times(items: &[Value], times: u64) -> bool
    ensures { result ≡ (nat_le (length items.now * times) 4096 && nat_le (1 + sizes_of items.now * times) 65536) }
{
    let count = (items.len() as u64).saturating_mul(times);
    let size = sizes(items).saturating_mul(times);
    are_few(count, size)
}

/// Whether a ring of the values, each as many times as the count behind it says, is within the limits. Nothing is built for it.
pub(crate) fn is_knit_within(args: &[Value]) -> bool
    ensures { result ≡ are_within (knitted args.now) }
{
    let mut count: u64 = 0;
    let mut size: u64 = 0;
    let mut left = args;
    while let [value, copies, rest @ ..] = left {
        let times = count_or_zero(copies);
        count = count.saturating_add(times);
        size = size.saturating_add(value.size().saturating_mul(times));
        left = rest;
    }
    are_few(count, size)
}
