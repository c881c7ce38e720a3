//! The call `pick`.

ghost use Rattle.std.specs.Prelude.{◌≡◌, ◌+◌, ◌-◌, ◌^◌, ◌<◌, ◌≤◌, min, length, IfOk};
ghost use Rattle.vt_value.specs.Answers.{Gives};
ghost use Rattle.vt_value.specs.Sizes.{sizes_of};
ghost use Rattle.vt_ring.specs.Limits.{within_limits};
ghost use Rattle.vt_ring.specs.RandomCalls.{choices, is_above_zero, pick_call};
ghost use Rattle.vt_ring.specs.Streams.{moved_on, words_from};

use crate::arguments::{between, one_or_two, ring_argument, whole_or};
use crate::draws::{chosen, copy_of, next_word};
use crate::signatures::integer;
use std::alloc::Global;
use vt_frac::NoMemory;
use vt_rand::Stream;
use vt_value::{FaultKind, Integer, Items, MAX_SIZE, Value, ValueFault};

/// `pick r`, `pick r, n`
#[tactic(auto, unfolding(vt_ring::specs::RandomCalls::pick_call))]
pub(crate) fn pick_call(
    alloc: Global,
    args: &[Value],
    stream: &mut Stream,
) -> Result<Value, ValueFault>
    ensures value { Gives (pick_call args.now (words_from stream.old)).answer result }
    ensures drawn { stream.new ≡ moved_on (pick_call args.now (words_from stream.old)).drawn stream.old }
{
    let (r, n) = one_or_two(args)?;
    let items = ring_argument(r)?;
    let number = whole_or(integer(1), n)?;
    if items.is_empty() && is_above_zero(number) {
        return Err(ValueFault::Fault(FaultKind::EmptyRing));
    }
    let count = between(0, 4096, number)?;
    let list = picked(alloc, items, stream, count)?;
    Ok(Value::Ring(list))
}

/// So many choices. The words are drawn before memory is taken, and once more from a copy of the stream for the copies of the items.
fn picked(
    alloc: Global,
    items: &[Value],
    stream: &mut Stream,
    count: u32,
) -> Result<Items, ValueFault>
    requires some { 0 < count → 0 < length items.now }
    requires few { count ≤ 4096 }
    ensures value { Gives (within_limits (choices items.now (words_from stream.old) count)) result }
    ensures drawn { stream.new ≡ moved_on count stream.old }
{
    let mut words = copy_of(stream);
    let size = size_of_choices(stream, items, count);
    if size >= MAX_SIZE {
        return Err(ValueFault::Fault(FaultKind::TooLarge));
    }
    let list = copies_of_choices(alloc, &mut words, items, count)?;
    Ok(list)
}

fn is_above_zero(number: Integer) -> bool
    ensures { result ≡ is_above_zero number }
{
    number.get() > 0
}

/// The sizes of so many choices together, at most `2^64 - 1`.
fn size_of_choices(stream: &mut Stream, items: &[Value], count: u32) -> u64
    requires { 0 < count → 0 < length items.now }
    ensures value { result ≡ min (2 ^ 64 - 1) (sizes_of (choices items.now (words_from stream.old) count)) }
    ensures drawn { stream.new ≡ moved_on count stream.old }
{
    let mut total: u64 = 0;
    for _k in 0..count {
        let word = next_word(stream);
        total = total.saturating_add(chosen(items, word).size());
    }
    total
}

/// So many choices.
fn copies_of_choices(
    alloc: Global,
    words: &mut Stream,
    items: &[Value],
    count: u32,
) -> Result<Items, NoMemory>
    requires { 0 < count → 0 < length items.now }
    ensures { IfOk result (λ list. list ≡ choices items.now (words_from words.old) count) }
{
    let mut list = Items::new(alloc);
    for _k in 0..count {
        let word = next_word(words);
        list.push(chosen(items, word).copy(alloc)?)?;
    }
    Ok(list)
}
