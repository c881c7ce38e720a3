//! The call `shuffle`.

ghost use Rattle.std.specs.Prelude.{◌≡◌, ◌-◌, length, map, IfOk};
ghost use Rattle.vt_value.specs.Answers.{Gives};
ghost use Rattle.vt_ring.specs.Items.{indices};
ghost use Rattle.vt_ring.specs.RandomCalls.{shuffle_call};
ghost use Rattle.vt_ring.specs.Shuffling.{shuffle_of};
ghost use Rattle.vt_ring.specs.Streams.{moved_on, words_from};

use crate::draws::{copy_of, next_word};
use crate::lists::are_within;
use crate::signatures::a_ring;
use std::alloc::Global;
use vt_frac::NoMemory;
use vt_rand::Stream;
use vt_ring::shuffled;
use vt_value::{FaultKind, Items, Value, ValueFault};

/// `shuffle r`
///
/// The words are drawn before memory is taken, and once more from a copy of the stream.
#[tactic(auto, unfolding(vt_ring::specs::RandomCalls::shuffle_call))]
pub(crate) fn shuffle_call(
    alloc: Global,
    args: &[Value],
    stream: &mut Stream,
) -> Result<Value, ValueFault>
    ensures value { Gives (shuffle_call args.now (words_from stream.old)).answer result }
    ensures drawn { stream.new ≡ moved_on (shuffle_call args.now (words_from stream.old)).drawn stream.old }
{
    let items = a_ring(args)?;
    let mut words = copy_of(stream);
    draw(stream, items.len().saturating_sub(1));
    let list = shuffled_by(alloc, items, &mut words)?;
    Ok(Value::Ring(list))
}

/// Draws so many words.
fn draw(stream: &mut Stream, count: usize)
    ensures { stream.new ≡ moved_on count stream.old }
{
    for _k in 0..count {
        next_word(stream);
    }
}

/// The items in the order that the next words choose.
fn shuffled_by(alloc: Global, items: &[Value], words: &mut Stream) -> Result<Items, ValueFault>
    ensures { Gives (shuffle_of items.now (map (words_from words.old) (indices (length items.now - 1)))) result }
{
    if are_within(items) {
        let list = next_words(alloc, words, items.len().saturating_sub(1))?;
        return shuffled(alloc, items, &list);
    }
    Err(ValueFault::Fault(FaultKind::TooLarge))
}

/// The next words, so many.
fn next_words(alloc: Global, words: &mut Stream, count: usize) -> Result<Vec<u32>, NoMemory>
    ensures { IfOk result (λ list. list.items ≡ map (words_from words.old) (indices count)) }
{
    let mut list = Vec::new(alloc);
    for _k in 0..count {
        list.push(next_word(words))?;
    }
    Ok(list)
}
