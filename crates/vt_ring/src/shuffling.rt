//! The call `shuffle`, over the words that it draws.

ghost use Rattle.std.specs.Prelude.{◌≡◌, ◌+◌, ◌<◌, ◌≤◌, length, IfOk};
ghost use Rattle.vt_rand.specs.Draw.{below_of};
ghost use Rattle.vt_ring.specs.Shuffling.{shuffle_of, shuffled_by};
ghost use Rattle.vt_value.specs.Answers.{Gives};

use crate::copies::push_copies;
use crate::within::is_within;
use std::alloc::Global;
use vt_frac::NoMemory;
use vt_value::{FaultKind, Items, Value, ValueFault};

/// The items in an order that the words choose: for each index i from the last down to 1 item i is exchanged with item `floor(word * (i + 1) / 2^32)`, by the next word. `TooLarge` above the limits.
pub fn shuffled(alloc: Global, items: &[Value], words: &[u32]) -> Result<Items, ValueFault>
    requires { length items.now ≤ length words.now + 1 }
    ensures { Gives (shuffle_of items.now words.now) result }
{
    if !is_within(items, &[]) {
        return Err(ValueFault::Fault(FaultKind::TooLarge));
    }
    let list = exchanged_copies(alloc, items, words)?;
    Ok(list)
}

fn exchanged_copies(alloc: Global, items: &[Value], words: &[u32]) -> Result<Items, NoMemory>
    requires few { length items.now ≤ 4096 }
    requires words { length items.now ≤ length words.now + 1 }
    ensures { IfOk result (λ list. list ≡ shuffled_by items.now words.now) }
{
    let mut list = Items::new(alloc);
    push_copies(alloc, &mut list, items)?;
    let mut list = list.into_vec();
    exchange_all(list.as_mut_slice(), words);
    Ok(Items::from_vec(list))
}

/// For each index from the last down to 1 an exchange, by the next word.
fn exchange_all(items: &mut [Value], words: &[u32])
    requires few { length items.old ≤ 4096 }
    requires words { length items.old ≤ length words.now + 1 }
    ensures { items.new ≡ shuffled_by items.old words.now }
{
    let mut last = items.len();
    for word in words {
        if last <= 1 {
            break;
        }
        last -= 1;
        items.swap(last, below(*word, last + 1));
    }
}

/// One of the numbers below n, which a word chooses.
fn below(word: u32, n: usize) -> usize
    requires some { 1 ≤ n }
    requires few { n ≤ 4096 }
    ensures value { result ≡ below_of word n }
    ensures below { result < n }
{
    ((u64::from(word) * n as u64) >> 32) as usize
}
