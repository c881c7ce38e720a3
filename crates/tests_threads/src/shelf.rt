//! A kept value with a lifetime and a type parameter, in two threads.
ghost use Rattle.std.specs.Prelude.{◌≡◌, ℕ, List, false, IfOk};

use crate::counter::Entry;
use std::alloc::Global;
use std::marker::Model;
use std::sync::Wait;
use std::test::Fail;
use std::thread::{Threads, join};
use vt_frac::NoMemory;
use vt_lock::{Kept, Seat, Turns};

/// Contracts see it as its text.
#[derive(Drop)]
struct Title<'t> {
    text: &'t [u8],
}

impl<'t> Model for Title<'t> {
    ghost Value = { List ℕ };

    ghost view = { λ t. t.text.now };
}

#[derive(Drop)]
struct Shelf<'t, I: Drop + Send> {
    title: Title<'t>,
    items: Vec<I>,
    log: Vec<Entry>,
}

impl<'t, I: Drop + Send> Kept for Shelf<'t, I> {
    type Key = Title<'t>;

    type Entry = Entry;

    ghost key = { λ s. s.title };

    ghost log = { λ s. s.log.items };

    ghost worker = { λ e. e.worker };
}

/// A seat beside its lock.
#[derive(Drop)]
struct Hand<'w, 't, I: Drop + Send> {
    turns: &'w Turns<Shelf<'t, I>>,
    seat: Seat<Shelf<'t, I>>,
}

// One turn, in which an item is put on the shelf.
fn put<'w, 't, I: Drop + Send, X: Wait>(
    rt: &X,
    hand: Hand<'w, 't, I>,
    item: I,
) -> Seat<Shelf<'t, I>>
    requires own { hand.seat.lock ≡ hand.turns.now }
    requires free { hand.seat.has_turn ≡ false }
    ensures { result ≡ record hand.entry.seat { seen = result.seen } }
{
    let Hand { turns, mut seat } = hand;
    let mut shelf = turns.take(rt, &mut seat);
    let _ = shelf.items.push(item);
    turns.give(&mut seat, shelf);
    seat
}

// Two threads put an item each.
fn put_both<'t, I: Drop + Send, X: Threads + Wait + Sync>(
    rt: &X,
    alloc: Global,
    text: &'t [u8],
    one: I,
    two: I,
) -> Result<Shelf<'t, I>, NoMemory>
    ensures { IfOk result (λ s. s.title ≡ text.now) }
{
    let shelf = Shelf {
        title: Title { text },
        items: Vec::new(alloc),
        log: Vec::new(alloc),
    };
    let (turns, seat) = Turns::make(alloc, shelf)?;
    let Ok((a, b)) = turns.split(alloc, seat) else {
        unreachable!()
    };
    let a = Hand {
        turns: &turns,
        seat: a,
    };
    let b = Hand {
        turns: &turns,
        seat: b,
    };
    let (a, b) = join(
        rt,
        move ||
            requires { (a.seat.lock ≡ a.turns.now) × (a.seat.has_turn ≡ false) }
            ensures { result ≡ record a.entry.seat { seen = result.seen } }
        { put(rt, a, one) },
        move ||
            requires { (b.seat.lock ≡ b.turns.now) × (b.seat.has_turn ≡ false) }
            ensures { result ≡ record b.entry.seat { seen = result.seen } }
        { put(rt, b, two) },
    );
    let seat = turns.join(a, b);
    Ok(turns.close(seat))
}

#[test]
fn a_shelf_of_any_items_is_kept(rt: HostRuntime) -> Result<(), Fail> {
    let text = [115u8, 104];
    let shelf = put_both(&rt, rt.alloc(), &text, 3u32, 4u32)?;
    assert!(rt; shelf.title.text == text.as_slice() && shelf.log.is_empty());
    let sum = shelf
        .items
        .iter()
        .fold(0u32, |sum, item| sum.wrapping_add(*item));
    assert!(rt; shelf.items.len() == 2 && sum == 7);
    Ok(())
}
