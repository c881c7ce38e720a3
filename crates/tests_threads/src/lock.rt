//! The turn lock: seats split to single numbers and joined again, and the turns of four threads.
ghost use Rattle.std.specs.Prelude.{◌≡◌, ◌<◌, ◌≤◌, ◌+◌, ◌-◌, ◌/◌, false};
ghost use Rattle.std.specs.Thread.{IsSync};
ghost use Rattle.vt_lock.specs.Numbers.{numbers_from, occurrences};

use crate::counter::{Counter, Entry};
use std::alloc::Global;
use std::sync::Wait;
use std::test::Fail;
use std::thread::{Threads, join};
use vt_frac::NoMemory;
use vt_lock::{Seat, Turns};

const TURNS_EACH: u64 = 1000;

// One turn of a worker.
fn count<X: Wait>(
    rt: &X,
    turns: &Turns<Counter>,
    seat: &mut Seat<Counter>,
    worker: u64,
    before: u64,
) -> bool
    requires own { seat.old.lock ≡ turns.now }
    requires free { seat.old.has_turn ≡ false }
    requires speaks { 0 < occurrences worker seat.old.numbers }
    ensures { seat.new ≡ record seat.old { seen = seat.new.seen } }
{
    let mut counter = turns.take(rt, seat);
    let added = counter.add(worker, before);
    turns.give(seat, counter);
    added
}

// The turns of a worker, one after another.
fn count_often<X: Wait>(
    rt: &X,
    turns: &Turns<Counter>,
    seat: &mut Seat<Counter>,
    worker: u64,
) -> bool
    requires own { seat.old.lock ≡ turns.now }
    requires free { seat.old.has_turn ≡ false }
    requires speaks { 0 < occurrences worker seat.old.numbers }
    ensures { seat.new ≡ record seat.old { seen = seat.new.seen } }
{
    for before in 0..TURNS_EACH {
        if !count(rt, turns, seat, worker, before) {
            return false;
        }
    }
    true
}

// A seat for the first half of the numbers, and one for the rest.
fn halve(
    alloc: Global,
    turns: &Turns<Counter>,
    seat: Seat<Counter>,
    first: u64,
    span: u64,
) -> (Seat<Counter>, Seat<Counter>)
    requires own { seat.lock ≡ turns.now }
    requires free { seat.has_turn ≡ false }
    requires numbers { seat.numbers ≡ numbers_from first span }
    requires two { 1 < span }
    ensures first { result.0 ≡ record seat { numbers = numbers_from first ((span + 1) / 2) } }
    ensures second { result.1 ≡ record seat { numbers = numbers_from (first + (span + 1) / 2) (span - (span + 1) / 2) } }
{
    match turns.split(alloc, seat) {
        Ok(seats) => seats,
        Err(_) => unreachable!(),
    }
}

// One seat again for the numbers of both.
fn unite(
    turns: &Turns<Counter>,
    a: Seat<Counter>,
    b: Seat<Counter>,
    first: u64,
    span: u64,
) -> Seat<Counter>
    requires own { (a.lock ≡ turns.now) × (b.lock ≡ turns.now) }
    requires free { (a.has_turn ≡ false) × (b.has_turn ≡ false) }
    requires first { a.numbers ≡ numbers_from first ((span + 1) / 2) }
    requires second { b.numbers ≡ numbers_from (first + (span + 1) / 2) (span - (span + 1) / 2) }
    ensures { result ≡ record a { seen = result.seen; numbers = numbers_from first span } }
{
    turns.join(a, b)
}

// Each of the numbers counts once, in their order, by a seat of its own.
fn count_by_each<X: Wait>(
    rt: &X,
    alloc: Global,
    turns: &Turns<Counter>,
    mut seat: Seat<Counter>,
    first: u64,
    span: u64,
) -> (Seat<Counter>, bool)
    requires own { seat.lock ≡ turns.now }
    requires free { seat.has_turn ≡ false }
    requires numbers { seat.numbers ≡ numbers_from first span }
    requires span { (0 < span) × (first + span ≤ 64) }
    ensures { result.0 ≡ record seat { seen = result.0.seen } }
{
    if span == 1 {
        let counted = count(rt, turns, &mut seat, first, 0);
        return (seat, counted);
    }
    let half = (span + 1) / 2;
    let (a, b) = halve(alloc, turns, seat, first, span);
    let (a, one) = count_by_each(rt, alloc, turns, a, first, half);
    let (b, two) = count_by_each(rt, alloc, turns, b, first + half, span - half);
    (unite(turns, a, b, first, span), one && two)
}

// Each 16 of the numbers count by a thread of their own, under the first number of these.
fn count_by_threads<X: Threads + Wait + Sync>(
    rt: &X,
    alloc: Global,
    turns: &Turns<Counter>,
    mut seat: Seat<Counter>,
    first: u64,
    span: u64,
) -> (Seat<Counter>, bool)
    requires own { seat.lock ≡ turns.now }
    requires free { seat.has_turn ≡ false }
    requires numbers { seat.numbers ≡ numbers_from first span }
    requires span { (0 < span) × (first + span ≤ 64) }
    ensures { result.0 ≡ record seat { seen = result.0.seen } }
{
    if span <= 16 {
        let counted = count_often(rt, turns, &mut seat, first);
        return (seat, counted);
    }
    let half = (span + 1) / 2;
    let (a, b) = halve(alloc, turns, seat, first, span);
    let (one, two) = join(
        rt,
        move || -> (Seat<Counter>, bool)
            requires { IsSync X.row × (a.lock ≡ turns.now) × (a.has_turn ≡ false) × (a.numbers ≡ numbers_from first half) × ((0 < half) × (first + half ≤ 64)) }
            ensures { result.0 ≡ record a { seen = result.0.seen } }
        { count_by_threads(rt, alloc, turns, a, first, half) },
        move || -> (Seat<Counter>, bool)
            requires { IsSync X.row × (b.lock ≡ turns.now) × (b.has_turn ≡ false) × (b.numbers ≡ numbers_from (first + half) (span - half)) × ((0 < span - half) × (first + half + (span - half) ≤ 64)) }
            ensures { result.0 ≡ record b { seen = result.0.seen } }
        { count_by_threads(rt, alloc, turns, b, first + half, span - half) },
    );
    (unite(turns, one.0, two.0, first, span), one.1 && two.1)
}

// The counter after one count of each number, and whether none wanted memory.
fn counted_by_each<X: Wait>(rt: &X, alloc: Global) -> Result<(Counter, bool), NoMemory> {
    let (turns, seat) = Turns::make(alloc, Counter::new(alloc, 7))?;
    let (seat, counted) = count_by_each(rt, alloc, &turns, seat, 0, 64);
    Ok((turns.close(seat), counted))
}

// The counter after the counts of four threads, and whether none wanted memory.
fn counted_by_threads<X: Threads + Wait + Sync>(
    rt: &X,
    alloc: Global,
) -> Result<(Counter, bool), NoMemory> {
    let (turns, seat) = Turns::make(alloc, Counter::new(alloc, 7))?;
    let (seat, counted) = count_by_threads(rt, alloc, &turns, seat, 0, 64);
    Ok((turns.close(seat), counted))
}

// How many entries are of the worker, where its counts rise by one from 0.
fn counts_in_order(log: &[Entry], worker: u64) -> Option<u64> {
    let mut count = 0u64;
    for entry in log {
        if entry.worker == worker {
            if entry.before != count {
                return None;
            }
            count = count.wrapping_add(1);
        }
    }
    Some(count)
}

#[test]
fn seats_split_to_single_numbers_and_join_again(rt: HostRuntime) -> Result<(), Fail> {
    let (counter, counted) = counted_by_each(&rt, rt.alloc())?;
    assert!(rt; counted && counter.name == 7 && counter.log.len() == 64);
    let mut next = 0u64;
    for entry in counter.log.iter() {
        assert_eq!(rt; entry.worker, next);
        next = next.wrapping_add(1);
    }
    Ok(())
}

#[test]
fn four_threads_take_turns(rt: HostRuntime) -> Result<(), Fail> {
    let (counter, counted) = counted_by_threads(&rt, rt.alloc())?;
    assert!(rt; counted && counter.name == 7 && counter.log.len() == 4000);
    for worker in [0, 16, 32, 48] {
        assert_eq!(rt; counts_in_order(counter.log.as_slice(), worker), Some(1000));
    }
    Ok(())
}
