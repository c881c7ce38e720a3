//! The lock and the calls on it.
ghost use Rattle.std.specs.Prelude.{◌≡◌, ◌<◌, ◌++◌, [], true, false, length, take, drop, Some, IfOk, IsOk};
ghost use Rattle.atomic_table.specs.Seated.{TableId};
ghost use Rattle.vt_lock.specs.Logs.{AreOfWorkers, ContinuesBy, ContinuesWithout, ShorterBegins, longer};
ghost use Rattle.vt_lock.specs.Numbers.{HasAllNumbers, all_numbers, half_of};
ghost use Rattle.vt_lock.specs.declared.view.Stage.TheVariants.{Opening};
ghost use Rattle.vt_lock.specs.private.StepsTell.{HasTaken, IsWaiting};

use crate::kept::Kept;
use crate::rule::{
    Board, Draws, IntoHalves, IntoOne, Looks, Opens, Pass, Raises, SERVING, Settles, TICKET,
    TurnTable, VALUE,
};
use crate::seat::Seat;
use atomic_table::Table;
use crossbeam_utils::Backoff;
use std::alloc::Global;
use std::marker::Model;
use std::sync::Wait;
use vt_frac::NoMemory;

/// A lock that keeps one value, which its holders take out and give back in turns.
///
/// Contracts see it as its name, which every seat of it has too. Threads share it by reference.
pub struct Turns<T: Kept> {
    table: TurnTable<T>,
}

impl<T: Kept> Model for Turns<T> {
    ghost Value = { TableId };

    ghost view = { λ t. t.table.shared.table_id };

    ghost invariant = { λ t. (t.table.shared.table_id.words ≡ 2) × (t.table.shared.table_id.slots ≡ 1) };
}

impl<T: Kept> Turns<T> {
    /// A lock that keeps the value, and a seat that speaks for all 64 worker numbers. For want of memory the value is
    /// dropped.
    pub fn make(alloc: Global, value: T) -> Result<(Turns<T>, Seat<T>), NoMemory>
        requires workers { AreOfWorkers T.worker (T.log value) }
        ensures seat { IfOk result (λ r. r.1 ≡ record { lock = r.0; key = Some (T.key value); seen = T.log value; numbers = all_numbers; has_turn = false }) }
    {
        let Ok((table, pass)) = Table::vacant(alloc, &[1, 0], 1, &value) else {
            return Err(NoMemory);
        };
        let (turns, mut seat) = first_turn(table, pass);
        turns.give(&mut seat, value);
        Ok((turns, seat))
    }

    /// Two seats for one: the first speaks for the first half of its numbers, rounded up, the second for the rest. A
    /// seat takes no bytes, so memory is never wanting, and the seat is never handed back.
    pub fn split(&self, _alloc: Global, seat: Seat<T>) -> Result<(Seat<T>, Seat<T>), Seat<T>>
        requires own { seat.lock ≡ self.now }
        requires free { seat.has_turn ≡ false }
        requires two { 1 < length seat.numbers }
        ensures never_refused { IsOk result }
        ensures first { IfOk result (λ r. r.0 ≡ record seat { numbers = take (half_of seat.numbers) seat.numbers }) }
        ensures second { IfOk result (λ r. r.1 ≡ record seat { numbers = drop (half_of seat.numbers) seat.numbers }) }
    {
        let Seat { mut pass } = seat;
        let other = self.table.shared.split_seat::<IntoHalves>(&mut pass);
        Ok((Seat { pass }, Seat { pass: other }))
    }

    /// One seat for two, with the numbers of both and the longer of the logs that they had seen.
    ///
    /// The shorter of these is a prefix of the longer, and what follows there has no entry of a worker of the seat
    /// with the shorter one.
    pub fn join(&self, a: Seat<T>, b: Seat<T>) -> Seat<T>
        requires own { (a.lock ≡ self.now) × (b.lock ≡ self.now) }
        requires free { (a.has_turn ≡ false) × (b.has_turn ≡ false) }
        ensures seat { result ≡ record a { seen = longer a.seen b.seen; numbers = a.numbers ++ b.numbers } }
        ensures logs { ShorterBegins T.worker a.numbers a.seen b.numbers b.seen }
    {
        let Seat { mut pass } = a;
        let Seat { pass: other } = b;
        self.table.shared.join_seat::<IntoOne>(&mut pass, other);
        self.table.shared.load::<Settles>(&mut pass, SERVING);
        Seat { pass }
    }

    /// Waits for a turn and takes the value out, as the last holder left it.
    ///
    /// Its log begins with what the seat has seen, and has no entry of the seat's workers behind that.
    pub fn take<X: Wait>(&self, rt: &X, seat: &mut Seat<T>) -> T
        requires own { seat.old.lock ≡ self.now }
        requires free { seat.old.has_turn ≡ false }
        ensures key { seat.old.key ≡ Some (T.key result) }
        ensures log { ContinuesWithout T.worker seat.old.numbers seat.old.seen (T.log result) }
        ensures seat { seat.new ≡ record seat.old { seen = T.log result; has_turn = true } }
    {
        let board = &self.table.shared;
        let ticket = board.fetch_add::<Draws>(&mut seat.pass, TICKET, 1);
        wait_and_take(rt, board, &mut seat.pass, ticket)
    }

    /// Gives the value back, and the turn up. The value has the key of the one that was taken, and its log is that
    /// one's log with further entries of the seat's workers.
    pub fn give(&self, seat: &mut Seat<T>, value: T)
        requires own { seat.old.lock ≡ self.now }
        requires turn { seat.old.has_turn ≡ true }
        requires key { seat.old.key ≡ Some (T.key value) }
        requires log { ContinuesBy T.worker seat.old.numbers seat.old.seen (T.log value) }
        ensures seat { seat.new ≡ record seat.old { seen = T.log value; has_turn = false } }
    {
        let board = &self.table.shared;
        match board.exchange(&mut seat.pass, VALUE, Some(value)) {
            None => {}
            Some(_) => unreachable!(),
        }
        board.fetch_add::<Raises>(&mut seat.pass, SERVING, 1);
    }

    /// Ends the lock and gives the value, as the last holder left it. The seat speaks for all 64 numbers, so no other
    /// is left, and the log is the one that the seat has seen.
    pub fn close(self, seat: Seat<T>) -> T
        requires own { seat.lock ≡ self }
        requires free { seat.has_turn ≡ false }
        requires all { HasAllNumbers seat.numbers }
        ensures key { seat.key ≡ Some (T.key result) }
        ensures log { T.log result ≡ seat.seen }
    {
        let Turns { table } = self;
        let Seat { pass } = seat;
        let mut closed = table.close_with(pass);
        let value = closed.take(VALUE);
        closed.free();
        value.unwrap()
    }
}

// The lock of a table, and its first seat, which takes the slot that the value is to lie in.
fn first_turn<T: Kept>(table: TurnTable<T>, mut pass: Pass<T>) -> (Turns<T>, Seat<T>)
    requires own { (pass.table_id ≡ table.shared.table_id) × (table.shared.table_id.words ≡ 2) × (table.shared.table_id.slots ≡ 1) }
    requires first { (pass.me.0.stage ≡ Opening) × (0 < length pass.me.0.numbers) × (pass.me.1 ≡ []) }
    ensures { result.1 ≡ record { lock = result.0; key = pass.me.0.key; seen = pass.me.0.seen; numbers = pass.me.0.numbers; has_turn = true } }
{
    table.shared.load::<Opens>(&mut pass, SERVING);
    (Turns { table }, Seat { pass })
}

// Waits until the ticket is served, and takes the value out of the slot.
fn wait_and_take<T: Kept, X: Wait>(rt: &X, board: &Board<T>, pass: &mut Pass<T>, ticket: u64) -> T
    requires own { (pass.old.table_id ≡ board.now.table_id) × (board.now.table_id.words ≡ 2) × (board.now.table_id.slots ≡ 1) }
    requires waits { IsWaiting ticket pass.old.me }
    ensures own { pass.new.table_id ≡ pass.old.table_id }
    ensures taken { HasTaken T.key T.log T.worker pass.old.me result pass.new.me }
{
    let backoff = Backoff::new();
    for _ in rt.forever() {
        if board.load::<Looks>(pass, SERVING) == ticket {
            return board.exchange(pass, VALUE, None).unwrap();
        }
        backoff.snooze();
    }
    unreachable!()
}
