//! A seat at a lock.
ghost use Rattle.std.specs.Prelude.{◌<◌, length};
ghost use Rattle.vt_lock.specs.SeatFacts.{SeatFacts, seat_facts};
ghost use Rattle.vt_lock.specs.private.StepsTell.{IsBetweenCalls};

use crate::kept::Kept;
use crate::view::View;
use std::marker::Model;

/// What a worker takes its turns with. It speaks for at least one worker number, and takes no bytes.
///
/// Contracts see it as its lock, the key of what is kept, the log that it has seen, its numbers, and whether it has
/// the turn. A seat that is dropped keeps its numbers for good, and with the turn it stops all that come later.
#[derive(Drop)]
pub struct Seat<T: Kept> {
    pub(crate) pass: atomic_table::Seat<Option<T>, View<T::Key, T::Entry>>,
}

impl<T: Kept> Model for Seat<T> {
    ghost Value = { SeatFacts T.Key T.Entry };

    ghost view = { λ s. seat_facts s.pass.table_id s.pass.me.0 };

    ghost invariant = { λ s. (0 < length s.pass.me.0.numbers) × IsBetweenCalls s.pass.me.0.stage s.pass.me.1 };
}
