//! Pieces of a thread: some actions, up to a stop.

use crate::Actions;

/// Why a piece ends.
#[derive(Clone, Copy, Debug, PartialEq, Eq)]
pub enum Stop {
    /// Its last action is a read or a wait.
    Asks,
    /// Its cost reached the limit.
    More,
    /// Its last action is a rest to a time at or past the horizon.
    Past,
    /// Its last action is the end of the thread.
    Ended,
}

/// Some actions of a thread, one after another, up to a stop.
#[derive(Drop)]
pub struct Piece {
    /// The actions in order.
    pub actions: Actions,
    /// The cost of its evaluation steps, or 2^64 - 1 where that is greater.
    pub cost: u64,
    /// Why it ends.
    pub stop: Stop,
}
