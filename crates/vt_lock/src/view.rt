//! What a seat knows. These types are there for proofs: no value of them is made, and their numbers have no end.
use std::collections::LinkedList;

/// What a seat brings into a join: its worker numbers, and the log that it has seen.
pub struct JoinedPart<E> {
    pub numbers: LinkedList<u64>,
    pub seen: LinkedList<E>,
}

/// How far a seat is on the way to a turn.
pub enum Stage<E> {
    /// It has no ticket.
    Resting,
    /// It is the first seat of a lock in which no value lies yet, and has ticket 0 and the turn.
    Opening,
    /// It has this ticket.
    Waiting(u64),
    /// It has this ticket, and the turn.
    Holding(u64),
    /// It was joined from these two, and has not looked since.
    Joining(JoinedPart<E>, JoinedPart<E>),
}

/// The key of what is kept, the log that was seen, the worker numbers that the seat speaks for, and its stage.
///
/// A view that a join left behind speaks for no number and has no key.
pub struct View<X, E> {
    pub key: Option<X>,
    pub seen: LinkedList<E>,
    pub numbers: LinkedList<u64>,
    pub stage: Stage<E>,
}
