//! What a run comes to.

use crate::{Events, Livings, ThreadId};
use vt_frac::Frac;
use vt_path::Pattern;

/// How a thread goes on after the end of a score.
#[derive(Drop)]
pub enum LivingState {
    /// Its next action stands at this time, in seconds.
    Asleep(Frac),
    /// It waits for an event at a path that this pattern matches.
    Waiting(Pattern),
}

/// A thread that goes on living.
#[derive(Drop)]
pub struct Living {
    /// The thread's list.
    pub thread: ThreadId,
    /// What it does next.
    pub state: LivingState,
}

/// The events of a run and the threads that go on living. A finished score has the events in order of place, and the
/// threads in order of their lists.
#[derive(Drop)]
pub struct Score {
    /// What happened.
    pub events: Events,
    /// Who goes on.
    pub living: Livings,
}

/// What a run comes to.
#[derive(Drop)]
pub enum Outcome {
    /// It came to its end.
    Scored(Score),
    /// Its cost went above the budget.
    Spent,
}
