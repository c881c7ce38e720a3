//! What happens in a session: events at their places, and what a run comes to.
#![tactic(auto)]

mod event;
mod kind;
mod laws;
mod pairs;
mod place;
mod references;
mod score;
mod sequence;
mod thread;

pub use event::Event;
pub use kind::Kind;
pub use laws::{
    order_is_antisymmetric, order_is_exact, order_is_lexicographic, order_is_total,
    order_is_transitive, some_lists_are_orderly, thread_order_is_lexicographic,
};
pub use place::{Place, PlaceRef};
pub use references::{BlockRef, FxId};
pub use score::{Living, LivingState, Outcome, Score};
pub use sequence::{Events, Inputs, Livings, Locals, Options};
pub use thread::ThreadId;
