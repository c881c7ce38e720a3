//! The time state: the events of a session, and what a read and a wait find among them.
#![tactic(auto)]

mod laws;
mod plain;
mod scan;
mod time_state;

pub use laws::{
    first_is_none_or_one, first_is_one_event, first_of_two_wants, last_is_none_or_one,
    last_is_one_event, members_alone_matter,
};
pub use plain::Plain;
pub use time_state::TimeState;
