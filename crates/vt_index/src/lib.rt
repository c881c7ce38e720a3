//! A time state that finds events by their paths.
#![tactic(auto)]

mod grow;
mod indexed;
mod look_up;
mod row;
mod side;

pub use indexed::Indexed;
