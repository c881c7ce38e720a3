//! A lock whose holders take turns in the order of their tickets: each finds the value as the last one left it.
#![tactic(auto)]

mod crossing;
mod kept;
mod laws;
mod rule;
mod seat;
mod turns;
mod view;

pub use crossing::lock_and_seat_may_cross;
pub use kept::Kept;
pub use laws::{all_numbers_are_there, halves_are_numbers};
pub use seat::Seat;
pub use turns::Turns;
