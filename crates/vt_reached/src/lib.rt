//! What the texts of a session can lead to: how threads start and which events there are, for the laws of the reach.
#![tactic(auto)]

mod laws;

pub use laws::steps_are_led;
