//! Random streams: the words of a seed, and the numbers, fractions and seeds that are made of them.
#![tactic(auto)]

mod laws;
mod stream;

pub use laws::{draws_add_up, words_fit, words_repeat};
pub use stream::Stream;
