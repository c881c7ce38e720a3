//! The texts of a session, read and checked: what a rendering on one thread begins with.
#![tactic(auto)]

mod texts;
mod verdict;

pub use texts::prepare;
pub use verdict::{TextVerdict, judge};
