//! The text of a score.
#![tactic(auto)]

mod deeds;
mod lines;
mod parts;
mod score;

pub use lines::line;
pub use score::score_text;
