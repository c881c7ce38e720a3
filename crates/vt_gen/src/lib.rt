//! What is generated of a seed: sessions of live loops, and choices of workers.
#![tactic(auto)]

mod choices;
mod lines;
mod sessions;

pub use choices::choices_of;
pub use sessions::session_text;
