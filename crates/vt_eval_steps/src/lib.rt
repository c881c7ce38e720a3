//! The steps of an evaluation, as code makes them: actions, answers, and the calls that run no block of the text.
#![tactic(auto)]

mod acting;
mod asking;
mod calls;
mod deeds;
mod effects;
mod playing;
mod resting;
mod run;
mod scene;
mod spawning;
mod spot;
mod starting;
mod turns;

pub use calls::{Found, is_stopped};
pub use deeds::runs_block;
pub use run::{Run, opening};
pub use scene::{Scene, block_at};
pub use spot::Spot;
pub use turns::{Before, Turns};
