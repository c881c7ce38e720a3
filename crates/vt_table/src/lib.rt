//! The tables of the language: names in order, the calls, the notes, the scales and the chords.
#![tactic(auto)]

mod calls;
mod lists;
mod names;
mod notes;

pub use calls::{CALL_COUNT, CallName, CallRow, Need, call_of};
pub use lists::{chord_of, scale_of};
pub use names::{NameTable, Named};
pub use notes::note_of;
