//! What a call is given: its arguments and options, by their kinds, and the paths and notes that they stand for.
#![tactic(auto)]

mod arguments;
mod exact;
mod given;
mod notes;
mod paths;
mod patterns;
mod timings;

pub use arguments::{
    a_number, a_ring, a_symbol, a_whole, number_argument, one, one_or_none, one_or_two,
    option_named, ring_argument, symbol_argument, two,
};
pub use exact::{exact_quotient, integer, is_negative, whole};
pub use given::Given;
pub use notes::{Note, Notes, check_kinds, check_names, each_of, notes_to_play, sounding_of};
pub use paths::{named_path, path_argument, pattern_argument};
pub use patterns::{PatternItems, even_items, timed_items};
pub use timings::{Timings, at_timings, has_item, ring_if_given, seconds_of};
