//! One thread of a session: how it starts, what it asks and what it does.
#![tactic(auto)]

mod action;
mod delay;
mod laws;
mod options;
mod piece;
mod recorder;
mod role;
mod runner;
mod settings;
mod start;
mod state;
mod tempo;
mod texts;

pub use action::{Action, Actions, Answer, EndReason};
pub use delay::Delay;
pub use laws::{
    actions_are_numbered, actions_are_within_limits, actions_stand_below_the_horizon,
    actions_stand_in_place, actions_stand_in_their_thread, answers_move_a_thread,
    answers_only_extend, children_are_numbered, children_run_blocks, each_step_costs,
    early_lists_end_with_the_last_step, events_are_well_made, events_have_paths_by_kind,
    fewer_steps_are_a_prefix, inputs_are_within_limits, last_steps_are_last, links_of_a_sequence,
    micro_steps_follow_events, noted_steps_are_a_piece, numbers_follow_steps, options_and_then,
    options_of_a_sequence, paths_are_as_written, patterns_are_as_written, pieces_are_one,
    places_rise, places_rise_to_the_next, refusals_stand_first, standing_tells_what_is_next,
    steps_of_a_sequence, texts_start_within_limits, threads_have_next_pieces,
    timed_threads_rest_first, values_and_then, values_of_a_sequence, waits_ask_for_stops,
};
pub use options::RenderOptions;
pub use piece::{Piece, Stop};
pub use recorder::Recorder;
pub use role::Role;
pub use runner::Runner;
pub use settings::Settings;
pub use start::Start;
pub use state::{State, Ticks};
pub use tempo::Tempo;
pub use texts::{Texts, Verdict};
