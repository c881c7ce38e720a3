//! What the calls without blocks do: pure functions of what a call is given and of where its thread stands.
#![tactic(auto)]

mod announcements;
mod costs;
mod messages;
mod operators;
mod places;
mod plays;
mod pure_or_random;
mod scopes;
mod settings;
mod threads;
mod ticks;
mod time;
mod turns;

pub use announcements::{
    body_event, defined_event, ended_event, fault_event, fx_event, inner_pattern, name_path,
    started_event, stop_pattern, took_event, turn_event,
};
pub use costs::{emit_cost, node_size, pair_sizes, spawn_cost};
pub use messages::{a_pattern, cue, puts, set};
pub use operators::{index, is_decided, literal_value, operated, unary};
pub use places::place_in;
pub use plays::{note_event, play, sample, synth};
pub use pure_or_random::computed;
pub use scopes::{assign, cut, lookup, push_params};
pub use settings::{
    a_seed, a_tempo, use_bpm, use_debug, use_random_seed, use_synth, use_synth_defaults,
};
pub use threads::{LoopParts, loop_parts, thread_role};
pub use ticks::{look, tick, tick_reset, tick_set};
pub use time::{current_bpm, rest_of, rest_seconds, rt, vt};
pub use turns::density_of;
