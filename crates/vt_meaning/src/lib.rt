//! The meaning of a session: what its threads come to together.
#![tactic(auto)]

mod causality;
mod laws;
mod leading;
mod logs;
mod real_threads;
mod stores;

pub use causality::{
    early_events_are_fixed, early_lines_come_first, nearer_horizons_change_nothing,
    nothing_stands_past_the_horizon, parts_are_found_by_steps, sessions_agree,
    stores_stay_below_the_horizon, what_begins_late_has_no_part,
};
pub use laws::{
    look_ups_are_right, match_test_is_right, meaning_is_one, meaning_is_total,
    opening_threads_are_of_texts, transitions_come_to_an_end, transitions_come_to_one_end,
    workers_do_not_matter,
};
pub use leading::{
    functions_tell_the_reach, openings_begin_as_texts_can, reach_has_one_answer,
    rendered_sessions_keep_within_their_reach, threads_of_checked_texts_have_the_laws,
    threads_of_texts_keep_within_their_reach, threads_of_texts_lead,
};
pub use logs::{
    caps_do_not_matter, jobs_of_stores_stay, jobs_stay, log_of_two_threads, logs_are_orderly,
    logs_grow, logs_leave_consistent_stores, logs_leave_their_stores, one_record_is_out,
    pieces_of_runners_are_next, steps_leave_what_is_final, stores_stay_stores,
    workers_have_one_job,
};
pub use real_threads::{
    early_texts_fix_early_events, events_have_own_places, look_ups_find_what_is_there,
    no_thread_stands_past_the_horizon, openings_are_orderly, openings_are_within,
    rendered_sessions_have_the_laws, rendered_stores_hold_the_meaning, threads_of_texts_act,
    threads_of_texts_are_prompt, threads_of_texts_breed, threads_of_texts_have_the_laws,
    threads_of_texts_move, threads_of_texts_stand, threads_of_texts_start_low,
    threads_of_texts_tell, transitions_reach_right_worlds,
};
pub use stores::{
    answers_enable_little, answers_keep_stores_consistent, bounds_are_least, disturbers_are_listed,
    final_answers_stay, finished_stores_hold_the_meaning, finished_threads_rest,
    first_of_two_wants, front_is_tested, front_never_falls, marks_find_disturbers,
    numbers_stay_low, opening_store_is_consistent, reads_at_the_front_are_final,
    relation_is_the_meaning, scores_have_all_events, something_is_due,
    steps_keep_stores_consistent, stores_agree, stores_stay_within_the_budget,
    two_passes_answer_all,
};
