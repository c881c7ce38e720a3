//! The laws of the threads of texts, as the meaning of a session takes them. Each contract is a law; where a body calls a law of a thread, the law rests on it.

ghost use Rattle.vt_meaning.specs.RealLaws.{AboveIsSpent, AllIsWithin, EarlyTextsFix, EventsHaveOwnPlaces, FinishedIsMeant, LookUpsFind, NoneStandsPast, OpeningsAreOrderly, OpeningsAreWithin, RenderedIsSession, TextsAct, TextsAreActs, TextsArePrompt, TextsBreed, TextsMove, TextsStand, TextsStartLow, TextsTell};
ghost use Rattle.vt_meaning.specs.Reached.{ReachedWorldsAreRight};

use crate::causality::early_events_are_fixed;
use crate::laws::look_ups_are_right;
use crate::stores::{finished_stores_hold_the_meaning, stores_stay_within_the_budget};

/// The threads of texts have the laws of steps.
pub fn threads_of_texts_act()
    ensures { TextsAct }
{
    vt_run::fewer_steps_are_a_prefix();
    vt_run::actions_stand_in_place();
    vt_run::standing_tells_what_is_next();
    vt_run::answers_only_extend();
    vt_run::each_step_costs();
    vt_run::children_are_numbered();
}

/// A thread stands where a runner of its text says.
pub fn threads_of_texts_stand()
    ensures { TextsStand }
{
    vt_run::fewer_steps_are_a_prefix();
    vt_run::actions_stand_in_place();
    vt_run::standing_tells_what_is_next();
}

/// A thread starts another one at the time at which it stands.
pub fn threads_of_texts_are_prompt()
    ensures { TextsArePrompt }
{
    vt_run::fewer_steps_are_a_prefix();
    vt_run::actions_stand_in_place();
    vt_run::standing_tells_what_is_next();
    vt_run::children_are_numbered();
}

/// It starts it as step 1, in the micro step at which it stands.
pub fn threads_of_texts_start_low()
    ensures { TextsStartLow }
{
    vt_run::fewer_steps_are_a_prefix();
    vt_run::actions_stand_in_place();
    vt_run::standing_tells_what_is_next();
    vt_run::children_are_numbered();
}

/// A rest moves a thread on that was fed by what the texts can lead to.
pub fn threads_of_texts_move()
    ensures { TextsMove }
{
    threads_of_texts_act();
    vt_run::actions_are_within_limits();
}

/// What such a thread starts is within the limits of the language.
pub fn threads_of_texts_breed()
    ensures { TextsBreed }
{
    threads_of_texts_act();
    vt_run::actions_are_within_limits();
}

/// So is what it publishes that can be found.
pub fn threads_of_texts_tell()
    ensures { TextsTell }
{
    threads_of_texts_act();
    vt_run::actions_are_within_limits();
    vt_run::events_have_paths_by_kind();
}

/// The threads of checked texts have all laws that the theory of stores asks for, where they lead to what the texts can lead
/// to and write what they may.
pub fn threads_of_texts_have_the_laws()
    ensures { TextsAreActs }
{
    threads_of_texts_act();
    threads_of_texts_move();
    threads_of_texts_breed();
    threads_of_texts_tell();
}

/// A session as it is rendered is one of which the theory of stores speaks, with each reach that its texts keep within. One in which all may be written is such.
pub fn rendered_sessions_have_the_laws()
    ensures session { RenderedIsSession }
    ensures all { AllIsWithin }
{
    threads_of_texts_have_the_laws();
    openings_are_orderly();
}

/// What a session begins with has lists and places of its own, and is within the limits.
pub fn openings_are_orderly()
    ensures { OpeningsAreOrderly }
{
    vt_run::texts_start_within_limits();
    vt_run::refusals_stand_first();
    vt_run::inputs_are_within_limits();
}

/// What a session begins with stands below its horizon.
pub fn openings_are_within()
    ensures { OpeningsAreWithin }
{
    openings_are_orderly();
    threads_of_texts_are_prompt();
}

/// What the look-ups find among the events of a consistent store is what a read and a wait find there.
pub fn look_ups_find_what_is_there()
    ensures { LookUpsFind }
{}

/// Each event of such a store has a place of its own.
pub fn events_have_own_places()
    ensures { EventsHaveOwnPlaces }
{}

/// No thread of such a store stands at or past the horizon, where all begins below it.
pub fn no_thread_stands_past_the_horizon()
    ensures { NoneStandsPast }
{}

/// A finished store of a session as it is rendered, within the budget, holds what the session means; and one above the budget
/// is of a session that is spent.
pub fn rendered_stores_hold_the_meaning()
    ensures finished { FinishedIsMeant }
    ensures above { AboveIsSpent }
{
    rendered_sessions_have_the_laws();
    finished_stores_hold_the_meaning();
    stores_stay_within_the_budget();
}

/// In each world that the transitions of a rendered session reach the look-ups find what a read and a wait find by the time state,
/// and no thread stands at or past the horizon.
pub fn transitions_reach_right_worlds()
    ensures { ReachedWorldsAreRight }
{
    rendered_sessions_have_the_laws();
    openings_are_orderly();
    openings_are_within();
    events_have_own_places();
    no_thread_stands_past_the_horizon();
    look_ups_are_right();
}

/// Causality of rendered sessions: texts that are an early part of two sessions fix the events of both below their horizon.
pub fn early_texts_fix_early_events()
    ensures { EarlyTextsFix }
{
    threads_of_texts_have_the_laws();
    threads_of_texts_are_prompt();
    rendered_sessions_have_the_laws();
    early_events_are_fixed();
}
