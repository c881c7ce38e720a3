//! The laws of the meaning of a thread, and of what is noted of it. Each function does nothing; its contract is the law.

ghost use Rattle.vt_path.proofs.PathDecided.{IsNoneWhereNoPath, IsPathWhereWritten};
ghost use Rattle.vt_path.proofs.PatternDecided.{IsNoneWhereNoPattern, IsPatternWhereWritten};
ghost use Rattle.vt_run.specs.laws.NoteLaws.{PieceLaw};
ghost use Rattle.vt_run.specs.laws.StandingLaws.{AnswerLaw, MicroLaw, NextPlaceLaw, StandingLaw, StepCountLaw, StopsLaw, ThreadLaw, TimedLaw};
ghost use Rattle.vt_run.specs.laws.StartLaws.{InputLaw, RefusalLaw, TextStartLaw};
ghost use Rattle.vt_run.specs.laws.StepLaws.{AnswersLaw, BlocksLaw, ChildrenLaw, ClosingLaw, CostsLaw, EventPathsLaw, EventsLaw, HorizonLaw, LastLaw, LimitsLaw, NextLaw, NumbersLaw, PiecesAreOne, PlacesLaw, PrefixLaw, RisingLaw};
ghost use Rattle.vt_run.specs.laws.SequenceLaws.{AfterOptionsLaw, AfterValuesLaw, LinksLaw, OptionsLaw, SequenceLaw, ValuesLaw};

/// The steps of statements one after another are those of the first ones, followed, where these leave something, by those
/// of the rest from what they leave.
pub fn steps_of_a_sequence()
    ensures { SequenceLaw }
{}

/// So are the links of a chain.
pub fn links_of_a_sequence()
    ensures { LinksLaw }
{}

/// So are the arguments of a call and the items of a list: their values stand in order.
pub fn values_of_a_sequence()
    ensures { ValuesLaw }
{}

/// What comes next of these values is what comes after them.
pub fn values_and_then()
    ensures { AfterValuesLaw }
{}

/// So are the options of a call: their labels and values stand in order.
pub fn options_of_a_sequence()
    ensures { OptionsLaw }
{}

/// What comes next of these options is what comes after them.
pub fn options_and_then()
    ensures { AfterOptionsLaw }
{}

/// The list for n steps is a prefix of the list for more.
pub fn fewer_steps_are_a_prefix()
    ensures { PrefixLaw }
{}

/// The list for n steps has n, or it ends with the last step of the thread: a read or wait without an answer, a wait that
/// nothing wakes, a rest to the horizon, an end.
pub fn early_lists_end_with_the_last_step()
    ensures { ClosingLaw }
{}

/// Nothing stands behind such a step.
pub fn last_steps_are_last()
    ensures { LastLaw }
{}

/// With further answers the list goes on where it ended.
pub fn answers_only_extend()
    ensures { AnswersLaw }
{}

/// Each step costs at least 1.
pub fn each_step_costs()
    ensures { CostsLaw }
{}

/// Each action stands where its thread stands after the steps before it.
pub fn actions_stand_in_place()
    ensures { PlacesLaw }
{}

/// The j-th action has the number j.
pub fn actions_are_numbered()
    ensures { NumbersLaw }
{}

/// The places of a thread rise strictly.
pub fn places_rise()
    ensures { RisingLaw }
{}

/// An action stands before the place of the next one, also where no other follows.
pub fn places_rise_to_the_next()
    ensures { NextPlaceLaw }
{}

/// Each action stands in the thread that does it.
pub fn actions_stand_in_their_thread()
    ensures { ThreadLaw }
{}

/// The micro step of the next place is at most that of the start, or one more than the greatest of the events that woke the
/// thread.
pub fn micro_steps_follow_events()
    ensures { MicroLaw }
{}

/// The number of the next action is at most that of the first and the number of the steps that are done.
pub fn numbers_follow_steps()
    ensures { StepCountLaw }
{}

/// A wait asks for the stop of its live loop too, and for no other stop.
pub fn waits_ask_for_stops()
    ensures { StopsLaw }
{}

/// A thread of `at` rests before its block.
pub fn timed_threads_rest_first()
    ensures { TimedLaw }
{}

/// Where a thread stands tells what is next: it goes on where it is ready, at the next place, and does nothing elsewhere; where
/// it asks or waits, the next place is one step after its question.
pub fn standing_tells_what_is_next()
    ensures { StandingLaw }
{}

/// An answer moves a thread that asks or waits, and no other.
pub fn answers_move_a_thread()
    ensures { AnswerLaw }
{}

/// No action stands at or past the horizon.
pub fn actions_stand_below_the_horizon()
    ensures { HorizonLaw }
{}

/// The j-th thread that is started has the list of its starter with j added, and starts where its starter stands.
pub fn children_are_numbered()
    ensures { ChildrenLaw }
{}

/// A thread that is started runs a block of the texts.
pub fn children_run_blocks()
    ensures { BlocksLaw }
{}

/// Each event has the fields of its kind, and no call writes at an inner path.
pub fn events_are_well_made()
    ensures { EventsLaw }
{}

/// Each event has a path exactly where its kind has one.
pub fn events_have_paths_by_kind()
    ensures { EventPathsLaw }
{}

/// All that a thread does is within the limits of the language.
pub fn actions_are_within_limits()
    ensures { LimitsLaw }
{}

/// A thread that has not ended has a next piece.
pub fn threads_have_next_pieces()
    ensures { NextLaw }
{}

/// A thread has only one next piece.
pub fn pieces_are_one()
    ensures { PiecesAreOne }
{}

/// The thread of a text starts within the limits of the language.
pub fn texts_start_within_limits()
    ensures { TextStartLaw }
{}

/// The event of a refused text is well made, within the limits, and stands before all that such a text would do.
pub fn refusals_stand_first()
    ensures { RefusalLaw }
{}

/// An orderly input has the fields of its kind, and is within the limits of the language.
pub fn inputs_are_within_limits()
    ensures { InputLaw }
{}

/// Where the new answers change none of the steps that are done, what is noted of a thread is its next piece.
pub fn noted_steps_are_a_piece()
    ensures { PieceLaw }
{}

/// `path_of` of bytes is a path exactly where they are that path as it is written, and none exactly where they are no path.
pub fn paths_are_as_written()
    ensures written { IsPathWhereWritten }
    ensures none { IsNoneWhereNoPath }
{}

/// `pattern_of` of bytes is a pattern exactly where they are that pattern as it is written, and none exactly where they are
/// no pattern.
pub fn patterns_are_as_written()
    ensures written { IsPatternWhereWritten }
    ensures none { IsNoneWhereNoPattern }
{}
