//! The laws of the meaning of a session. Each contract is a law; where a body calls a law of a thread, the law rests on it.

ghost use Rattle.vt_meaning.specs.Laws.{LookUpsAreRight, MatchTestIsRight, MeaningIsOne, MeaningIsTotal, OpeningThreadsAreOfTexts, TransitionsEnd, TransitionsEndOnce, WorkersDoNotMatter};

use crate::real_threads::threads_of_texts_act;

/// Every session means something: its transitions come to an end.
pub fn meaning_is_total()
    ensures { MeaningIsTotal }
{
    threads_of_texts_act();
}

/// No session means two things.
pub fn meaning_is_one()
    ensures { MeaningIsOne }
{
    meaning_is_total();
}

/// The number of workers has no part in the meaning.
pub fn workers_do_not_matter()
    ensures { WorkersDoNotMatter }
{}

/// The threads of the opening world are those of the good texts below the horizon.
pub fn opening_threads_are_of_texts()
    ensures { OpeningThreadsAreOfTexts }
{}

/// The test of a match is true exactly where the pattern matches.
pub fn match_test_is_right()
    ensures { MatchTestIsRight }
{}

/// The look-ups find what a read and a wait find.
pub fn look_ups_are_right()
    ensures { LookUpsAreRight }
{}

/// Transitions come to an end from any opening, within twice the budget and two, if the threads have the laws of steps.
pub fn transitions_come_to_an_end()
    ensures { TransitionsEnd }
{}

/// They come to one end.
pub fn transitions_come_to_one_end()
    ensures { TransitionsEndOnce }
{}
