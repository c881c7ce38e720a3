//! The laws of stores: what is proved of a set of threads of a session that some workers ran, against the meaning. Each contract is a law.

ghost use Rattle.vt_meaning.specs.Numbers.{NumbersStayLow};
ghost use Rattle.vt_meaning.specs.Theorems.{BoundsAreLeast, BoundsAreOne, DisturbersRight, FinalStays, FinishedHolds, FirstOfTwo, FrontIsLeast, FrontReads, FrontRight, FrontsAreOne, FrontStays, LivingRight, MarksEnough, MarksTell, NeverAbove, Opens, PiecesAdd, PiecesKeep, Progress, ReadsEnable, ReadsKeep, ReadsPass, ReadsPassed, RelationIsMeaning, ScoresHaveAll, StepsKeep, StoresAgree, WaitsEnable, WaitsKeep, WaitsPass};

/// A finished consistent store that is within the budget holds what the session means, and the session is not spent.
pub fn finished_stores_hold_the_meaning()
    ensures { FinishedHolds }
{}

/// No consistent store is above the budget, unless the session is spent.
pub fn stores_stay_within_the_budget()
    ensures { NeverAbove }
{}

/// The store that a session begins with is consistent.
pub fn opening_store_is_consistent()
    ensures { Opens }
{}

/// A step keeps a store consistent, and so does a published piece, which adds its own events, each once, and its costs.
pub fn steps_keep_stores_consistent()
    ensures step { StepsKeep }
    ensures piece { PiecesKeep }
    ensures added { PiecesAdd }
{}

/// An answer to a read or a wait that is final keeps a store consistent.
pub fn answers_keep_stores_consistent()
    ensures read { ReadsKeep }
    ensures wait { WaitsKeep }
{}

/// What is final stays so, with the same answer, whatever one step or answer of another thread changes.
pub fn final_answers_stay()
    ensures { FinalStays }
{}

/// The score of a store has all that happened in it, and nothing else, in order of place.
pub fn scores_have_all_events()
    ensures { ScoresHaveAll }
{}

/// The front never falls: what it has passed it has passed for good.
pub fn front_never_falls()
    ensures { FrontStays }
{}

/// While a thread has a bound, a thread is ready, or a read or a wait is final.
pub fn something_is_due()
    ensures { Progress }
{}

/// The list of the disturbers of a read is the least set, and the test of a final read is right.
pub fn disturbers_are_listed()
    ensures { DisturbersRight }
{}

/// The place at which a thread goes on is its bound, the least of those at which it may; the soonest of all is the front. There is one bound of a thread, and one front.
pub fn bounds_are_least()
    ensures bound { BoundsAreLeast }
    ensures front { FrontIsLeast }
    ensures one_bound { BoundsAreOne }
    ensures one_front { FrontsAreOne }
{}

/// The test of the front is right.
pub fn front_is_tested()
    ensures { FrontRight }
{}

/// Marks that no further candidate belongs to are on all disturbers of a read. So it is final where none of them has a
/// bound below it; and a candidate that does not wait has one.
pub fn marks_find_disturbers()
    ensures enough { MarksEnough }
    ensures tell { MarksTell }
{}

/// A read at the front is final, and so is one for which no thread may write. Where each thread may write everything no
/// other is, and the front is above each answered read.
pub fn reads_at_the_front_are_final()
    ensures front { FrontReads }
    ensures passed { ReadsPassed }
{}

/// What a wait for two patterns finds is the lesser of what each finds.
pub fn first_of_two_wants()
    ensures { FirstOfTwo }
{}

/// In a finished store each thread has ended, sleeps past the horizon, or waits for what did not come; the list of those
/// that live on has the latter two.
pub fn finished_threads_rest()
    ensures { LivingRight }
{}

/// An answer adds no event. An answered read makes no other read and no wait final, and an answered wait no other wait.
pub fn answers_enable_little()
    ensures read { ReadsEnable }
    ensures wait { WaitsEnable }
{}

/// One pass over the waits and then one over the reads leaves nothing final.
pub fn two_passes_answer_all()
    ensures waits { WaitsPass }
    ensures reads { ReadsPass }
{}

/// Of two stores of one session what both have done of a thread is the same, and what one has done below the front of the
/// other the other has done too.
pub fn stores_agree()
    ensures { StoresAgree }
{}

/// The meaning as a relation, which looks nothing up, is the meaning as a function.
pub fn relation_is_the_meaning()
    ensures { RelationIsMeaning }
{}

/// The numbers of a store, its steps, micro steps and records, are at most the total of its costs and what it began with.
pub fn numbers_stay_low()
    ensures { NumbersStayLow }
{}
