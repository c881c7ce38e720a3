//! The laws of what comes early: what stands below a time fixes the events below it. Each contract is a law.

ghost use Rattle.vt_meaning.specs.Causal.{ActsEnough, AllWithin, Causal, CutIsPart, Horizons, KnownIsPart, LeftOut, LinesBegin, Nearer, OnePart, PartsSame, SessionsAgree, SessionsAgreeByReach, StoresWithin, Streams};

/// Causality: two sessions that share what stands below a time have the same events below it, where neither is spent. So
/// do two of which the same session is a part below a horizon.
pub fn early_events_are_fixed()
    ensures shared { Causal }
    ensures part { OnePart }
{}

/// Where a session is not spent, it is not spent with a nearer horizon, costs no more, and has the events below it.
pub fn nearer_horizons_change_nothing()
    ensures shared { Nearer }
    ensures part { Horizons }
{}

/// Two sessions with one horizon that share what stands below it are spent alike, and have one score. So what begins at
/// or past the horizon has no part in it, nor have texts that nothing below it leads to.
pub fn what_begins_late_has_no_part()
    ensures shared { LeftOut }
    ensures part { PartsSame }
{}

/// No event of a session stands at or past its horizon.
pub fn nothing_stands_past_the_horizon()
    ensures { AllWithin }
{}

/// Of two times the lines below the nearer begin those below the further, and the score. So where horizons follow one
/// another each score begins the next.
pub fn early_lines_come_first()
    ensures lines { LinesBegin }
    ensures scores { Streams }
{}

/// When threads do alike in two sessions, and one session is a part of another, said of the lists of steps.
pub fn parts_are_found_by_steps()
    ensures steps { ActsEnough }
    ensures known { KnownIsPart }
    ensures cut { CutIsPart }
{}

/// Two stores of sessions that share what stands below a time agree there, where each thread may write everything.
pub fn sessions_agree()
    ensures all { SessionsAgree }
    ensures reach { SessionsAgreeByReach }
{}

/// No store has an event, or a thread that may go on, at or past the horizon.
pub fn stores_stay_below_the_horizon()
    ensures { StoresWithin }
{}
