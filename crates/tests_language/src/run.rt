//! One thread: copies and lists, the limits of the options, and what is noted of steps.

ghost use Rattle.std.specs.Prelude.{Some, IfSome};
ghost use Rattle.vt_run.specs.Notes.{RestFits};

use std::alloc::Global;
use std::test::Fail;
use vt_event::{BlockRef, FxId, Locals, Options, Place, ThreadId};
use vt_frac::{Frac, Name};
use vt_path::parse_pattern;
use vt_run::{
    Action, Actions, Delay, EndReason, Piece, Recorder, RenderOptions, Role, Settings, Start, Stop,
    Tempo, Texts, Ticks, Verdict,
};
use vt_value::{FaultKind, Integer, Symbol, Value};

/// Workers, horizon, budget, and whether a rendering may have them.
const OPTIONS: &str = "1 60/1 4194304 true
64 3600/1 16777216 true
1 0/1 1 true
0 60/1 1 false
65 60/1 1 false
1 -1/2 1 false
1 7201/2 1 false
1 60/1 0 false
1 60/1 16777217 false";

/// How many steps are done and the limit of a piece with the horizon 60; the steps from 1/4 second on, each its cost and
/// perhaps a read or a rest of so many quarters of a second; and the stop, the cost and the number of actions of the piece.
const PIECES: &str = "0 3 1 1 => none
0 3 1 2 => More 3 0
0 3 2 18446744073709551615 => More 18446744073709551615 0
0 3 3 1 => More 3 0
1 100 7:read 1:238 5:read 9 => Asks 6 2
0 100 1:0 => none
0 100 1:238 => none
0 100 1:239 => Past 1 1
0 100 1:240 2 => Past 1 1";

/// Whether the rendering options of a row may be.
fn may_be(line: &str) -> Option<bool> {
    let (workers, line) = line.split_once(' ')?;
    let (until, budget) = line.split_once(' ')?;
    let (numer, denom) = until.split_once('/')?;
    let workers = workers.parse::<u32>().ok()?;
    let until = Frac::new(numer.parse::<i64>().ok()?, denom.parse::<i64>().ok()?).ok()?;
    let budget = budget.parse::<u64>().ok()?;
    Some(RenderOptions::new(workers, until, budget, 0).is_some())
}

/// Whether the rendering options of a row may be exactly where the row says so.
fn options_hold(row: &str) -> Option<bool> {
    let (given, want) = row.rsplit_once(' ')?;
    Some(may_be(given)? == (want == "true"))
}

/// The first row that does not hold, or nothing.
fn wrong_options() -> Option<&'static str> {
    for row in OPTIONS.lines() {
        if options_hold(row) != Some(true) {
            return Some(row);
        }
    }
    None
}

#[test]
fn options_have_limits(rt: HostRuntime) {
    assert_eq!(rt; wrong_options(), None);
}

fn place(alloc: Global) -> Option<Place> {
    Some(Place {
        time: Frac::new(1, 4).ok()?,
        micro: 2,
        thread: ThreadId::of_text(alloc, 1),
        step: 1,
    })
}

fn read(alloc: Global) -> Option<Action>
    ensures { IfSome result (λ action. RestFits (Some action)) }
{
    let pattern = parse_pattern(alloc, b"/cue/*").ok()?;
    let place = place(alloc)?;
    Some(Action::Read { place, pattern })
}

/// A rest of so many quarters of a second, at a place whose time is 1/4.
fn rest_of(alloc: Global, quarters: &str) -> Option<Action>
    ensures { IfSome result (λ action. RestFits (Some action)) }
{
    let seconds = Frac::new(quarters.parse::<i64>().ok()?, 4).ok()?;
    let place = place(alloc)?;
    match place.time.add(seconds) {
        Ok(_) => Some(Action::Rest { place, seconds }),
        Err(_) => None,
    }
}

/// Makes a step with this action.
fn make_acting(notes: &mut Recorder, cost: u64, action: Option<Action>) -> Option<()>
    requires { IfSome action (λ action. RestFits (Some action)) }
{
    if cost == 0 {
        return None;
    }
    match action {
        Some(action) => notes.step(cost, Some(action)).ok(),
        None => None,
    }
}

/// Makes a step: its cost, and perhaps a read or a rest.
fn make_step(alloc: Global, notes: &mut Recorder, step: &str) -> Option<()> {
    let Some((cost, action)) = step.split_once(':') else {
        return make_silent(notes, step.parse::<u64>().ok()?);
    };
    let cost = cost.parse::<u64>().ok()?;
    if action == "read" {
        return make_acting(notes, cost, read(alloc));
    }
    make_acting(notes, cost, rest_of(alloc, action))
}

/// Makes a step without an action.
fn make_silent(notes: &mut Recorder, cost: u64) -> Option<()> {
    if cost == 0 {
        return None;
    }
    notes.step(cost, None).ok()
}

fn make_steps(alloc: Global, notes: &mut Recorder, steps: &str) -> Option<()> {
    for step in steps.split(' ') {
        make_step(alloc, notes, step)?;
    }
    Some(())
}

fn word_of(stop: Stop) -> &'static str {
    match stop {
        Stop::Asks => "Asks",
        Stop::More => "More",
        Stop::Past => "Past",
        Stop::Ended => "Ended",
    }
}

/// Whether the piece has this stop, this cost and so many actions.
fn is_piece(piece: &Piece, want: &str) -> Option<bool> {
    let (stop, counts) = want.split_once(' ')?;
    let (cost, count) = counts.split_once(' ')?;
    let is_count = count.parse::<usize>().ok()? == piece.actions.as_slice().len();
    Some(word_of(piece.stop) == stop && cost.parse::<u64>().ok()? == piece.cost && is_count)
}

/// Nothing is noted yet, with the horizon 60.
fn recorder(alloc: Global, skip: &str, limit: &str) -> Option<Recorder> {
    let skip = skip.parse::<u64>().ok()?;
    let limit = limit.parse::<u64>().ok()?;
    if limit < 1 || limit > 4096 {
        return None;
    }
    Some(Recorder::new(alloc, skip, limit, Frac::new(60, 1).ok()?))
}

/// Whether the piece of a row is noted of the steps of the row.
fn piece_holds(alloc: Global, row: &str) -> Option<bool> {
    let (given, want) = row.split_once(" => ")?;
    let (skip, given) = given.split_once(' ')?;
    let (limit, steps) = given.split_once(' ')?;
    let mut notes = recorder(alloc, skip, limit)?;
    make_steps(alloc, &mut notes, steps)?;
    match notes.into_piece() {
        Some(piece) => is_piece(&piece, want),
        None => Some(want == "none"),
    }
}

/// The first row that does not hold, or nothing.
fn wrong_piece(alloc: Global) -> Option<&'static str> {
    for row in PIECES.lines() {
        if piece_holds(alloc, row) != Some(true) {
            return Some(row);
        }
    }
    None
}

#[test]
fn pieces_end_at_their_stops(rt: HostRuntime) {
    assert_eq!(rt; wrong_piece(rt.alloc()), None);
}

fn add_default(alloc: Global, defaults: &mut Options) -> Option<()> {
    let name = Name::of(alloc, b"amp").ok()?;
    defaults.push((name, Value::Bool(true))).ok()
}

fn settings(alloc: Global) -> Option<Settings> {
    let bpm = Tempo::new(Frac::new(97, 2).ok()?)?;
    let synth = Name::of(alloc, b"tb303").ok()?;
    Some(Settings {
        bpm,
        synth,
        defaults: Options::new(alloc),
        fx: Some(FxId {
            thread: ThreadId::of_text(alloc, 1),
            number: 3,
        }),
    })
}

fn looped(alloc: Global) -> Option<Role> {
    let name = Symbol::new(Name::of(alloc, b"drums").ok()?)?;
    let wait = parse_pattern(alloc, b"/cue/*").ok()?;
    Some(Role::Looped {
        name,
        wait: Some(wait),
        init: Value::Bool(true),
    })
}

/// A start without locals and defaults, of no name.
fn plain_start(alloc: Global) -> Option<Start> {
    let until = Frac::new(60, 1).ok()?;
    let place = place(alloc)?;
    let settings = settings(alloc)?;
    Some(Start {
        place,
        block: BlockRef { text: 1, block: 5 },
        locals: Locals::new(alloc),
        settings,
        seed: 42,
        role: Role::Plain,
        until,
    })
}

fn add_local(alloc: Global, locals: &mut Locals) -> Option<()> {
    let name = Name::of(alloc, b"x").ok()?;
    locals.push((name, Value::Nil)).ok()
}

fn start(alloc: Global) -> Option<Start> {
    let mut start = plain_start(alloc)?;
    add_local(alloc, &mut start.locals)?;
    add_default(alloc, &mut start.settings.defaults)?;
    start.role = looped(alloc)?;
    Some(start)
}

fn has_all(start: &Start) -> bool {
    start.locals.as_slice().len() == 1
        && start.settings.defaults.as_slice().len() == 1
        && Some(start.settings.bpm.get()) == Frac::new(97, 2).ok()
        && matches!(start.settings.fx, Some(FxId { number: 3, .. }))
        && matches!(start.role, Role::Looped { wait: Some(_), .. })
}

fn is_copied_whole(alloc: Global) -> Option<bool> {
    let start = start(alloc)?;
    let copied = start.copy(alloc).ok()?;
    Some(has_all(&copied))
}

#[test]
fn a_start_is_copied_whole(rt: HostRuntime) {
    assert_eq!(rt; is_copied_whole(rt.alloc()), Some(true));
}

/// A thread of `at` that rests for so many quarters of a second.
fn timed(quarters: i64) -> Option<Role> {
    let rest = Delay::new(Frac::new(quarters, 4).ok()?)?;
    Some(Role::Timed {
        rest,
        given: Value::Nil,
        line: 7,
    })
}

/// The seconds for which a thread of `at` rests.
fn seconds_of(role: &Role) -> Option<Frac> {
    match role {
        Role::Timed { rest, .. } => Some(rest.get()),
        _ => None,
    }
}

/// The seconds for which the copy of a thread of `at` rests that rests for none.
fn copied_seconds(alloc: Global) -> Option<Frac> {
    let copied = timed(0)?.copy(alloc).ok()?;
    seconds_of(&copied)
}

#[test]
fn a_thread_of_at_rests_for_no_time_below_0(rt: HostRuntime) -> Result<(), Fail> {
    assert!(rt; Delay::new(Frac::new(-1, 4)?).is_none());
    assert_eq!(rt; copied_seconds(rt.alloc()), Some(Frac::new(0, 1)?));
    Ok(())
}

fn count_of_actions(alloc: Global) -> Option<usize> {
    let mut actions = Actions::new(alloc);
    let reason = EndReason::Stopped;
    let place = place(alloc)?;
    actions.push(Action::End { place, reason }).ok()?;
    Some(actions.as_slice().len())
}

fn count_of_ticks(alloc: Global) -> Option<usize> {
    let mut ticks = Ticks::new(alloc);
    let name = Name::of(alloc, b"x").ok()?;
    ticks.push(name, Integer::new(3)?).ok()?;
    Some(ticks.as_slice().len())
}

/// The line of the fault of the only text.
fn line_of_text(alloc: Global) -> Option<u32> {
    let mut texts = Texts::new(alloc);
    let kind = FaultKind::Check;
    let time = Frac::new(0, 1).ok()?;
    texts.push(time, Verdict::Bad { kind, line: 2 }).ok()?;
    match texts.as_slice() {
        [(_, Verdict::Bad { line, .. })] => Some(*line),
        _ => None,
    }
}

#[test]
fn lists_keep_what_is_added(rt: HostRuntime) {
    assert_eq!(rt; count_of_actions(rt.alloc()), Some(1));
    assert_eq!(rt; count_of_ticks(rt.alloc()), Some(1));
    assert_eq!(rt; line_of_text(rt.alloc()), Some(2));
}
