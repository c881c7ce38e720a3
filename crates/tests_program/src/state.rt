//! What a read and a wait find among events, by each kind of time state.

ghost use Rattle.std.specs.Prelude.{◌≡◌, ◌++◌, ◌∷◌, [], length, IfSome};
ghost use Rattle.vt_event.specs.Event.{EventView};
ghost use Rattle.vt_state.specs.LookUps.{HaveOwnPlaces};

use std::alloc::Global;
use std::test::Fail;
use vt_event::{Event, Events, Place, ThreadId};
use vt_frac::Frac;
use vt_index::Indexed;
use vt_path::{InnerKind, Path, Pattern, inner, literal, parse_path, parse_pattern};
use vt_state::{Plain, TimeState};
use vt_value::Value;

/// A place of the first text, at so many seconds.
fn place(alloc: Global, seconds: i64) -> Result<Place, Fail> {
    Ok(Place {
        time: Frac::new(seconds, 1)?,
        micro: 0,
        thread: ThreadId::of_text(alloc, 1),
        step: 1,
    })
}

/// A set of `/set/x` at 1.
fn set_at_1(alloc: Global) -> Result<Event, Fail> {
    let path = parse_path(alloc, b"/set/x")?;
    let place = place(alloc, 1)?;
    Ok(Event::of_set(alloc, place, path, Value::Nil)?)
}

/// A time state with that one event.
fn with_one<S: TimeState>(alloc: Global) -> Result<S, Fail> {
    let mut events = Events::new(alloc);
    events.push(set_at_1(alloc)?)?;
    let mut state = S::empty(alloc)?;
    state.put(alloc, events)?;
    Ok(state)
}

/// What a read and a wait find from so many seconds.
fn finds(alloc: Global, state: &Plain, seconds: i64, wants: &str) -> Result<&'static str, Fail> {
    let place = place(alloc, seconds)?;
    let pattern = parse_pattern(alloc, wants.as_bytes())?;
    let below = state.last(place.as_ref(), &pattern).is_some();
    let above = state.next(place.as_ref(), &pattern).is_some();
    Ok(match (below, above) {
        (false, false) => "nothing",
        (false, true) => "above",
        (true, false) => "below",
        (true, true) => "both",
    })
}

#[test]
fn a_read_finds_below_and_a_wait_above(rt: HostRuntime) -> Result<(), Fail> {
    let state: Plain = with_one(rt.alloc())?;
    assert_eq!(rt; finds(rt.alloc(), &state, 0, "/set/*")?, "above");
    assert_eq!(rt; finds(rt.alloc(), &state, 1, "/set/*")?, "nothing");
    assert_eq!(rt; finds(rt.alloc(), &state, 2, "/set/x")?, "below");
    assert_eq!(rt; finds(rt.alloc(), &state, 2, "/cue/x")?, "nothing");
    assert_eq!(rt; state.events().len(), 1);
    Ok(())
}

/// Events: the time, the kind and the path, which a Log has not; `!` is the inner path `/!name/x`. The number of a line, from 0,
/// is the step of its event.
const EVENTS: &str = "4 set /set/x
1 cue /cue/a
2 set /set/x
2 cue /cue/b
3 took /set/x
3 log -
5 started !
2 set /set/y";

/// Look-ups: the time and the step from which is looked, the pattern, and the steps of what a read and of what a wait finds, or 9
/// for nothing; `!` is the literal pattern of `/!name/x`.
const LOOK_UPS: &str = "4 0 /set/x 2 9
2 2 /set/x 9 0
2 3 /set/x 2 0
3 9 /set/* 7 0
2 5 /{set,cue}/? 3 7
3 0 /cue/a 1 9
0 0 /cue/a 9 1
0 0 /** 9 1
9 0 /** 0 9
9 0 ! 6 9
0 0 ! 9 6
5 6 ! 9 9
9 9 /set/z 9 9
9 9 /cue/?? 9 9";

/// A place of the first text.
fn place_of_step(alloc: Global, seconds: i64, step: u32) -> Option<Place>
    ensures { IfSome result (λ place. place.step ≡ step) }
{
    Some(Place {
        time: Frac::new(seconds, 1).ok()?,
        micro: 0,
        thread: ThreadId::of_text(alloc, 1),
        step,
    })
}

#[tactic(auto, unfolding(vt_frac::specs::Names::is_symbol_name))]
fn path_of(alloc: Global, word: &str) -> Option<Path> {
    if word == "!" {
        return inner(alloc, InnerKind::Named, b"x").ok();
    }
    parse_path(alloc, word.as_bytes()).ok()
}

fn pattern_of(alloc: Global, word: &str) -> Option<Pattern> {
    if word == "!" {
        return literal(alloc, &path_of(alloc, word)?).ok();
    }
    parse_pattern(alloc, word.as_bytes()).ok()
}

/// The event of a line.
fn event_of(alloc: Global, line: &str, step: u32) -> Option<Event>
    ensures { IfSome result (λ event. event.place.step ≡ step) }
{
    let (seconds, rest) = line.split_once(' ')?;
    let (kind, word) = rest.split_once(' ')?;
    let place = place_of_step(alloc, seconds.parse().ok()?, step)?;
    if kind == "log" {
        return Event::of_log(alloc, place, Value::Nil).ok();
    }
    let path = path_of(alloc, word)?;
    if kind == "set" {
        return Event::of_set(alloc, place, path, Value::Nil).ok();
    }
    if kind == "cue" {
        return Event::of_cue(alloc, place, path, Value::Nil).ok();
    }
    if kind == "took" {
        return Event::of_took(alloc, place, path, Value::Nil).ok();
    }
    Event::of_started(alloc, place, path).ok()
}

/// The events, and that of one line more, whose step is their number: at most nine.
fn with_line(alloc: Global, events: Events, line: &str) -> Option<Events>
    ensures { IfSome result (λ grown. (event : EventView) × (grown ≡ events ++ event ∷ []) × (event.place.step ≡ length events)) }
{
    let count = events.as_slice().len();
    if count > 8 {
        return None;
    }
    let event = event_of(alloc, line, count as u32)?;
    let mut grown = events;
    match grown.push(event) {
        Ok(()) => Some(grown),
        Err(_) => None,
    }
}

/// The events of all lines.
fn all_events(alloc: Global) -> Option<Events>
    ensures { IfSome result (λ events. HaveOwnPlaces events) }
{
    let mut events = Events::new(alloc);
    for line in EVENTS.lines() {
        let grown = with_line(alloc, events, line)?;
        events = grown;
    }
    Some(events)
}

/// The step of what is found, or 9.
fn step_of(found: Option<&Event>) -> u32 {
    match found {
        None => 9,
        Some(event) => event.place().step,
    }
}

/// Whether both kinds of time state find what the line says.
fn both_find(alloc: Global, plain: &Plain, indexed: &Indexed, line: &str) -> Option<bool> {
    let (seconds, rest) = line.split_once(' ')?;
    let (step, rest) = rest.split_once(' ')?;
    let (word, rest) = rest.split_once(' ')?;
    let (below, above) = rest.split_once(' ')?;
    let place = place_of_step(alloc, seconds.parse().ok()?, step.parse().ok()?)?;
    let pattern = pattern_of(alloc, word)?;
    let below: u32 = below.parse().ok()?;
    let above: u32 = above.parse().ok()?;
    let by_plain = step_of(plain.last(place.as_ref(), &pattern)) == below
        && step_of(plain.next(place.as_ref(), &pattern)) == above;
    let by_indexed = step_of(indexed.last(place.as_ref(), &pattern)) == below
        && step_of(indexed.next(place.as_ref(), &pattern)) == above;
    Some(by_plain && by_indexed)
}

/// The first line of which one kind of time state finds something else.
fn first_wrong(alloc: Global) -> Option<&'static str> {
    let mut plain = Plain::empty(alloc).ok()?;
    plain.put(alloc, all_events(alloc)?).ok()?;
    let mut indexed = Indexed::empty(alloc).ok()?;
    indexed.put(alloc, all_events(alloc)?).ok()?;
    for line in LOOK_UPS.lines() {
        if !both_find(alloc, &plain, &indexed, line)? {
            return Some(line);
        }
    }
    Some("none")
}

#[test]
fn both_kinds_of_time_state_find_the_same(rt: HostRuntime) -> Result<(), Fail> {
    assert_eq!(rt; first_wrong(rt.alloc()), Some("none"));
    Ok(())
}
