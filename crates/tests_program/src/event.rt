//! Places in their order, the fields that an event of each kind has, and inputs.

use crate::text::{empty_score, events, is_text, push, ring_of, value_of};
use std::alloc::Global;
use std::collections::BTreeMap;
use vt_event::{Event, Inputs, Kind, Place, ThreadId};
use vt_frac::{Frac, is_symbol_name};
use vt_path::{InnerKind, inner, parse_path};
use vt_value::Value;

/// Places in their order, each by its time, micro step, thread and step.
const PLACES: &str = "0/1 0 0 1\n\
    0/1 0 1 1\n\
    0/1 0 1 2\n\
    0/1 0 1.1 1\n\
    0/1 0 1.1.1 1\n\
    0/1 0 1.2 1\n\
    0/1 0 1.10 1\n\
    0/1 0 2 0\n\
    0/1 1 1 1\n\
    1/3 0 9.9.9.9.9 4294967295\n\
    1/2 0 1 1\n\
    1/2 4294967295 1 1\n\
    2/1 0 1 1";

/// The thread of a list of numbers with dots between them.
fn thread_of(alloc: Global, text: &str) -> Option<ThreadId> {
    let (first, rest) = text.split_once('.').unwrap_or((text, ""));
    let first = first.parse::<u32>().ok()?;
    if first == 0 {
        return Some(ThreadId::of_inputs(alloc));
    }
    children(alloc, ThreadId::of_text(alloc, first), rest)
}

/// The thread with the numbers of a text behind its own.
fn children(alloc: Global, mut thread: ThreadId, text: &str) -> Option<ThreadId> {
    for number in text.split('.').filter(|number| !number.is_empty()) {
        if thread.is_full() {
            return None;
        }
        thread = thread.child(alloc, number.parse::<u32>().ok()?).ok()?;
    }
    Some(thread)
}

/// The time of a text such as `1/3`.
fn time_of(text: &str) -> Option<Frac> {
    let (numer, denom) = text.split_once('/')?;
    Frac::new(numer.parse::<i64>().ok()?, denom.parse::<i64>().ok()?).ok()
}

/// The place of a line.
pub(crate) fn place_of(alloc: Global, line: &str) -> Option<Place> {
    let (time, rest) = line.split_once(' ')?;
    let (micro, rest) = rest.split_once(' ')?;
    let (thread, step) = rest.split_once(' ')?;
    let time = time_of(time)?;
    let micro = micro.parse::<u32>().ok()?;
    let step = step.parse::<u32>().ok()?;
    let thread = thread_of(alloc, thread)?;
    Some(Place {
        time,
        micro,
        thread,
        step,
    })
}

fn places(alloc: Global, lines: &str) -> Option<Vec<Place>> {
    let mut places = Vec::new(alloc);
    for line in lines.lines() {
        places.push(place_of(alloc, line)?).ok()?;
    }
    Some(places)
}

/// Whether the place at an index stands behind those before it, and before those behind it.
fn stands_at(places: &[Place], at: usize, place: &Place) -> bool {
    places.iter().enumerate().all(|(i, other)| {
        other.cmp(place) == i.cmp(&at) && other.as_ref().cmp(&place.as_ref()) == i.cmp(&at)
    })
}

/// Whether the lines are so many places in their order.
fn are_rising(alloc: Global, lines: &str, count: usize) -> Option<bool> {
    let places = places(alloc, lines)?;
    let places = places.as_slice();
    let rising = places
        .iter()
        .enumerate()
        .all(|(at, place)| stands_at(places, at, place));
    Some(rising && places.len() == count)
}

#[test]
fn places_stand_by_time_micro_step_thread_and_step(rt: HostRuntime) {
    assert_eq!(rt; are_rising(rt.alloc(), PLACES, 13), Some(true));
}

fn insert(map: &mut BTreeMap<Place, u32>, place: Place) -> Option<()> {
    let step = place.step;
    map.insert(place, step).ok()?;
    Some(())
}

/// Whether the steps of a map are 1 to so many, in this order.
fn are_counted(map: &BTreeMap<Place, u32>, count: u32) -> bool {
    let mut last: u32 = 0;
    for (_, step) in map {
        if *step != last.saturating_add(1) {
            return false;
        }
        last = *step;
    }
    last == count
}

/// Whether a map that is sorted by place has the places of some lines by their steps, which are 1 to so many.
fn are_sorted(alloc: Global, lines: &str, count: u32) -> Option<bool> {
    let mut map = BTreeMap::new(alloc);
    for line in lines.lines() {
        insert(&mut map, place_of(alloc, line)?)?;
    }
    Some(are_counted(&map, count))
}

#[test]
fn a_sorted_map_keeps_places_in_order(rt: HostRuntime) {
    let lines = "1/1 0 1 4\n1/2 1 1 3\n1/2 0 1.1 2\n1/2 0 1 1";
    assert_eq!(rt; are_sorted(rt.alloc(), lines, 4), Some(true));
}

/// The word of a kind.
fn word_of(kind: Kind) -> &'static str {
    match kind {
        Kind::Play => "play",
        Kind::Synth => "synth",
        Kind::Sample => "sample",
        Kind::Fx => "fx",
        Kind::Cue => "cue",
        Kind::Set => "set",
        Kind::Log => "log",
        Kind::Took => "took",
        Kind::Fault(_) => "fault",
        Kind::Body => "body",
        Kind::Defined => "defined",
        Kind::Started => "started",
        Kind::Ended => "ended",
    }
}

/// Whether a field is there exactly where its name is among the words.
fn is_told(words: &str, name: &str, is_there: bool) -> bool {
    words.split(' ').any(|word| word == name) == is_there
}

/// Whether an event is of the kind of a row, and the fields that are not empty are those that the row names.
fn has_fields(event: &Event, row: &str) -> bool {
    let (kind, fields) = row.split_once(' ').unwrap_or((row, ""));
    kind == word_of(event.kind())
        && is_told(fields, "path", event.path().is_some())
        && is_told(fields, "name", !event.name().as_bytes().is_empty())
        && is_told(fields, "value", !matches!(event.value(), Value::Nil))
        && is_told(fields, "options", !event.options().as_slice().is_empty())
        && is_told(fields, "effect", event.fx().is_some())
        && is_told(fields, "body", event.body().is_some())
        && is_told(fields, "line", event.line() > 0)
}

/// Whether a copy of the event has the fields of a row.
fn copy_has_fields(alloc: Global, event: &Event, row: &str) -> bool {
    match event.copy(alloc) {
        Ok(copied) => has_fields(&copied, row),
        Err(_) => false,
    }
}

/// Whether copies of these events have the fields of the rows, each of its row.
fn have_fields(alloc: Global, events: &[Event], rows: &str) -> bool {
    let mut left = events;
    for row in rows.lines() {
        match left.split_first() {
            Some((event, rest)) if copy_has_fields(alloc, event, row) => left = rest,
            _ => return false,
        }
    }
    left.is_empty()
}

/// The fields of all events of the score.
const FIELDS: &str = "play name value
play name value options effect
synth name effect
sample value options
sample value effect
fx name value effect
fx name value options
body path body line
defined path body
started path
ended path
cue path value
cue path value
set path value
log value
log
took path value
fault line";

fn all_have_fields(alloc: Global) -> Option<bool> {
    let events = events(alloc)?;
    Some(have_fields(alloc, events.as_slice(), FIELDS))
}

#[test]
fn each_kind_has_its_fields_and_no_others(rt: HostRuntime) {
    assert_eq!(rt; all_have_fields(rt.alloc()), Some(true));
}

fn given_cue(alloc: Global) -> Option<Event> {
    let path = parse_path(alloc, b"/pad/x").ok()?;
    let place = place_of(alloc, "1/1 0 0 1")?;
    let value = Value::Ring(ring_of(alloc, "64")?);
    Event::of_cue(alloc, place, path, value).ok()
}

fn given_set(alloc: Global) -> Option<Event> {
    let path = parse_path(alloc, b"/set/x").ok()?;
    let place = place_of(alloc, "1/1 0 0 2")?;
    let value = value_of(alloc, "5")?;
    Event::of_set(alloc, place, path, value).ok()
}

/// A stop of the live loop of this name.
fn given_stop(alloc: Global, name: &[u8]) -> Option<Event> {
    if !is_symbol_name(name) {
        return None;
    }
    let path = inner(alloc, InnerKind::Stop, name).ok()?;
    let place = place_of(alloc, "2/1 0 0 3")?;
    Event::of_ended(alloc, place, path).ok()
}

/// Adds an input of each sort.
fn add_inputs(alloc: Global, inputs: &mut Inputs) -> Option<()> {
    push(inputs, given_cue(alloc))?;
    push(inputs, given_set(alloc))?;
    push(inputs, given_stop(alloc, b"a"))
}

/// Whether the score in which the inputs alone happened has this text.
fn inputs_are_text(alloc: Global, want: &str) -> Option<bool> {
    let mut score = empty_score(alloc);
    add_inputs(alloc, &mut score.events)?;
    Some(is_text(alloc, &score, want))
}

#[test]
fn a_score_shows_given_cues_and_sets_and_no_stop(rt: HostRuntime) {
    let shown = "1 0 cue /pad/x 64\n1 0 set /set/x 5\nend 2\n";
    assert_eq!(rt; inputs_are_text(rt.alloc(), shown), Some(true));
}

/// Whether the path of an event is written so.
fn has_path(alloc: Global, event: &Event, want: &str) -> Option<bool> {
    let mut path = Vec::new(alloc);
    event.path()?.write(alloc, &mut path).ok()?;
    Some(path.as_slice() == want.as_bytes())
}

/// Whether a stop is an end with a path, which is written so.
fn stop_is_end(alloc: Global, want: &str) -> Option<bool> {
    let stop = given_stop(alloc, b"a")?;
    Some(copy_has_fields(alloc, &stop, "ended path") && has_path(alloc, &stop, want)?)
}

#[test]
fn a_stop_is_an_end_at_its_own_path(rt: HostRuntime) {
    assert_eq!(rt; stop_is_end(rt.alloc(), "/!stop/a"), Some(true));
}
