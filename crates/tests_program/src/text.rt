//! Lines and scores, with answers written by hand.

ghost use Rattle.std.specs.Prelude.{◌≡◌};
ghost use Rattle.vt_event.specs.Kinds.{is_sample_name};

use crate::event::place_of;
use std::alloc::Global;
use vt_event::{
    BlockRef, Event, Events, FxId, Living, LivingState, Livings, Locals, Options, Place, Score,
    ThreadId,
};
use vt_frac::{Frac, Name};
use vt_path::{Path, parse_path, parse_pattern};
use vt_text::{line, score_text};
use vt_value::{FaultKind, Integer, Items, Symbol, Value};

/// A place of the thread 1.2.
const HERE: &str = "5/2 1 1.2 3";

fn name_of(alloc: Global, text: &str) -> Option<Name> {
    Name::of(alloc, text.as_bytes()).ok()
}

fn symbol_of(alloc: Global, name: &str) -> Option<Value> {
    Some(Value::Sym(Symbol::new(name_of(alloc, name)?)?))
}

fn part_of(n: &str, d: &str) -> Option<Value> {
    let fraction = Frac::new(n.parse::<i64>().ok()?, d.parse::<i64>().ok()?);
    Some(Value::Part(fraction.ok()?))
}

/// The value of a text, where the only ring is `[]`.
pub(crate) fn value_of(alloc: Global, text: &str) -> Option<Value> {
    if text == "nil" {
        return Some(Value::Nil);
    }
    if text == "[]" {
        return Some(Value::Ring(Items::new(alloc)));
    }
    if let Ok(truth) = text.parse::<bool>() {
        return Some(Value::Bool(truth));
    }
    if let Some(name) = text.strip_prefix(':') {
        return symbol_of(alloc, name);
    }
    if let Some(bytes) = text.strip_prefix('"') {
        return Some(Value::Text(name_of(alloc, bytes)?));
    }
    if let Some((n, d)) = text.split_once('/') {
        return part_of(n, d);
    }
    Some(Value::Whole(Integer::new(text.parse::<i64>().ok()?)?))
}

/// Adds the values of some texts with `|` between them.
fn add_values(alloc: Global, items: &mut Items, texts: &str) -> Option<()> {
    for text in texts.split('|') {
        items.push(value_of(alloc, text)?).ok()?;
    }
    Some(())
}

pub(crate) fn ring_of(alloc: Global, texts: &str) -> Option<Items> {
    let mut items = Items::new(alloc);
    add_values(alloc, &mut items, texts)?;
    Some(items)
}

/// A value of every form. A text has one quote, before its bytes.
const FORMS: &str =
    "nil|true|false|-9223372036854775807|-2/4|6/3|:bd_haus|\"\\\"\n\t\x00\x1f\x7fé ~";

/// A ring that holds a value of every form, nil and a ring among them.
fn ring(alloc: Global) -> Option<Value> {
    let mut items = ring_of(alloc, FORMS)?;
    add_ring(alloc, &mut items, "nil|[]")?;
    Some(Value::Ring(items))
}

fn add_ring(alloc: Global, items: &mut Items, texts: &str) -> Option<()> {
    items.push(Value::Ring(ring_of(alloc, texts)?)).ok()
}

/// What sounds, without its kind.
#[derive(Drop)]
struct Sound {
    place: Place,
    name: Name,
    value: Value,
    options: Options,
    fx: Option<FxId>,
}

fn add_option(alloc: Global, options: &mut Options, name: &str, value: Value) -> Option<()> {
    let name = name_of(alloc, name)?;
    options.push((name, value)).ok()
}

/// Adds two options.
fn add_options(alloc: Global, options: &mut Options) -> Option<()> {
    add_option(alloc, options, "amp", part_of("1", "2")?)?;
    add_option(alloc, options, "pan", value_of(alloc, "-1")?)
}

fn thread_of(alloc: Global) -> Option<ThreadId> {
    ThreadId::of_text(alloc, 1).child(alloc, 2).ok()
}

/// Effect 7 of the thread 1.2.
fn effect(alloc: Global) -> Option<FxId> {
    let thread = thread_of(alloc)?;
    Some(FxId { thread, number: 7 })
}

/// What sounds at a place, without options and effect.
fn bare(alloc: Global, place: &str, name: &str, value: &str) -> Option<Sound> {
    let value = value_of(alloc, value)?;
    let name = name_of(alloc, name)?;
    let place = place_of(alloc, place)?;
    Some(Sound {
        place,
        name,
        value,
        options: Options::new(alloc),
        fx: None,
    })
}

/// Adds the two options and the effect where the words say so.
fn add_setting(alloc: Global, sound: &mut Sound, words: &str) -> Option<()> {
    if words.starts_with("amp pan") {
        add_options(alloc, &mut sound.options)?;
    }
    if words.ends_with("in") {
        sound.fx = Some(effect(alloc)?);
    }
    Some(())
}

fn play_of(sound: Sound) -> Option<Event> {
    if sound.value.number().is_none() {
        return None;
    }
    let Sound {
        place,
        name,
        value,
        options,
        fx,
    } = sound;
    Some(Event::of_play(place, name, value, options, fx))
}

fn synth_of(sound: Sound) -> Option<Event> {
    let Sound {
        place,
        name,
        value: _,
        options,
        fx,
    } = sound;
    Some(Event::of_synth(place, name, options, fx))
}

/// Whether a value names a sample.
fn names_sample(value: &Value) -> bool
    ensures { result ≡ is_sample_name value.now }
{
    match value {
        Value::Sym(_) => true,
        Value::Text(_) => true,
        Value::Nil => false,
        Value::Bool(_) => false,
        Value::Whole(_) => false,
        Value::Part(_) => false,
        Value::Ring(_) => false,
    }
}

fn sample_of(alloc: Global, sound: Sound) -> Option<Event> {
    if !names_sample(&sound.value) {
        return None;
    }
    let Sound {
        place,
        name: _,
        value,
        options,
        fx,
    } = sound;
    Event::of_sample(alloc, place, value, options, fx).ok()
}

fn fx_of(sound: Sound, number: u32) -> Option<Event> {
    let Sound {
        place,
        name,
        value: _,
        options,
        fx,
    } = sound;
    Some(Event::of_fx(place, name, number, options, fx))
}

/// The event of a kind.
fn sounding(alloc: Global, kind: &str, number: u32, sound: Sound) -> Option<Event> {
    if kind == "play" {
        return play_of(sound);
    }
    if kind == "synth" {
        return synth_of(sound);
    }
    if kind == "sample" {
        return sample_of(alloc, sound);
    }
    fx_of(sound, number)
}

/// The event of a row.
fn sound_of(alloc: Global, row: &str) -> Option<Event> {
    let (kind, rest) = row.split_once("; ")?;
    let (place, rest) = rest.split_once("; ")?;
    let (name, rest) = rest.split_once("; ")?;
    let (value, words) = rest.split_once("; ")?;
    let number = value.parse::<u32>().unwrap_or(0);
    let mut sound = bare(alloc, place, name, value)?;
    add_setting(alloc, &mut sound, words)?;
    sounding(alloc, kind, number, sound)
}

/// What sounds, with and without options, effect and micro step: its kind, place, name and value, and words for the two
/// options and for the effect.
const SOUNDS: &str = "\
play; 0/1 0 1.2 3; beep; 60; -
play; 5/2 1 1.2 3; saw; -7; amp pan in
synth; 5/2 1 1.2 3; beep; nil; in
sample; 5/2 1 1.2 3; -; :bd_haus; amp pan
sample; 5/2 1 1.2 3; -; \"a \"b\"; in
fx; 5/2 1 1.2 3; echo; 8; in
fx; 5/2 1 1.2 3; echo; 4294967295; amp pan
";

pub(crate) fn push(events: &mut Events, event: Option<Event>) -> Option<()> {
    events.push(event?).ok()
}

fn add_sounds(alloc: Global, events: &mut Events) -> Option<()> {
    for row in SOUNDS.lines() {
        push(events, sound_of(alloc, row))?;
    }
    Some(())
}

/// A place and a path.
#[derive(Drop)]
struct Sign {
    place: Place,
    path: Path,
}

fn sign_of(alloc: Global, path: &str) -> Option<Sign> {
    let path = parse_path(alloc, path.as_bytes()).ok()?;
    let place = place_of(alloc, HERE)?;
    Some(Sign { place, path })
}

/// The ring that holds a value of every form, or the value of a text.
fn content_of(alloc: Global, text: &str) -> Option<Value> {
    if text == "ring" {
        return ring(alloc);
    }
    value_of(alloc, text)
}

fn cue(alloc: Global, content: &str) -> Option<Event> {
    let Sign { place, path } = sign_of(alloc, "/cue/a")?;
    let value = content_of(alloc, content)?;
    Event::of_cue(alloc, place, path, value).ok()
}

fn set(alloc: Global, content: &str) -> Option<Event> {
    let Sign { place, path } = sign_of(alloc, "/set/x")?;
    let value = content_of(alloc, content)?;
    Event::of_set(alloc, place, path, value).ok()
}

fn took(alloc: Global, content: &str) -> Option<Event> {
    let Sign { place, path } = sign_of(alloc, "/a/b-c.d")?;
    let value = content_of(alloc, content)?;
    Event::of_took(alloc, place, path, value).ok()
}

fn log(alloc: Global, content: &str) -> Option<Event> {
    let place = place_of(alloc, HERE)?;
    let value = content_of(alloc, content)?;
    Event::of_log(alloc, place, value).ok()
}

fn fault(alloc: Global) -> Option<Event> {
    let place = place_of(alloc, HERE)?;
    Event::of_fault(alloc, place, FaultKind::NoSleep, 4294967295).ok()
}

/// Cues, sets, logs and takes, of rings and of other values, and a fault.
fn add_signs(alloc: Global, events: &mut Events) -> Option<()> {
    push(events, cue(alloc, "ring"))?;
    push(events, cue(alloc, "[]"))?;
    push(events, set(alloc, "ring"))?;
    push(events, log(alloc, "ring"))?;
    push(events, log(alloc, "nil"))?;
    push(events, took(alloc, "3"))?;
    push(events, fault(alloc))
}

/// The block that inner events refer to.
const BLOCK: BlockRef = BlockRef { text: 1, block: 1 };

fn body(alloc: Global) -> Option<Event> {
    let Sign { place, path } = sign_of(alloc, "/a")?;
    Event::of_body(alloc, place, path, BLOCK, Locals::new(alloc), 9).ok()
}

fn defined(alloc: Global) -> Option<Event> {
    let Sign { place, path } = sign_of(alloc, "/a")?;
    Event::of_defined(alloc, place, path, BLOCK, Locals::new(alloc)).ok()
}

fn started(alloc: Global) -> Option<Event> {
    let Sign { place, path } = sign_of(alloc, "/a")?;
    Event::of_started(alloc, place, path).ok()
}

fn ended(alloc: Global) -> Option<Event> {
    let Sign { place, path } = sign_of(alloc, "/a")?;
    Event::of_ended(alloc, place, path).ok()
}

/// Inner events, which no score shows.
fn add_inner_events(alloc: Global, events: &mut Events) -> Option<()> {
    push(events, body(alloc))?;
    push(events, defined(alloc))?;
    push(events, started(alloc))?;
    push(events, ended(alloc))
}

fn add_living(livings: &mut Livings, thread: ThreadId, state: LivingState) -> Option<()> {
    livings.push(Living { thread, state }).ok()
}

/// A thread that waits for an event at a path of this pattern.
fn add_waiting(
    alloc: Global,
    livings: &mut Livings,
    thread: ThreadId,
    pattern: &str,
) -> Option<()> {
    let pattern = parse_pattern(alloc, pattern.as_bytes()).ok()?;
    add_living(livings, thread, LivingState::Waiting(pattern))
}

/// Three threads that go on living.
fn add_livings(alloc: Global, livings: &mut Livings) -> Option<()> {
    let asleep = LivingState::Asleep(Frac::new(121, 2).ok()?);
    add_living(livings, ThreadId::of_text(alloc, 1), asleep)?;
    let child = ThreadId::of_text(alloc, 1).child(alloc, 10).ok()?;
    add_waiting(alloc, livings, child, "/**/a?[b-d]{e,f}*")?;
    let second = ThreadId::of_text(alloc, 2);
    add_waiting(alloc, livings, second, "/{cue,set,live_loop}/a")
}

/// All of them, one after another.
pub(crate) fn events(alloc: Global) -> Option<Events> {
    let mut events = Events::new(alloc);
    add_events(alloc, &mut events)?;
    Some(events)
}

fn add_events(alloc: Global, events: &mut Events) -> Option<()> {
    add_sounds(alloc, events)?;
    add_inner_events(alloc, events)?;
    add_signs(alloc, events)
}

/// Its text.
const TEXT: &str = "0 1.2 play :beep 60\n\
    5/2+1 1.2 play :saw -7 amp: 1/2 pan: -1 in 1.2#7\n\
    5/2+1 1.2 synth :beep in 1.2#7\n\
    5/2+1 1.2 sample :bd_haus amp: 1/2 pan: -1\n\
    5/2+1 1.2 sample \"a \\\"b\\\"\" in 1.2#7\n\
    5/2+1 1.2 fx 8 :echo in 1.2#7\n\
    5/2+1 1.2 fx 4294967295 :echo amp: 1/2 pan: -1\n\
    5/2+1 1.2 cue /cue/a nil true false -9223372036854775807 -1/2 2 :bd_haus \"\\\\\\\"\\n\\t\\x00\\x1f\\x7fé ~\" [nil, []]\n\
    5/2+1 1.2 cue /cue/a\n\
    5/2+1 1.2 set /set/x [nil, true, false, -9223372036854775807, -1/2, 2, :bd_haus, \"\\\\\\\"\\n\\t\\x00\\x1f\\x7fé ~\", [nil, []]]\n\
    5/2+1 1.2 log nil true false -9223372036854775807 -1/2 2 :bd_haus \"\\\\\\\"\\n\\t\\x00\\x1f\\x7fé ~\" [nil, []]\n\
    5/2+1 1.2 log nil\n\
    5/2+1 1.2 took /a/b-c.d 3\n\
    5/2+1 1.2 fault no_sleep 4294967295\n\
    asleep 1 121/2\n\
    waiting 1.10 /**/a?[b-d]{e,f}*\n\
    waiting 2 /{cue,set,live_loop}/a\n\
    end 14\n";

/// Whether this is the text of a score.
pub(crate) fn is_text(alloc: Global, score: &Score, want: &str) -> bool {
    match score_text(alloc, score) {
        Ok(text) => text.as_slice() == want.as_bytes(),
        Err(_) => false,
    }
}

/// A score in which nothing happened.
pub(crate) fn empty_score(alloc: Global) -> Score {
    Score {
        events: Events::new(alloc),
        living: Livings::new(alloc),
    }
}

/// Whether the score of all events and of the threads that go on living has this text.
fn all_is_text(alloc: Global, want: &str) -> Option<bool> {
    let mut score = empty_score(alloc);
    add_events(alloc, &mut score.events)?;
    add_livings(alloc, &mut score.living)?;
    Some(is_text(alloc, &score, want))
}

#[test]
fn each_kind_and_each_value_has_its_form(rt: HostRuntime) {
    assert_eq!(rt; all_is_text(rt.alloc(), TEXT), Some(true));
}

#[test]
fn an_empty_score_is_its_end(rt: HostRuntime) {
    assert!(rt; is_text(rt.alloc(), &empty_score(rt.alloc()), "end 0\n"));
}

/// What is logged at a late micro step.
fn late_event(alloc: Global) -> Option<Event> {
    let place = place_of(alloc, "3/1 4294967295 1.2 3")?;
    Event::of_log(alloc, place, Value::Bool(true)).ok()
}

/// Whether this is the line of the event.
fn is_line(alloc: Global, event: &Event, want: &str) -> Option<bool> {
    if !event.kind().is_shown() {
        return None;
    }
    let line = line(alloc, event).ok()?;
    Some(line.as_slice() == want.as_bytes())
}

fn late_is_line(alloc: Global, want: &str) -> Option<bool> {
    let event = late_event(alloc)?;
    is_line(alloc, &event, want)
}

#[test]
fn a_line_has_no_newline(rt: HostRuntime) {
    assert_eq!(rt;
        late_is_line(rt.alloc(), "3+4294967295 1.2 log true"),
        Some(true)
    );
}
