//! What calls come to: the value, the line of the event, or the word of the fault; one after another in one thread.

use crate::reader::given_of;
use std::alloc::Global;
use vt_effects::{
    computed, cue, current_bpm, look, note_event, play, puts, rt, sample, set, synth, tick,
    tick_reset, tick_set, use_bpm, use_debug, use_random_seed, use_synth, use_synth_defaults, vt,
};
use vt_event::{Event, Locals, Options, ThreadId};
use vt_frac::{Frac, Name};
use vt_given::{Given, Notes};
use vt_rand::Stream;
use vt_run::{Settings, State, Tempo, Ticks};
use vt_table::{CallName, call_of};
use vt_text::line;
use vt_value::{Value, ValueFault};

/// Calls in the thread 1.2 at 1/2 seconds, micro step 3, with the tempo 120, one after another. A call after a dot has the
/// value before the dot first. `play` gives a line for each note, with ` ; ` between them.
const CALLS: &str = "tick => 0
tick :x => 0
tick => 1
.tick [5,6,7] => 7
look => 2
.look [5,6,7] :x => 5
look :none => 0
tick_set 9223372036854775807 => nil
tick => overflow
look => 9223372036854775807
tick_set :x 4 => nil
tick_reset :x => nil
look :x => 0
tick_reset :x :x => wrong_count
.tick [] => empty_ring
tick 7 => wrong_kind
vt => 1/2
rt 3 => 6
current_bpm => 120
use_bpm 0 => bad_value
use_bpm 90 => nil
rt 1/3 => 1/2
use_debug true => nil
use_random_seed -1 => bad_value
use_random_seed 42 => nil
rand_i 12 => 9
pick [7,8,9] 2 => [9, 7]
choose [] => empty_ring
cue :a 1 [2,:b] => 1/2+3 1.2 cue /cue/a 1 [2, :b]
cue \"/x/y => 1/2+3 1.2 cue /x/y
cue \"a.b => bad_path
cue 7 => wrong_kind
cue => wrong_count
set \"b 2/3 => 1/2+3 1.2 set /set/b 2/3
set :b => wrong_count
puts 1 \"t nil => 1/2+3 1.2 log 1 \"t\" nil
puts => 1/2+3 1.2 log
synth :saw note:60 => 1/2+3 1.2 synth :saw note: 60
synth \"saw => wrong_kind
sample :kick rate:1/2 => 1/2+3 1.2 sample :kick rate: 1/2
sample \"kick => 1/2+3 1.2 sample \"kick\"
sample 60 => wrong_kind
play 60 amp:2 => 1/2+3 1.2 play :beep 60 amp: 2
use_synth 60 => wrong_kind
use_synth :saw => nil
use_synth_defaults amp:1/4 pan:1 => nil
play [:c4,nil,61,:r] amp:2 => 1/2+3 1.2 play :saw 60 amp: 2 pan: 1 ; 1/2+3 1.2 play :saw 61 amp: 2 pan: 1
play :rest => silence
play [60,:xx,\"t] => wrong_kind
play [60,:xx] => bad_note
play => wrong_count";

/// The tempo, or the time, that is so many over one.
fn fraction(numer: i64, denom: i64) -> Option<Frac> {
    Frac::new(numer, denom).ok()
}

/// What a thread plays with at first.
fn settings(alloc: Global) -> Option<Settings> {
    Some(Settings {
        bpm: Tempo::new(fraction(120, 1)?)?,
        synth: Name::of(alloc, b"beep").ok()?,
        defaults: Options::new(alloc),
        fx: None,
    })
}

/// Where the thread stands at first.
pub(crate) fn opening(alloc: Global) -> Option<State> {
    Some(State {
        time: fraction(1, 2)?,
        micro: 3,
        step: 4,
        locals: Locals::new(alloc),
        settings: settings(alloc)?,
        ticks: Ticks::new(alloc),
        stream: Stream::from_seed(7),
        effects: 0,
        children: 0,
        used: 0,
        moved: false,
    })
}

pub(crate) fn thread(alloc: Global) -> Option<ThreadId> {
    ThreadId::of_text(alloc, 1).child(alloc, 2).ok()
}

/// A call that gives a value, if it is one.
fn valued(
    alloc: Global,
    call: &str,
    given: &Given,
    state: &mut State,
) -> Option<Result<Value, ValueFault>> {
    match call {
        "tick" => Some(tick(alloc, given, state)),
        "look" => Some(look(alloc, given, state)),
        "tick_set" => Some(tick_set(alloc, given, state)),
        "tick_reset" => Some(tick_reset(alloc, given, state)),
        "use_synth" => Some(use_synth(alloc, given, state)),
        "use_synth_defaults" => Some(use_synth_defaults(alloc, given, state)),
        "use_bpm" => Some(use_bpm(given, state)),
        "use_random_seed" => Some(use_random_seed(given, state)),
        _ => read(alloc, call, given, state),
    }
}

/// A call that changes at most the stream, if it is one.
fn read(
    alloc: Global,
    call: &str,
    given: &Given,
    state: &mut State,
) -> Option<Result<Value, ValueFault>> {
    match call {
        "vt" => Some(Ok(vt(state))),
        "current_bpm" => Some(Ok(current_bpm(state))),
        "rt" => Some(rt(given, state).map_err(ValueFault::Fault)),
        "use_debug" => Some(use_debug(given).map_err(ValueFault::Fault)),
        _ => drawn(alloc, call, given, state),
    }
}

/// A pure or random call, if it is one.
fn drawn(
    alloc: Global,
    call: &str,
    given: &Given,
    state: &mut State,
) -> Option<Result<Value, ValueFault>> {
    let row = call_of(call.as_bytes())?;
    if row.effect {
        return None;
    }
    Some(computed(alloc, CallName::of_number(row.number), given, state))
}

/// A call that publishes an event, if it is one.
fn published(
    alloc: Global,
    call: &str,
    given: &Given,
    state: &State,
) -> Option<Result<Event, ValueFault>> {
    let thread = thread(alloc)?;
    match call {
        "cue" => Some(cue(alloc, &thread, given, state)),
        "set" => Some(set(alloc, &thread, given, state)),
        "puts" => Some(puts(alloc, &thread, given, state)),
        "synth" => Some(synth(alloc, &thread, given, state)),
        "sample" => Some(sample(alloc, &thread, given, state)),
        _ => None,
    }
}

/// The word of a fault.
pub(crate) fn word_of(alloc: Global, fault: ValueFault) -> Option<Vec<u8>> {
    match fault {
        ValueFault::Fault(kind) => Vec::from_slice(alloc, kind.word().as_bytes()).ok(),
        ValueFault::NoMemory => None,
    }
}

pub(crate) fn text_of(alloc: Global, value: &Value) -> Option<Vec<u8>> {
    let mut text = Vec::new(alloc);
    value.write(alloc, &mut text).ok()?;
    Some(text)
}

/// The line of an event that a score shows.
pub(crate) fn line_of(alloc: Global, event: &Event) -> Option<Vec<u8>> {
    if !event.kind().is_shown() {
        return None;
    }
    line(alloc, event).ok()
}

/// The lines of notes.
fn lines_of(alloc: Global, given: &Given, notes: &Notes, state: &State) -> Option<Vec<u8>> {
    let thread = thread(alloc)?;
    let mut text = Vec::new(alloc);
    for note in notes.as_slice() {
        if !text.is_empty() {
            text.extend_from_slice(b" ; ").ok()?;
        }
        let event = note_event(alloc, &thread, given.options(), note, state).ok()?;
        text.extend_from_slice(line_of(alloc, &event)?.as_slice())
            .ok()?;
    }
    if text.is_empty() {
        text.extend_from_slice(b"silence").ok()?;
    }
    Some(text)
}

/// What a call comes to.
fn answer_of(alloc: Global, call: &str, given: &Given, state: &mut State) -> Option<Vec<u8>> {
    if call == "play" {
        return match play(alloc, given) {
            Ok(notes) => lines_of(alloc, given, &notes, state),
            Err(fault) => word_of(alloc, fault),
        };
    }
    if let Some(answer) = published(alloc, call, given, state) {
        return match answer {
            Ok(event) => line_of(alloc, &event),
            Err(fault) => word_of(alloc, fault),
        };
    }
    match valued(alloc, call, given, state)? {
        Ok(value) => text_of(alloc, &value),
        Err(fault) => word_of(alloc, fault),
    }
}

/// Whether the call of a row comes to what the row says.
fn holds(alloc: Global, row: &str, state: &mut State) -> Option<bool> {
    let (words, want) = row.split_once(" => ")?;
    let (call, words) = words.split_once(' ').unwrap_or((words, ""));
    let name = call.strip_prefix('.').unwrap_or(call);
    let given = given_of(alloc, call.starts_with('.'), words)?;
    Some(answer_of(alloc, name, &given, state)?.as_slice() == want.as_bytes())
}

/// The first call that comes to something else, or nothing.
fn wrong_call(alloc: Global) -> Option<&'static str> {
    let Some(mut state) = opening(alloc) else {
        return Some("no state");
    };
    for row in CALLS.lines() {
        if holds(alloc, row, &mut state) != Some(true) {
            return Some(row);
        }
    }
    None
}

#[test]
fn calls_come_to_values_and_events(rt: HostRuntime) {
    assert_eq!(rt; wrong_call(rt.alloc()), None);
}
