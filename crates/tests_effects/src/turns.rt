//! What the calls with a block or with turns are given: the rests and values of `at`, the items of patterns, roles.

use crate::calls::{opening, text_of, word_of};
use crate::reader::given_of;
use std::alloc::Global;
use vt_effects::{a_pattern, loop_parts, name_path, stop_pattern, thread_role};
use vt_given::{Given, Notes, PatternItems, Timings, at_timings, even_items, timed_items};
use vt_path::{Path, Pattern};
use vt_run::Role;
use vt_value::{FaultKind, Value, ValueFault};

/// At the tempo 120, so a beat lasts half a second. The threads of `at`, each its rest in seconds and its value; the items
/// of patterns, each its notes and its beats; the roles of threads, with the path of the name, the pattern of the stop, the
/// value of the first turn and what is waited for; the patterns of reads and waits.
const GIVEN: &str = "at 3 => 3/2 3;
at [1,1/2] => 1/2 1; 1/4 1/2;
at [1,2,3] [:a,:b] => 1/2 :a; 1 :b; 3/2 :a;
at [] =>
at [] [] =>
at [1] [] => empty_ring
at [0,-1] [] => bad_value
at [0,nil] 7 => wrong_kind
at [-1] 7 => wrong_kind
at => wrong_count
at 1 [] [] => wrong_count
at [0,1/9223372036854775807] => overflow
play_pattern [60,nil,:c4] => 60 1; 1; 60 1;
play_pattern [] =>
play_pattern 60 => wrong_kind
play_pattern [:xx,\"t] => wrong_kind
play_pattern [60,:xx] => bad_note
play_pattern_timed [60,62,64] [1,1/2] => 60 1; 62 1/2; 64 1;
play_pattern_timed [60,62] 1/4 => 60 1/4; 62 1/4;
play_pattern_timed [60] [2,nil] => 60 2;
play_pattern_timed [60,:xx] [2,nil] => wrong_kind
play_pattern_timed [60,:xx] [2,-1] => bad_note
play_pattern_timed [60,62] [2,-1] => bad_value
play_pattern_timed [60] [] => empty_ring
play_pattern_timed [] [] =>
play_pattern_timed [] nil => wrong_kind
play_pattern_timed [60] => wrong_count
in_thread => plain
in_thread name::x => :x /!name/x
in_thread name:7 => wrong_kind
live_loop :a => :a /!loop/a /!stop/a nil
live_loop :a sync::go init:[1,2] => :a /!loop/a /!stop/a [1, 2] /{cue,set,live_loop}/go
live_loop :a sync:\"a.b => bad_path
live_loop :a sync:7 => wrong_kind
live_loop => wrong_count
get \"a => /{cue,set,live_loop}/a
sync \"/x/* => /x/*
sync nil => wrong_kind
sync \"/[ => bad_path";

/// Appends a text and a blank.
fn add(text: &mut Vec<u8>, more: &[u8]) -> Option<()> {
    text.extend_from_slice(more).ok()?;
    text.push(b' ').ok()
}

fn add_value(alloc: Global, text: &mut Vec<u8>, value: &Value) -> Option<()> {
    add(text, text_of(alloc, value)?.as_slice())
}

/// Ends what belongs to one thread or one item.
fn end_one(text: &mut Vec<u8>) -> Option<()> {
    text.pop()?;
    text.extend_from_slice(b"; ").ok()
}

fn timings_text(alloc: Global, timings: Timings<'_>) -> Option<Vec<u8>> {
    let mut timings = timings;
    let mut text = Vec::new(alloc);
    for _ in 0..8 {
        let Some((rest, value)) = timings.next() else {
            return Some(text);
        };
        add_value(alloc, &mut text, &Value::Part(rest.get()))?;
        add_value(alloc, &mut text, value)?;
        end_one(&mut text)?;
    }
    None
}

fn add_notes(alloc: Global, text: &mut Vec<u8>, notes: &Notes) -> Option<()> {
    for note in notes.as_slice() {
        add_value(alloc, text, &note.to_value())?;
    }
    Some(())
}

fn items_text(alloc: Global, items: PatternItems<'_>) -> Option<Vec<u8>> {
    let mut items = items;
    let mut text = Vec::new(alloc);
    for _ in 0..8 {
        let Some((notes, beats)) = items.next(alloc).ok()? else {
            return Some(text);
        };
        add_notes(alloc, &mut text, &notes)?;
        add_value(alloc, &mut text, &Value::Part(beats))?;
        end_one(&mut text)?;
    }
    None
}

fn add_path(alloc: Global, text: &mut Vec<u8>, path: Option<&Path>) -> Option<()> {
    match path {
        None => Some(()),
        Some(path) => {
            path.write(alloc, text).ok()?;
            text.push(b' ').ok()
        }
    }
}

fn add_pattern(alloc: Global, text: &mut Vec<u8>, pattern: Option<&Pattern>) -> Option<()> {
    match pattern {
        None => Some(()),
        Some(pattern) => {
            pattern.write(alloc, text).ok()?;
            text.push(b' ').ok()
        }
    }
}

fn add_name(alloc: Global, text: &mut Vec<u8>, role: &Role) -> Option<()> {
    match role {
        Role::Named(name) => add_value(alloc, text, &Value::Sym(name.copy(alloc).ok()?)),
        Role::Looped { name, .. } => add_value(alloc, text, &Value::Sym(name.copy(alloc).ok()?)),
        _ => add(text, b"plain"),
    }
}

fn role_text(alloc: Global, role: &Role) -> Option<Vec<u8>> {
    let mut text = Vec::new(alloc);
    add_name(alloc, &mut text, role)?;
    add_path(alloc, &mut text, name_path(alloc, role).ok()?.as_ref())?;
    add_pattern(alloc, &mut text, stop_pattern(alloc, role).ok()?.as_ref())?;
    if let Role::Looped { wait, init, .. } = role {
        add_value(alloc, &mut text, init)?;
        add_pattern(alloc, &mut text, wait.as_ref())?;
    }
    Some(text)
}

fn pattern_text(alloc: Global, pattern: &Pattern) -> Option<Vec<u8>> {
    let mut text = Vec::new(alloc);
    add_pattern(alloc, &mut text, Some(pattern))?;
    Some(text)
}

fn fault_text(alloc: Global, kind: FaultKind) -> Option<Vec<u8>> {
    word_of(alloc, ValueFault::Fault(kind))
}

/// What a call with turns is given.
fn turns_text(alloc: Global, call: &str, given: &Given) -> Option<Vec<u8>> {
    if call == "at" {
        return match at_timings(given, &opening(alloc)?) {
            Ok(timings) => timings_text(alloc, timings),
            Err(kind) => fault_text(alloc, kind),
        };
    }
    let items = if call == "play_pattern" {
        even_items(given)
    } else {
        timed_items(given)
    };
    match items {
        Ok(items) => items_text(alloc, items),
        Err(kind) => fault_text(alloc, kind),
    }
}

fn started_text(alloc: Global, call: &str, given: &Given) -> Option<Vec<u8>> {
    let role = match call {
        "in_thread" => thread_role(alloc, given),
        _ => role_of_loop(alloc, given),
    };
    match role {
        Ok(role) => role_text(alloc, &role),
        Err(fault) => word_of(alloc, fault),
    }
}

fn role_of_loop(alloc: Global, given: &Given) -> Result<Role, ValueFault> {
    match loop_parts(alloc, given) {
        Ok(parts) => Ok(parts.into_role()),
        Err(fault) => Err(fault),
    }
}

/// What a call is given, as the rows spell it.
fn answer_of(alloc: Global, call: &str, given: &Given) -> Option<Vec<u8>> {
    match call {
        "at" | "play_pattern" | "play_pattern_timed" => turns_text(alloc, call, given),
        "in_thread" | "live_loop" => started_text(alloc, call, given),
        _ => match a_pattern(alloc, given) {
            Ok(pattern) => pattern_text(alloc, &pattern),
            Err(fault) => word_of(alloc, fault),
        },
    }
}

/// Whether what a row's call is given is what the row says.
fn holds(alloc: Global, row: &str) -> Option<bool> {
    let (words, want) = row.split_once(" =>")?;
    let (call, words) = words.split_once(' ').unwrap_or((words, ""));
    let given = given_of(alloc, false, words)?;
    let answer = answer_of(alloc, call, &given)?;
    Some(answer.as_slice().trim_ascii() == want.as_bytes().trim_ascii())
}

fn wrong_row(alloc: Global) -> Option<&'static str> {
    for row in GIVEN.lines() {
        if holds(alloc, row) != Some(true) {
            return Some(row);
        }
    }
    None
}

#[test]
fn calls_are_given_turns_and_roles(rt: HostRuntime) {
    assert_eq!(rt; wrong_row(rt.alloc()), None);
}
