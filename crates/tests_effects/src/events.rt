//! The events of definitions, bodies, effects, turns, waits and ends, what they cost, and locals and operators.

use crate::calls::{line_of, opening, text_of, thread, word_of};
use crate::reader::{symbol_of, value_of};
use std::alloc::Global;
use vt_effects::{
    assign, body_event, cut, defined_event, emit_cost, ended_event, fault_event, fx_event, index,
    inner_pattern, literal_value, lookup, name_path, node_size, operated, push_params, spawn_cost,
    started_event, took_event, turn_event, unary,
};
use vt_event::{BlockRef, Event, Kind, Locals, Options};
use vt_frac::Name;
use vt_path::{InnerKind, inner, parse_path};
use vt_run::{Role, State};
use vt_tree::{ChainOp, Literal, UnaryOp};
use vt_value::{FaultKind, Integer, Symbol, Value, ValueFault};

/// The operator of a row.
fn op_of(word: &str) -> Option<ChainOp> {
    match word {
        "and" => Some(ChainOp::And),
        "==" => Some(ChainOp::Eq),
        "<=" => Some(ChainOp::Le),
        "+" => Some(ChainOp::Add),
        "/" => Some(ChainOp::Div),
        "%" => Some(ChainOp::Rem),
        _ => None,
    }
}

/// A value, an operator, `at` or `not`, another value, and what they come to.
const OPERATED: &str = "7 and nil => nil
[1,2] == [1,2] => true
1/2 <= 1 => true
:a <= 1 => wrong_kind
[1] + [2] => [1, 2]
\"a + \"b => \"ab\"
9223372036854775807 + 1 => overflow
7 / 2 => 3
7 % 0 => zero_divisor
[5,6,7] at -1 => 7
[5,6,7] at 7/2 => 5
[] at 0 => empty_ring
7 at 0 => wrong_kind
nil not 0 => true
7 - 0 => -7
:a - 0 => wrong_kind";

fn outcome(
    alloc: Global,
    value: &Value,
    word: &str,
    other: Value,
) -> Option<Result<Value, ValueFault>> {
    match word {
        "at" => Some(index(alloc, value, &other)),
        "not" => Some(unary(UnaryOp::Not, value).map_err(ValueFault::Fault)),
        "-" => Some(unary(UnaryOp::Minus, value).map_err(ValueFault::Fault)),
        _ => Some(operated(alloc, op_of(word)?, value, other)),
    }
}

fn holds(alloc: Global, row: &str) -> Option<bool> {
    let (words, want) = row.split_once(" => ")?;
    let (first, words) = words.split_once(' ')?;
    let (word, second) = words.split_once(' ')?;
    let value = value_of(alloc, first)?;
    let text = match outcome(alloc, &value, word, value_of(alloc, second)?)? {
        Ok(value) => text_of(alloc, &value)?,
        Err(fault) => word_of(alloc, fault)?,
    };
    Some(text.as_slice() == want.as_bytes())
}

fn wrong_row(alloc: Global) -> Option<&'static str> {
    for row in OPERATED.lines() {
        if holds(alloc, row) != Some(true) {
            return Some(row);
        }
    }
    None
}

#[test]
fn operators_make_values(rt: HostRuntime) {
    assert_eq!(rt; wrong_row(rt.alloc()), None);
}

/// What happens in the thread, with the local `y` of the value 1; and what it costs to publish it. Of an inner event its
/// kind, its path, its line, its block and how many locals are copied.
const EVENTS: &str = "fault => 1/2+3 1.2 fault overflow 7 costs 1
took => 1/2+3 1.2 took /cue/a 1 2 costs 4
fx => 1/2+3 1.2 fx 1 :x amp: 2 costs 2
turn => 1/2+3 1.2 cue /live_loop/x costs 2
body => body /!body/x 9 6 5 1 costs 2
defined => defined /!def/x 0 6 5 1 costs 2
started => started /!name/x 0 costs 1
ended => ended /!loop/x 0 costs 1";

/// The block 5 of the text 6.
const BLOCK: BlockRef = BlockRef { text: 6, block: 5 };

/// The thread with a local.
fn with_local(alloc: Global) -> Option<State> {
    let mut state = opening(alloc)?;
    assign(alloc, b"y", value_of(alloc, "1")?, &mut state.locals).ok()?;
    Some(state)
}

fn amp_of_2(alloc: Global) -> Option<Options> {
    let mut options = Options::new(alloc);
    let name = Name::of(alloc, b"amp").ok()?;
    options.push((name, value_of(alloc, "2")?)).ok()?;
    Some(options)
}

fn took(alloc: Global, state: &State) -> Option<Event> {
    let path = parse_path(alloc, b"/cue/a").ok()?;
    let value = value_of(alloc, "[1,2]")?;
    took_event(alloc, &thread(alloc)?, &path, &value, state).ok()
}

fn effect(alloc: Global, name: &Symbol, state: &State) -> Option<Event> {
    if state.effects > 7 {
        return None;
    }
    fx_event(alloc, &thread(alloc)?, name, &amp_of_2(alloc)?, state).ok()
}

/// The event of a start or of an end.
fn told(alloc: Global, what: &str, name: &Symbol, state: &State) -> Option<Event> {
    let thread = thread(alloc)?;
    if what == "started" {
        let path = name_path(alloc, &Role::Named(name.copy(alloc).ok()?)).ok()??;
        return started_event(alloc, &thread, path, state).ok();
    }
    let path = inner(alloc, InnerKind::Looped, name.as_bytes()).ok()?;
    ended_event(alloc, &thread, path, state).ok()
}

fn event_of(alloc: Global, what: &str, state: &State) -> Option<Event> {
    let name = symbol_of(alloc, "x")?;
    let thread = thread(alloc)?;
    match what {
        "fault" => fault_event(alloc, &thread, FaultKind::Overflow, 7, state).ok(),
        "took" => took(alloc, state),
        "fx" => effect(alloc, &name, state),
        "turn" => turn_event(alloc, &thread, &name, state).ok(),
        "body" => body_event(alloc, &thread, &name, BLOCK, 9, state).ok(),
        "defined" => defined_event(alloc, &thread, &name, BLOCK, state).ok(),
        _ => told(alloc, what, &name, state),
    }
}

fn add_number(alloc: Global, text: &mut Vec<u8>, number: i64) -> Option<()> {
    text.push(b' ').ok()?;
    Value::Whole(Integer::new(number)?).write(alloc, text).ok()
}

/// The word of the kind of an inner event.
fn word(kind: Kind) -> Option<&'static [u8]> {
    match kind {
        Kind::Body => Some(b"body "),
        Kind::Defined => Some(b"defined "),
        Kind::Started => Some(b"started "),
        Kind::Ended => Some(b"ended "),
        _ => None,
    }
}

fn inner_text(alloc: Global, event: &Event) -> Option<Vec<u8>> {
    let mut text = Vec::new(alloc);
    text.extend_from_slice(word(event.kind())?).ok()?;
    event.path()?.write(alloc, &mut text).ok()?;
    add_number(alloc, &mut text, i64::from(event.line()))?;
    if let Some((block, locals)) = event.body() {
        add_number(alloc, &mut text, i64::from(block.text))?;
        add_number(alloc, &mut text, i64::from(block.block))?;
        add_number(alloc, &mut text, locals.as_slice().len() as i64)?;
    }
    Some(text)
}

fn event_text(alloc: Global, event: &Event) -> Option<Vec<u8>> {
    if event.kind().is_shown() {
        line_of(alloc, event)
    } else {
        inner_text(alloc, event)
    }
}

fn is_told(alloc: Global, row: &str, state: &State) -> Option<bool> {
    let (what, want) = row.split_once(" => ")?;
    let event = event_of(alloc, what, state)?;
    let mut text = event_text(alloc, &event)?;
    text.extend_from_slice(b" costs").ok()?;
    add_number(alloc, &mut text, i64::try_from(emit_cost(&event)).ok()?)?;
    Some(text.as_slice() == want.as_bytes())
}

fn wrong_event(alloc: Global) -> Option<&'static str> {
    let Some(state) = with_local(alloc) else {
        return Some("no state");
    };
    for row in EVENTS.lines() {
        if is_told(alloc, row, &state) != Some(true) {
            return Some(row);
        }
    }
    None
}

#[test]
fn threads_tell_what_happens(rt: HostRuntime) {
    assert_eq!(rt; wrong_event(rt.alloc()), None);
}

/// Whether the local of this name has the value of this text.
fn is_local(alloc: Global, name: &[u8], locals: &Locals, want: &str) -> Option<bool> {
    let text = text_of(alloc, lookup(name, locals)?)?;
    Some(text.as_slice() == want.as_bytes())
}

/// Assignments change the last local of a name; a parameter without a value is nil, and goes with its block.
fn locals_hold(alloc: Global) -> Option<bool> {
    let mut locals = Locals::new(alloc);
    assign(alloc, b"x", value_of(alloc, "1")?, &mut locals).ok()?;
    assign(alloc, b"y", value_of(alloc, "2")?, &mut locals).ok()?;
    assign(alloc, b"x", value_of(alloc, "3")?, &mut locals).ok()?;
    let params = [Name::of(alloc, b"y").ok()?, Name::of(alloc, b"x").ok()?];
    let values = [value_of(alloc, "7")?];
    push_params(alloc, &params, &values, &mut locals).ok()?;
    let inside = is_local(alloc, b"y", &locals, "7")? && is_local(alloc, b"x", &locals, "nil")?;
    cut(alloc, 2, &mut locals);
    let outside = is_local(alloc, b"y", &locals, "2")? && is_local(alloc, b"x", &locals, "3")?;
    Some(inside && outside)
}

/// A start costs 16, the locals that are copied, and the value that is handed over; a node the size of a ring or a text.
fn costs_hold(alloc: Global) -> Option<bool> {
    let locals = with_local(alloc)?.locals;
    let ring = value_of(alloc, "[1,:x]")?;
    let text = value_of(alloc, "\"abcd")?;
    let starts = spawn_cost(&locals, None) == 17 && spawn_cost(&locals, Some(&ring)) == 20;
    let nodes = node_size(&ring) == 3 && node_size(&text) == 4 && node_size(&Value::Nil) == 0;
    Some(starts && nodes)
}

/// The value of a literal, and the pattern of a function's definition.
fn literals_hold(alloc: Global) -> Option<bool> {
    let seven = literal_value(alloc, &Literal::Whole(7)).ok()?;
    let name = symbol_of(alloc, "f")?;
    let mut text = text_of(alloc, &seven)?;
    inner_pattern(alloc, InnerKind::Def, &name)
        .ok()?
        .write(alloc, &mut text)
        .ok()?;
    let want = "7/!def/f";
    Some(text.as_slice() == want.as_bytes())
}

#[test]
fn locals_costs_and_literals(rt: HostRuntime) {
    assert_eq!(rt; locals_hold(rt.alloc()), Some(true));
    assert_eq!(rt; costs_hold(rt.alloc()), Some(true));
    assert_eq!(rt; literals_hold(rt.alloc()), Some(true));
}
