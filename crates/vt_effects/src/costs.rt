//! What actions and values cost. A cost above `2^64 - 1` is given as `2^64 - 1`.

ghost use Rattle.std.specs.Prelude.{◌≡◌, ◌+◌, ◌≤◌, ℕ};
ghost use Rattle.std.specs.Option.{option_copied};
ghost use Rattle.vt_run.specs.Costs.{body_sizes, emit_cost, event_size, node_size, pair_sizes, size_if_given, spawn_cost};
ghost use Rattle.vt_run.specs.Notes.{capped};

use vt_event::{BlockRef, Event, Kind, Locals};
use vt_frac::Name;
use vt_value::Value;

/// The sizes of the values of locals or options, together.
pub fn pair_sizes(pairs: &[(Name, Value)]) -> u64
    ensures { result ≡ capped (pair_sizes pairs.now) }
{
    let mut total: u64 = 0;
    let mut left = pairs;
    while let Some((pair, rest)) = left.split_first() {
        total = total.saturating_add(pair.1.size());
        left = rest;
    }
    total
}

/// What a node adds as its value is known: the size of a ring or a text, and nothing for another value.
pub fn node_size(value: &Value) -> u64
    ensures { result ≡ capped (node_size value.now) }
{
    match value {
        Value::Ring(_) => value.size(),
        Value::Text(_) => value.size(),
        Value::Nil => 0,
        Value::Bool(_) => 0,
        Value::Whole(_) => 0,
        Value::Part(_) => 0,
        Value::Sym(_) => 0,
    }
}

/// The cost of publishing an event.
pub fn emit_cost(event: &Event) -> u64
    ensures cost { result ≡ capped (emit_cost event.now) }
    ensures least { 1 ≤ result }
{
    let value = event_size(event.kind(), event.value());
    let options = pair_sizes(event.options().as_slice());
    let body = body_sizes(event.body());
    sum(1, sum(value, sum(options, body)))
}

/// The cost of starting a thread with a copy of these locals, and with a value that is handed over, if there is one.
pub fn spawn_cost(locals: &Locals, handed: Option<&Value>) -> u64
    ensures cost { result ≡ capped (spawn_cost locals.now (size_if_given (option_copied handed.entry))) }
    ensures least { 1 ≤ result }
{
    sum(
        16,
        sum(pair_sizes(locals.as_slice()), size_if_given(handed)),
    )
}

/// The size of an event's value, where the kind has one that counts.
fn event_size(kind: Kind, value: &Value) -> u64
    ensures { result ≡ capped (event_size kind value.now) }
{
    match kind {
        Kind::Play => value.size(),
        Kind::Sample => value.size(),
        Kind::Cue => value.size(),
        Kind::Set => value.size(),
        Kind::Log => value.size(),
        Kind::Took => value.size(),
        Kind::Synth => 0,
        Kind::Fx => 0,
        Kind::Fault(_) => 0,
        Kind::Body => 0,
        Kind::Defined => 0,
        Kind::Started => 0,
        Kind::Ended => 0,
    }
}

/// The sizes of the locals that are copied with an event.
fn body_sizes(body: Option<&(BlockRef, Locals)>) -> u64
    ensures { result ≡ capped (body_sizes (option_copied body.entry)) }
{
    match body {
        None => 0,
        Some(body) => pair_sizes(body.1.as_slice()),
    }
}

/// The size of a value, where one is given.
fn size_if_given(value: Option<&Value>) -> u64
    ensures { result ≡ capped (size_if_given (option_copied value.entry)) }
{
    match value {
        None => 0,
        Some(value) => value.size(),
    }
}

/// Two costs together.
fn sum(cost: u64, more: u64) -> u64
    ensures value { (a b : ℕ) → cost ≡ capped a → more ≡ capped b → result ≡ capped (a + b) }
    ensures least { cost ≤ result }
{
    cost.saturating_add(more)
}
