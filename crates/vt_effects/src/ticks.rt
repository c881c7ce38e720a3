//! The calls `tick`, `look`, `tick_set` and `tick_reset`.

ghost use Rattle.std.specs.Prelude.{◌≡◌, ◌+ℤ◌, pos, negsuc, codes, unwrap_or, Ok, Err, IfOk, IfErr};
ghost use Rattle.std.specs.Option.{option_copied};
ghost use Rattle.vt_value.specs.Answers.{Gives};
ghost use Rattle.vt_value.specs.Arithmetic.{fitting};
ghost use Rattle.vt_run.specs.calls.TickCalls.{counted, counter_and_number, counter_name, counter_of, look_call, ring_and_counter, tick_call, tick_reset_call, tick_set_call, with_counter, without_counter};
ghost use Rattle.vt_effects.specs.Results.{Changes};

use std::alloc::Global;
use vt_frac::{Name, NoMemory};
use vt_given::{Given, has_item, integer, one_or_none, ring_if_given, symbol_argument};
use vt_ring::{ring_at, whole_argument};
use vt_run::{State, Ticks};
use vt_value::{FaultKind, Integer, Symbol, Value, ValueFault};

/// `tick`, `tick :x`, `r.tick`, `r.tick(:x)`: the counter is one higher, from -1 before the first tick.
#[tactic(auto, unfolding(vt_run::specs::calls::TickCalls::tick_call))]
pub fn tick(alloc: Global, given: &Given, state: &mut State) -> Result<Value, ValueFault>
    ensures { Changes (tick_call given.now state.old) state.old result state.new }
{
    let (ring, name) = ring_and_counter(given)?;
    let number = next_number(counter_of(name, &state.ticks))?;
    let value = counted(alloc, ring, number)?;
    let ticks = with_counter(alloc, name, number, &state.ticks)?;
    state.ticks = ticks;
    Ok(value)
}

/// `look`, in the same four ways: the counter as it is, 0 before the first tick.
#[tactic(auto, unfolding(vt_run::specs::calls::TickCalls::look_call))]
pub fn look(alloc: Global, given: &Given, state: &State) -> Result<Value, ValueFault>
    ensures { Changes (look_call given.now state.now) state.now result state.now }
{
    let (ring, name) = ring_and_counter(given)?;
    let number = number_or_zero(counter_of(name, &state.ticks));
    counted(alloc, ring, number)
}

/// `tick_set n`, `tick_set :x, n`
#[tactic(auto, unfolding(vt_run::specs::calls::TickCalls::tick_set_call))]
pub fn tick_set(alloc: Global, given: &Given, state: &mut State) -> Result<Value, ValueFault>
    ensures { Changes (tick_set_call given.now state.old) state.old result state.new }
{
    match counter_and_number(given.all_args()) {
        Err(kind) => Err(ValueFault::Fault(kind)),
        Ok((named, number)) => {
            let ticks = with_counter(alloc, name_or_default(named), number, &state.ticks)?;
            state.ticks = ticks;
            Ok(Value::Nil)
        }
    }
}

/// `tick_reset`, `tick_reset :x`: the counter is as before its first tick.
#[tactic(auto, unfolding(vt_run::specs::calls::TickCalls::tick_reset_call))]
pub fn tick_reset(alloc: Global, given: &Given, state: &mut State) -> Result<Value, ValueFault>
    ensures { Changes (tick_reset_call given.now state.old) state.old result state.new }
{
    let name = counter_name(one_or_none(given.all_args())?)?;
    let ticks = without_counter(alloc, name, &state.ticks)?;
    state.ticks = ticks;
    Ok(Value::Nil)
}

/// The number of a counter, if it has ticked.
fn counter_of(name: &[u8], ticks: &Ticks) -> Option<Integer>
    ensures { result ≡ counter_of name.now ticks.now }
{
    let counter = ticks
        .as_slice()
        .iter()
        .find(|counter| counter.0.as_bytes() == name)?;
    Some(counter.1)
}

/// The number of a tick.
fn next_number(number: Option<Integer>) -> Result<Integer, FaultKind>
    ensures { result ≡ fitting (unwrap_or number (negsuc 0) +ℤ pos 1) }
{
    match number {
        None => one_more(-1),
        Some(number) => one_more(number.get()),
    }
}

fn one_more(number: i64) -> Result<Integer, FaultKind>
    ensures { result ≡ fitting (number +ℤ pos 1) }
{
    match number.checked_add(1) {
        None => Err(FaultKind::Overflow),
        Some(next) => Integer::new(next).ok_or(FaultKind::Overflow),
    }
}

fn number_or_zero(number: Option<Integer>) -> Integer
    ensures { result ≡ unwrap_or number (pos 0) }
{
    match number {
        Some(number) => number,
        None => integer(0),
    }
}

/// The other counters.
fn without_counter(alloc: Global, name: &[u8], ticks: &Ticks) -> Result<Ticks, NoMemory>
    ensures { IfOk result (λ others. others ≡ without_counter name.now ticks.now) }
{
    let mut others = Ticks::new(alloc);
    let mut left = ticks.as_slice();
    while let Some((counter, rest)) = left.split_first() {
        if counter.0.as_bytes() != name {
            others.push(counter.0.copy(alloc)?, counter.1)?;
        }
        left = rest;
    }
    Ok(others)
}

/// A counter with this number, behind the others.
fn with_counter(
    alloc: Global,
    name: &[u8],
    number: Integer,
    ticks: &Ticks,
) -> Result<Ticks, NoMemory>
    ensures { IfOk result (λ counters. counters ≡ with_counter name.now number ticks.now) }
{
    let mut counters = without_counter(alloc, name, ticks)?;
    counters.push(Name::of(alloc, name)?, number)?;
    Ok(counters)
}

/// The name of a counter: a symbol, or `default` where none is given.
fn counter_name(named: Option<&Value>) -> Result<&[u8], FaultKind>
    ensures ok { IfOk result (λ name. counter_name (option_copied named.entry) ≡ Ok name.now) }
    ensures err { IfErr result (λ kind. counter_name (option_copied named.entry) ≡ Err kind) }
{
    match named {
        None => Ok(b"default"),
        Some(value) => Ok(symbol_argument(value)?.as_bytes()),
    }
}

/// The ring before the dot, and the name of the counter.
fn ring_and_counter(given: &Given) -> Result<(Option<&[Value]>, &[u8]), FaultKind>
    ensures ok { IfOk result (λ a. ring_and_counter given.now ≡ Ok (option_copied a.0, a.1.now)) }
    ensures err { IfErr result (λ kind. ring_and_counter given.now ≡ Err kind) }
{
    let named = one_or_none(given.args())?;
    let ring = ring_if_given(given.receiver())?;
    let name = counter_name(named)?;
    if !has_item(ring) {
        return Err(FaultKind::EmptyRing);
    }
    Ok((ring, name))
}

/// The number, or the ring's item at it.
fn counted(alloc: Global, ring: Option<&[Value]>, number: Integer) -> Result<Value, ValueFault>
    ensures { Gives (counted (option_copied ring.entry) number) result }
{
    match ring {
        None => Ok(Value::Whole(number)),
        Some(items) => {
            let item = ring_at(items, number.get())?;
            Ok(item.copy(alloc)?)
        }
    }
}

/// A number for the counter `default`, or a name and a number.
fn counter_and_number(args: &[Value]) -> Result<(Option<&Symbol>, Integer), FaultKind>
    ensures ok { IfOk result (λ a. counter_and_number args.now ≡ Ok (unwrap_or (option_copied a.0) (codes "default"), a.1)) }
    ensures err { IfErr result (λ kind. counter_and_number args.now ≡ Err kind) }
{
    match args {
        [number] => Ok((None, whole_argument(number)?)),
        [counter, number] => {
            let name = symbol_argument(counter)?;
            let number = whole_argument(number)?;
            Ok((Some(name), number))
        }
        _ => Err(FaultKind::WrongCount),
    }
}

/// The name, or `default` where none is given.
fn name_or_default(name: Option<&Symbol>) -> &[u8]
    ensures { result.now ≡ unwrap_or (option_copied name.entry) (codes "default") }
{
    match name {
        None => b"default",
        Some(name) => name.as_bytes(),
    }
}
