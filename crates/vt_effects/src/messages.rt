//! The calls of the time state, and the log: `cue`, `set`, `get`, `sync`, `puts` and `print`.

ghost use Rattle.std.specs.Prelude.{◌≡◌, IfOk};
ghost use Rattle.vt_event.specs.EventsByKind as events;
ghost use Rattle.vt_ring.specs.Answers.{MayGive};
ghost use Rattle.vt_value.specs.Answers.{Gives};
ghost use Rattle.vt_value.specs.Arithmetic.{ring_within};
ghost use Rattle.vt_run.specs.calls.Arguments.{all_args};
ghost use Rattle.vt_run.specs.calls.MessageCalls.{a_pattern, cue_call, cue_of, puts_call, set_call};
ghost use Rattle.vt_effects.specs.Results.{MayPublish, Publishes, place_in};

use crate::places::place_in;
use std::alloc::Global;
use vt_event::{Event, ThreadId};
use vt_frac::NoMemory;
use vt_given::{Given, one, path_argument, pattern_argument, two};
use vt_path::{Path, Pattern};
use vt_ring::drop_first;
use vt_run::State;
use vt_value::{FaultKind, Value, ValueFault};

/// `cue P`, and any number of values: with the ring of them. Want of memory may come in place of `BadPath` and `TooLarge` too.
#[tactic(auto, unfolding(vt_run::specs::calls::MessageCalls::cue_call))]
pub fn cue(
    alloc: Global,
    thread: &ThreadId,
    given: &Given,
    state: &State,
) -> Result<Event, ValueFault>
    ensures { MayPublish (cue_call given.now state.now) thread.now state.now result }
{
    match given.all_args() {
        [] => Err(ValueFault::Fault(FaultKind::WrongCount)),
        [to, values @ ..] => {
            let path = path_argument(alloc, b"cue", to)?;
            let ring = ring_of(alloc, values)?;
            Ok(cue_event(alloc, thread, state, path, ring)?)
        }
    }
}

fn cue_event(
    alloc: Global,
    thread: &ThreadId,
    state: &State,
    path: Path,
    value: Value,
) -> Result<Event, NoMemory>
    ensures { IfOk result (λ event. event ≡ events.cue_event (place_in thread.now state.now) path value) }
{
    let place = place_in(alloc, thread, state)?;
    Event::of_cue(alloc, place, path, value)
}

/// `set P, V`. Want of memory may come in place of `BadPath` too.
#[tactic(auto, unfolding(vt_run::specs::calls::MessageCalls::set_call))]
pub fn set(
    alloc: Global,
    thread: &ThreadId,
    given: &Given,
    state: &State,
) -> Result<Event, ValueFault>
    ensures { MayPublish (set_call given.now state.now) thread.now state.now result }
{
    let (to, value) = two(given.all_args())?;
    let path = path_argument(alloc, b"set", to)?;
    Ok(set_event(alloc, thread, state, path, value)?)
}

fn set_event(
    alloc: Global,
    thread: &ThreadId,
    state: &State,
    path: Path,
    value: &Value,
) -> Result<Event, NoMemory>
    ensures { IfOk result (λ event. event ≡ events.set_event (place_in thread.now state.now) path value.now) }
{
    let place = place_in(alloc, thread, state)?;
    let value = value.copy(alloc)?;
    Event::of_set(alloc, place, path, value)
}

/// `puts V..`, `print V..`: the ring of the values.
#[tactic(auto, unfolding(vt_run::specs::calls::MessageCalls::puts_call))]
pub fn puts(
    alloc: Global,
    thread: &ThreadId,
    given: &Given,
    state: &State,
) -> Result<Event, ValueFault>
    ensures { Publishes (puts_call given.now state.now) thread.now state.now result }
{
    let ring = ring_of(alloc, given.all_args())?;
    Ok(log_event(alloc, thread, state, ring)?)
}

fn log_event(
    alloc: Global,
    thread: &ThreadId,
    state: &State,
    value: Value,
) -> Result<Event, NoMemory>
    ensures { IfOk result (λ event. event ≡ events.log_event (place_in thread.now state.now) value) }
{
    let place = place_in(alloc, thread, state)?;
    Event::of_log(alloc, place, value)
}

/// The ring of copies of these values.
fn ring_of(alloc: Global, values: &[Value]) -> Result<Value, ValueFault>
    ensures { Gives (ring_within values.now) result }
{
    let items = drop_first(alloc, values, 0)?;
    Ok(Value::Ring(items))
}

/// `get P`, `sync P`: the pattern. Want of memory may come in place of `BadPath` too.
pub fn a_pattern(alloc: Global, given: &Given) -> Result<Pattern, ValueFault>
    ensures { MayGive (a_pattern (all_args given.now)) result }
{
    pattern_argument(alloc, one(given.all_args())?)
}
