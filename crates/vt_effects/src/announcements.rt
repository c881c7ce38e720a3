//! The events of calls with blocks, and of turns, waits and ends of threads, each where the thread stands.

ghost use Rattle.std.specs.Prelude.{◌≡◌, ◌+◌, ◌<◌, ◌^◌, ◌∷◌, [], codes, IfOk};
ghost use Rattle.vt_event.specs.EventsByKind as events;
ghost use Rattle.vt_path.specs.Inner.{inner_of};
ghost use Rattle.vt_path.specs.Match.{literal_of};
ghost use Rattle.vt_run.specs.Actions.{name_path, stop_pattern};
ghost use Rattle.vt_effects.specs.Results.{place_in};

use crate::places::place_in;
use crate::plays::copy_fx;
use std::alloc::Global;
use vt_event::{BlockRef, Event, Options, ThreadId};
use vt_frac::{Name, NoMemory};
use vt_given::named_path;
use vt_path::{InnerKind, Path, Pattern, inner, literal};
use vt_run::{Role, State};
use vt_value::{FaultKind, Items, Symbol, Value};

/// The event of a fault, with its line.
pub fn fault_event(
    alloc: Global,
    thread: &ThreadId,
    fault: FaultKind,
    line: u32,
    state: &State,
) -> Result<Event, NoMemory>
    ensures { IfOk result (λ event. event ≡ events.fault_event (place_in thread.now state.now) fault line) }
{
    let place = place_in(alloc, thread, state)?;
    Event::of_fault(alloc, place, fault, line)
}

/// The event of a wait that took what is found at a path.
pub fn took_event(
    alloc: Global,
    thread: &ThreadId,
    path: &Path,
    value: &Value,
    state: &State,
) -> Result<Event, NoMemory>
    ensures { IfOk result (λ event. event ≡ events.took_event (place_in thread.now state.now) path.now value.now) }
{
    let place = place_in(alloc, thread, state)?;
    let path = path.copy(alloc)?;
    Event::of_took(alloc, place, path, value.copy(alloc)?)
}

/// The event of a definition, with a copy of the thread's locals.
pub fn defined_event(
    alloc: Global,
    thread: &ThreadId,
    name: &Symbol,
    block: BlockRef,
    state: &State,
) -> Result<Event, NoMemory>
    ensures { IfOk result (λ event. event ≡ events.defined_event (place_in thread.now state.now) (inner_of InnerKind.Def name.now) block state.now.locals) }
{
    let place = place_in(alloc, thread, state)?;
    let path = inner(alloc, InnerKind::Def, name.as_bytes())?;
    Event::of_defined(alloc, place, path, block, state.locals.copy(alloc)?)
}

/// The event of the body of a live loop, with the line of its statement and a copy of the thread's locals.
pub fn body_event(
    alloc: Global,
    thread: &ThreadId,
    name: &Symbol,
    block: BlockRef,
    line: u32,
    state: &State,
) -> Result<Event, NoMemory>
    ensures { IfOk result (λ event. event ≡ events.body_event (place_in thread.now state.now) (inner_of InnerKind.Body name.now) block state.now.locals line) }
{
    let place = place_in(alloc, thread, state)?;
    let path = inner(alloc, InnerKind::Body, name.as_bytes())?;
    Event::of_body(alloc, place, path, block, state.locals.copy(alloc)?, line)
}

/// The event of the thread's next effect.
pub fn fx_event(
    alloc: Global,
    thread: &ThreadId,
    name: &Symbol,
    options: &Options,
    state: &State,
) -> Result<Event, NoMemory>
    requires { state.now.effects + 1 < 2 ^ 32 }
    ensures { IfOk result (λ event. event ≡ events.fx_event (place_in thread.now state.now) name.now (state.now.effects + 1) options.now state.now.settings.fx) }
{
    let place = place_in(alloc, thread, state)?;
    let name = Name::of(alloc, name.as_bytes())?;
    let options = options.copy(alloc)?;
    let fx = copy_fx(alloc, &state.settings.fx)?;
    Ok(Event::of_fx(place, name, state.effects + 1, options, fx))
}

/// The event of a turn of a live loop.
pub fn turn_event(
    alloc: Global,
    thread: &ThreadId,
    name: &Symbol,
    state: &State,
) -> Result<Event, NoMemory>
    ensures { IfOk result (λ event. event ≡ events.cue_event (place_in thread.now state.now) (codes "live_loop" ∷ name.now ∷ []) (Value.Ring [])) }
{
    let place = place_in(alloc, thread, state)?;
    let path = named_path(alloc, b"live_loop", name.as_bytes())?;
    Event::of_cue(alloc, place, path, Value::Ring(Items::new(alloc)))
}

/// The event of the start of a thread, at the path of its name.
pub fn started_event(
    alloc: Global,
    thread: &ThreadId,
    path: Path,
    state: &State,
) -> Result<Event, NoMemory>
    ensures { IfOk result (λ event. event ≡ events.started_event (place_in thread.now state.now) path) }
{
    let place = place_in(alloc, thread, state)?;
    Event::of_started(alloc, place, path)
}

/// The event of the end of a thread, at the path of its name.
pub fn ended_event(
    alloc: Global,
    thread: &ThreadId,
    path: Path,
    state: &State,
) -> Result<Event, NoMemory>
    ensures { IfOk result (λ event. event ≡ events.ended_event (place_in thread.now state.now) path) }
{
    let place = place_in(alloc, thread, state)?;
    Event::of_ended(alloc, place, path)
}

/// The path at which a thread that was started by a name tells of its start and of its end.
pub fn name_path(alloc: Global, role: &Role) -> Result<Option<Path>, NoMemory>
    ensures { IfOk result (λ path. path ≡ name_path role.now) }
{
    match role {
        Role::Plain => Ok(None),
        Role::Named(name) => Ok(Some(inner(alloc, InnerKind::Named, name.as_bytes())?)),
        Role::Looped { name, .. } => Ok(Some(inner(alloc, InnerKind::Looped, name.as_bytes())?)),
        Role::Timed { .. } => Ok(None),
    }
}

/// The pattern of the stop of this live loop; no other thread can be stopped from outside.
pub fn stop_pattern(alloc: Global, role: &Role) -> Result<Option<Pattern>, NoMemory>
    ensures { IfOk result (λ pattern. pattern ≡ stop_pattern role.now) }
{
    match role {
        Role::Plain => Ok(None),
        Role::Named(_) => Ok(None),
        Role::Looped { name, .. } => Ok(Some(inner_pattern(alloc, InnerKind::Stop, name)?)),
        Role::Timed { .. } => Ok(None),
    }
}

/// The pattern of an inner path alone.
pub fn inner_pattern(alloc: Global, kind: InnerKind, name: &Symbol) -> Result<Pattern, NoMemory>
    ensures { IfOk result (λ pattern. pattern ≡ literal_of (inner_of kind name.now)) }
{
    let path = inner(alloc, kind, name.as_bytes())?;
    literal(alloc, &path)
}
