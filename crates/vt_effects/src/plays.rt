//! The calls that sound: `play`, `synth` and `sample`.

ghost use Rattle.std.specs.Prelude.{◌≡◌, ◌||◌, Ok, Err, IfOk, IfErr, IsTrue, is_some};
ghost use Rattle.vt_event.specs.EventsByKind as events;
ghost use Rattle.vt_event.specs.Kinds.{is_sample_name};
ghost use Rattle.vt_run.specs.calls.PlayCalls.{has_name, play_call, plays_note, sample_argument, sample_call, synth_call, with_defaults};
ghost use Rattle.vt_run.specs.declared.state.State.{State};
ghost use Rattle.vt_effects.specs.Playing.{Plays};
ghost use Rattle.vt_effects.specs.Results.{Publishes, place_in};

use crate::places::place_in;
use std::alloc::Global;
use vt_event::{Event, FxId, Options, ThreadId};
use vt_frac::{Name, NoMemory};
use vt_given::{Given, Note, Notes, a_symbol, notes_to_play, one};
use vt_run::State;
use vt_value::{FaultKind, Symbol, Value, ValueFault};

/// `play V`, with any options: the notes that are played, in order, each by `note_event`.
#[tactic(auto, unfolding(vt_run::specs::calls::PlayCalls::play_call))]
pub fn play(alloc: Global, given: &Given) -> Result<Notes, ValueFault>
    ensures { (st : State) → Plays (play_call given.now st) given.now.options st result }
{
    notes_to_play(alloc, one(given.all_args())?)
}

/// A note is played with the thread's synth, in its effect, with these options, and with those of its defaults that are not
/// among them.
pub fn note_event(
    alloc: Global,
    thread: &ThreadId,
    options: &Options,
    note: &Note,
    state: &State,
) -> Result<Event, NoMemory>
    ensures { IfOk result (λ event. event ≡ plays_note options.now state.now.settings note.now (place_in thread.now state.now)) }
{
    let options = with_defaults(alloc, options, &state.settings.defaults)?;
    let synth = state.settings.synth.copy(alloc)?;
    let fx = copy_fx(alloc, &state.settings.fx)?;
    let place = place_in(alloc, thread, state)?;
    Ok(Event::of_play(place, synth, note.to_value(), options, fx))
}

/// The options as they are written, and then those defaults whose names are not among them.
fn with_defaults(alloc: Global, options: &Options, defaults: &Options) -> Result<Options, NoMemory>
    ensures { IfOk result (λ all. all ≡ with_defaults options.now defaults.now) }
{
    let mut all = options.copy(alloc)?;
    let mut left = defaults.as_slice();
    while let Some((default, rest)) = left.split_first() {
        if !has_name(options.as_slice(), default.0.as_bytes()) {
            all.push((default.0.copy(alloc)?, default.1.copy(alloc)?))?;
        }
        left = rest;
    }
    Ok(all)
}

fn has_name(options: &[(Name, Value)], name: &[u8]) -> bool
    ensures { result ≡ has_name options.now name.now }
{
    options.iter().any(|option| option.0.as_bytes() == name)
}

pub(crate) fn copy_fx(alloc: Global, fx: &Option<FxId>) -> Result<Option<FxId>, NoMemory>
    ensures { IfOk result (λ copied. copied ≡ fx.now) }
{
    match fx {
        None => Ok(None),
        Some(fx) => Ok(Some(fx.copy(alloc)?)),
    }
}

/// `synth :x`, with any options.
#[tactic(auto, unfolding(vt_run::specs::calls::PlayCalls::synth_call))]
pub fn synth(
    alloc: Global,
    thread: &ThreadId,
    given: &Given,
    state: &State,
) -> Result<Event, ValueFault>
    ensures { Publishes (synth_call given.now state.now) thread.now state.now result }
{
    let name = a_symbol(given.all_args())?;
    Ok(synth_event(alloc, thread, name, given.options(), state)?)
}

fn synth_event(
    alloc: Global,
    thread: &ThreadId,
    name: &Symbol,
    options: &Options,
    state: &State,
) -> Result<Event, NoMemory>
    ensures { IfOk result (λ event. event ≡ events.synth_event (place_in thread.now state.now) name.now options.now state.now.settings.fx) }
{
    let name = Name::of(alloc, name.as_bytes())?;
    let options = options.copy(alloc)?;
    let fx = copy_fx(alloc, &state.settings.fx)?;
    let place = place_in(alloc, thread, state)?;
    Ok(Event::of_synth(place, name, options, fx))
}

/// `sample V`, with any options.
#[tactic(auto, unfolding(vt_run::specs::calls::PlayCalls::sample_call))]
pub fn sample(
    alloc: Global,
    thread: &ThreadId,
    given: &Given,
    state: &State,
) -> Result<Event, ValueFault>
    ensures { Publishes (sample_call given.now state.now) thread.now state.now result }
{
    let sample = sample_argument(one(given.all_args())?)?;
    Ok(sample_event(alloc, thread, sample, given.options(), state)?)
}

/// A symbol or a text.
fn sample_argument(value: &Value) -> Result<&Value, FaultKind>
    ensures ok { IfOk result (λ sample. sample_argument value.now ≡ Ok sample.now) }
    ensures named { IfOk result (λ sample. IsTrue (is_sample_name sample.now)) }
    ensures err { IfErr result (λ kind. sample_argument value.now ≡ Err kind) }
{
    match value {
        Value::Sym(_) => Ok(value),
        Value::Text(_) => Ok(value),
        Value::Nil => Err(FaultKind::WrongKind),
        Value::Bool(_) => Err(FaultKind::WrongKind),
        Value::Whole(_) => Err(FaultKind::WrongKind),
        Value::Part(_) => Err(FaultKind::WrongKind),
        Value::Ring(_) => Err(FaultKind::WrongKind),
    }
}

fn sample_event(
    alloc: Global,
    thread: &ThreadId,
    sample: &Value,
    options: &Options,
    state: &State,
) -> Result<Event, NoMemory>
    requires { IsTrue (is_sample_name sample.now) }
    ensures { IfOk result (λ event. event ≡ events.sample_event (place_in thread.now state.now) sample.now options.now state.now.settings.fx) }
{
    let sample = sample.copy(alloc)?;
    let options = options.copy(alloc)?;
    let fx = copy_fx(alloc, &state.settings.fx)?;
    let place = place_in(alloc, thread, state)?;
    Event::of_sample(alloc, place, sample, options, fx)
}
