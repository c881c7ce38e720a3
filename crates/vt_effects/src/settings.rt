//! The calls that change the settings of a thread, its tempo and its random stream.

ghost use Rattle.std.specs.Prelude.{◌≡◌};
ghost use Rattle.vt_ring.specs.Arguments.{count_from};
ghost use Rattle.vt_run.specs.calls.SettingCalls.{a_seed, a_tempo, use_bpm_call, use_debug_call, use_random_seed_call, use_synth_call, use_synth_defaults_call};
ghost use Rattle.vt_run.specs.calls.Deeds.{value_of};
ghost use Rattle.vt_run.specs.declared.state.State.{State};
ghost use Rattle.vt_effects.specs.Results.{Changes};

use std::alloc::Global;
use vt_frac::Name;
use vt_given::{Given, a_number, a_symbol, a_whole, one};
use vt_rand::Stream;
use vt_run::{State, Tempo};
use vt_value::{FaultKind, Integer, Value, ValueFault};

/// The tempo that a call is given: a number above 0.
pub fn a_tempo(given: &Given) -> Result<Tempo, FaultKind>
    ensures { result ≡ a_tempo given.now }
{
    let bpm = a_number(given.all_args())?;
    match Tempo::new(bpm) {
        Some(tempo) => Ok(tempo),
        None => Err(FaultKind::BadValue),
    }
}

/// The seed that a call is given: a whole number of at least 0.
pub fn a_seed(given: &Given) -> Result<u64, FaultKind>
    ensures { result ≡ a_seed given.now }
{
    count_from(a_whole(given.all_args())?)
}

/// A whole number of at least 0.
fn count_from(number: Integer) -> Result<u64, FaultKind>
    ensures { result ≡ count_from number }
{
    let n = number.get();
    if n < 0 {
        return Err(FaultKind::BadValue);
    }
    Ok(n as u64)
}

/// `use_synth :x`
#[tactic(auto, unfolding(vt_run::specs::calls::SettingCalls::use_synth_call))]
pub fn use_synth(alloc: Global, given: &Given, state: &mut State) -> Result<Value, ValueFault>
    ensures { Changes (use_synth_call given.now state.old) state.old result state.new }
{
    let name = a_symbol(given.all_args())?;
    let synth = Name::of(alloc, name.as_bytes())?;
    state.settings.synth = synth;
    Ok(Value::Nil)
}

/// `use_synth_defaults`, with any options: they replace those before.
#[tactic(auto, unfolding(vt_run::specs::calls::SettingCalls::use_synth_defaults_call))]
pub fn use_synth_defaults(
    alloc: Global,
    given: &Given,
    state: &mut State,
) -> Result<Value, ValueFault>
    ensures { Changes (use_synth_defaults_call given.now state.old) state.old result state.new }
{
    let defaults = given.options().copy(alloc)?;
    state.settings.defaults = defaults;
    Ok(Value::Nil)
}

/// `use_bpm N`
#[tactic(auto, unfolding(vt_run::specs::calls::SettingCalls::use_bpm_call))]
pub fn use_bpm(given: &Given, state: &mut State) -> Result<Value, ValueFault>
    ensures { Changes (use_bpm_call given.now state.old) state.old result state.new }
{
    let bpm = a_tempo(given)?;
    state.settings.bpm = bpm;
    Ok(Value::Nil)
}

/// `use_random_seed n`: a new stream.
#[tactic(auto, unfolding(vt_run::specs::calls::SettingCalls::use_random_seed_call))]
pub fn use_random_seed(given: &Given, state: &mut State) -> Result<Value, ValueFault>
    ensures { Changes (use_random_seed_call given.now state.old) state.old result state.new }
{
    let seed = a_seed(given)?;
    state.stream = Stream::from_seed(seed);
    Ok(Value::Nil)
}

/// `use_debug V`: nothing.
#[tactic(auto, unfolding(vt_run::specs::calls::SettingCalls::use_debug_call))]
pub fn use_debug(given: &Given) -> Result<Value, FaultKind>
    ensures { (st : State) → value_of st result ≡ use_debug_call given.now st }
{
    one(given.all_args())?;
    Ok(Value::Nil)
}
