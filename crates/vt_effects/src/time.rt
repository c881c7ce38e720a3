//! The calls of time: `sleep`, `wait`, `current_bpm`, `vt` and `rt`.

ghost use Rattle.std.specs.Prelude.{◌≡◌, Ok};
ghost use Rattle.vt_ring.specs.Answers.{and_then};
ghost use Rattle.vt_run.specs.calls.Arguments.{Given};
ghost use Rattle.vt_run.specs.calls.Deeds.{value_of, valued};
ghost use Rattle.vt_run.specs.calls.TimeCalls.{beats_of, current_bpm_call, rest_of, rt_call, vt_call};

use vt_frac::Frac;
use vt_given::{Given, a_number, exact_quotient, is_negative, seconds_of, whole};
use vt_ring::{exact_product, exact_sum};
use vt_run::State;
use vt_value::{FaultKind, Value};

/// The seconds of a rest of so many beats. `Overflow` where they, or the time after them, do not fit.
pub fn rest_of(state: &State, beats: Frac) -> Result<Frac, FaultKind>
    ensures { result ≡ rest_of state.now beats }
{
    let seconds = seconds_of(beats, &state.settings.bpm)?;
    exact_sum(state.time, seconds)?;
    Ok(seconds)
}

/// A number of beats of at least 0.
fn beats_of(given: &Given) -> Result<Frac, FaultKind>
    ensures { result ≡ beats_of given.now }
{
    let beats = a_number(given.all_args())?;
    if is_negative(beats) {
        return Err(FaultKind::BadValue);
    }
    Ok(beats)
}

/// `sleep N`, `wait N`: the seconds of the rest. The time after it fits.
pub fn rest_seconds(given: &Given, state: &State) -> Result<Frac, FaultKind>
    ensures { result ≡ and_then (beats_of given.now) (rest_of state.now) }
{
    rest_of(state, beats_of(given)?)
}

/// `current_bpm`
#[tactic(auto, unfolding(vt_run::specs::calls::TimeCalls::current_bpm_call))]
pub fn current_bpm(state: &State) -> Value
    ensures { (given : Given) → current_bpm_call given state.now ≡ Ok (valued state.now result) }
{
    Value::Part(state.settings.bpm.get())
}

/// `vt`: the thread's time in seconds.
#[tactic(auto, unfolding(vt_run::specs::calls::TimeCalls::vt_call))]
pub fn vt(state: &State) -> Value
    ensures { (given : Given) → vt_call given state.now ≡ Ok (valued state.now result) }
{
    Value::Part(state.time)
}

/// `rt N`: `N * (bpm / 60)`
#[tactic(auto, unfolding(vt_run::specs::calls::TimeCalls::rt_call))]
pub fn rt(given: &Given, state: &State) -> Result<Value, FaultKind>
    ensures { value_of state.now result ≡ rt_call given.now state.now }
{
    let n = a_number(given.all_args())?;
    let rate = exact_quotient(state.settings.bpm.get(), whole(60))?;
    let product = exact_product(n, rate)?;
    Ok(Value::Part(product))
}
