//! Rests.

ghost use Rattle.std.specs.Prelude.{◌≡◌, OnOk, IsTrue};
ghost use Rattle.vt_frac.specs.Arithmetic.{sum_of};
ghost use Rattle.vt_frac.specs.Fraction.{fits};
ghost use Rattle.vt_ring.specs.Exact.{is_positive};
ghost use Rattle.vt_run.specs.Actions.{is_past, rested, rests};
ghost use Rattle.vt_run.specs.calls.TimeCalls.{sleep_call};
ghost use Rattle.vt_eval_steps.specs.Making.{Comes};
ghost use Rattle.vt_eval_steps.specs.Scenes.{env_at};

use crate::acting::act;
use crate::run::Run;
use crate::scene::Scene;
use crate::spot::Spot;
use std::cmp::Ordering;
use vt_effects::{place_in, rest_seconds};
use vt_frac::{Frac, NoMemory};
use vt_given::Given;
use vt_run::{Action, State};
use vt_value::Value;

impl Scene<'_> {
    /// A rest of so many seconds. A rest to a time at or past the horizon is the last step of the thread.
    pub fn rest(&self, seconds: Frac, run: &mut Run) -> Result<Value, NoMemory>
        requires { IsTrue (fits (sum_of run.old.state.time seconds)) }
        ensures { Comes (rests seconds (env_at self.now) run.old.state) run.old.notes result run.new }
    {
        let time = time_after(run.state.time, seconds);
        let place = place_in(self.alloc, self.thread(), &run.state)?;
        act(1, Action::Rest { place, seconds }, run)?;
        if is_past(self.start.until, time) {
            run.notes.finish();
            return Ok(Value::Nil);
        }
        end_rest(time, seconds, &mut run.state);
        Ok(Value::Nil)
    }

    /// `sleep N`, `wait N`
    #[tactic(auto, unfolding(vt_run::specs::calls::TimeCalls::sleep_call))]
    pub(crate) fn sleep_call(
        &self,
        given: &Given,
        at: Spot,
        run: &mut Run,
    ) -> Result<Value, NoMemory>
        ensures { Comes (sleep_call given.now (env_at self.now) at run.old.state) run.old.notes result run.new }
    {
        match rest_seconds(given, &run.state) {
            Ok(seconds) => self.rest(seconds, run),
            Err(kind) => self.fail(kind, at, run),
        }
    }
}

/// Behind a rest of so many seconds, which ends at this time. A rest of 0 changes nothing.
fn end_rest(time: Frac, seconds: Frac, state: &mut State)
    requires { time ≡ sum_of state.old.time seconds }
    ensures { state.new ≡ rested seconds state.old }
{
    if is_positive(seconds) {
        state.time = time;
        state.micro = 0;
        state.moved = true;
    }
}

/// The time after so many seconds more.
fn time_after(time: Frac, seconds: Frac) -> Frac
    requires { IsTrue (fits (sum_of time seconds)) }
    ensures { result ≡ sum_of time seconds }
{
    match time.add(seconds) {
        Ok(time) => time,
        Err(_) => unreachable!(),
    }
}

/// Whether a time is at the horizon or past it.
fn is_past(until: Frac, time: Frac) -> bool
    ensures { result ≡ is_past until time }
{
    match time.cmp(&until) {
        Ordering::Less => false,
        Ordering::Equal => true,
        Ordering::Greater => true,
    }
}

/// Whether a number is above 0.
fn is_positive(number: Frac) -> bool
    ensures { result ≡ is_positive number }
{
    number.numer() > 0
}
