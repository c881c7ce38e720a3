//! Actions: events, faults and the end of a thread.

ghost use Rattle.std.specs.Prelude.{◌≡◌, ◌≤◌, ℕ, Ok, IfOk, OnOk, Result, Some};
ghost use Rattle.vt_event.specs.declared.place.Place.{Place};
ghost use Rattle.vt_event.specs.Event.{EventView};
ghost use Rattle.vt_ring.specs.Answers.{MayGive};
ghost use Rattle.vt_run.specs.Actions.{acted, emits, ends, fails, name_path, or_fails, place_of, tells_end};
ghost use Rattle.vt_run.specs.Evaluation.{Ran, does, gives, halts};
ghost use Rattle.vt_run.specs.Notes.{RestFits, capped};
ghost use Rattle.vt_run.specs.Standing.{action_place};
ghost use Rattle.vt_run.specs.declared.state.State.{State};
ghost use Rattle.vt_value.specs.declared.fault.FaultKind.{FaultKind};
ghost use Rattle.vt_value.specs.declared.value.Value.{Value};
ghost use Rattle.vt_eval_steps.specs.Making.{Comes, Makes};
ghost use Rattle.vt_eval_steps.specs.Scenes.{env_at};

use crate::run::Run;
use crate::scene::Scene;
use crate::spot::Spot;
use vt_effects::{emit_cost, ended_event, fault_event, name_path, place_in};
use vt_event::Event;
use vt_frac::NoMemory;
use vt_run::{Action, EndReason};
use vt_value::{FaultKind, Value, ValueFault};

/// Makes the step of an action, which stands where the thread stands. Past a stop it does nothing.
pub(crate) fn act(cost: u64, action: Action, run: &mut Run) -> Result<(), NoMemory>
    requires costs { 1 ≤ cost }
    requires fits { RestFits (Some action) }
    requires placed { (action_place action).step ≡ run.old.state.step }
    ensures state { run.new.state ≡ record run.old.state { step = run.new.state.step } }
    ensures makes { OnOk result ((exact : ℕ) → capped exact ≡ cost → (go : State → Ran) → Makes (does exact action (go (acted run.old.state))) run.old.notes (go run.new.state) run.new.notes) }
{
    if run.notes.is_over() {
        let_go(action);
        return Ok(());
    }
    match run.state.step.checked_add(1) {
        Some(step) => {
            run.notes.step(cost, Some(action))?;
            run.state.step = step;
            Ok(())
        }
        None => {
            run.notes.count();
            run.notes.finish();
            let_go(action);
            Ok(())
        }
    }
}

/// Drops an action.
fn let_go(_action: Action) {}

impl Scene<'_> {
    /// Publishes an event, which stands where the thread stands.
    pub fn emit(&self, event: Event, run: &mut Run) -> Result<(), NoMemory>
        requires { event.place ≡ place_of (env_at self.now) run.old.state }
        ensures state { run.new.state ≡ record run.old.state { step = run.new.state.step } }
        ensures makes { OnOk result ((make : Place → EventView) → event ≡ make (place_of (env_at self.now) run.old.state) → (go : State → Ran) → Makes (emits make (env_at self.now) run.old.state go) run.old.notes (go run.new.state) run.new.notes) }
    {
        let cost = emit_cost(&event);
        act(cost, Action::Emit(event), run)
    }

    /// Ends the thread. One that was started by a name tells so before.
    pub fn end(&self, reason: EndReason, run: &mut Run) -> Result<(), NoMemory>
        ensures { OnOk result ((to : Ran) → Makes (ends reason (env_at self.now) run.old.state) run.old.notes to run.new.notes) }
    {
        self.tell_end(run)?;
        let place = place_in(self.alloc, self.thread(), &run.state)?;
        act(1, Action::End { place, reason }, run)?;
        run.notes.finish();
        Ok(())
    }

    /// A thread that was started by a name tells of its end.
    fn tell_end(&self, run: &mut Run) -> Result<(), NoMemory>
        ensures { OnOk result ((go : State → Ran) → Makes (tells_end (name_path self.now.start.now.role) (env_at self.now) run.old.state go) run.old.notes (go run.new.state) run.new.notes) }
    {
        match name_path(self.alloc, &self.start.role)? {
            None => Ok(()),
            Some(path) => {
                let event = ended_event(self.alloc, self.thread(), path, &run.state)?;
                self.emit(event, run)
            }
        }
    }

    /// A fault, on the line of the innermost statement, ends the thread.
    pub fn fail(&self, kind: FaultKind, at: Spot, run: &mut Run) -> Result<Value, NoMemory>
        ensures { Comes (fails kind (env_at self.now) at run.old.state) run.old.notes result run.new }
    {
        self.fault(kind, at, run)?;
        Ok(Value::Nil)
    }

    /// The same, where no value is wanted.
    pub(crate) fn fault(&self, kind: FaultKind, at: Spot, run: &mut Run) -> Result<(), NoMemory>
        ensures { OnOk result ((to : Ran) → Makes (fails kind (env_at self.now) at run.old.state) run.old.notes to run.new.notes) }
    {
        let event = fault_event(self.alloc, self.thread(), kind, at.line(), &run.state)?;
        self.emit(event, run)?;
        self.end(EndReason::Faulted, run)
    }

    /// The value; or the fault ends the thread.
    pub fn or_fail(
        &self,
        answer: Result<Value, ValueFault>,
        at: Spot,
        run: &mut Run,
    ) -> Result<Value, NoMemory>
        ensures { (given : Result Value FaultKind) → MayGive given answer → Comes (or_fails given (env_at self.now) at run.old.state (λ value. gives value run.old.state)) run.old.notes result run.new }
    {
        match answer {
            Ok(value) => Ok(value),
            Err(fault) => self.fail_by(fault, at, run),
        }
    }

    /// The value; or the fault ends the thread.
    pub fn or_fault(
        &self,
        answer: Result<Value, FaultKind>,
        at: Spot,
        run: &mut Run,
    ) -> Result<Value, NoMemory>
        ensures { Comes (or_fails answer (env_at self.now) at run.old.state (λ value. gives value run.old.state)) run.old.notes result run.new }
    {
        match answer {
            Ok(value) => Ok(value),
            Err(kind) => self.fail(kind, at, run),
        }
    }

    /// The fault ends the thread, unless it is want of memory.
    pub fn fail_by(&self, fault: ValueFault, at: Spot, run: &mut Run) -> Result<Value, NoMemory>
        ensures fault { (kind : FaultKind) → fault ≡ ValueFault.Fault kind → Comes (fails kind (env_at self.now) at run.old.state) run.old.notes result run.new }
        ensures memory { OnOk result (fault ≡ ValueFault.NoMemory → ⊥) }
    {
        match fault {
            ValueFault::Fault(kind) => self.fail(kind, at, run),
            ValueFault::NoMemory => Err(NoMemory),
        }
    }
}
