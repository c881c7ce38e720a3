//! Reads and waits: what a thread asks for, and what it goes on with.

ghost use Rattle.std.specs.Prelude.{◌≡◌, ℕ, List, IfOk, OnOk, Some, Option, slice_get};
ghost use Rattle.std.specs.Option.{option_copied};
ghost use Rattle.vt_event.specs.Event.{EventView};
ghost use Rattle.vt_ring.specs.Answers.{MayGive};
ghost use Rattle.vt_run.specs.Actions.{answered, is_own_stop, is_stop_of, reads, syncs, takes, waits, wakes_with};
ghost use Rattle.vt_run.specs.Evaluation.{Ran};
ghost use Rattle.vt_run.specs.calls.MessageCalls.{get_call, sync_call, value_found};
ghost use Rattle.vt_run.specs.declared.state.State.{State};
ghost use Rattle.vt_eval_steps.specs.Making.{Comes, ComesOn, WokenOn};
ghost use Rattle.vt_eval_steps.specs.Scenes.{env_at};

use crate::acting::act;
use crate::run::Run;
use crate::scene::Scene;
use crate::spot::Spot;
use std::alloc::Global;
use vt_effects::{a_pattern, place_in, stop_pattern, took_event};
use vt_event::Event;
use vt_frac::NoMemory;
use vt_given::Given;
use vt_path::{InnerKind, Path, Pattern, inner, literal, matches};
use vt_run::{Action, Answer, EndReason, Role};
use vt_value::{Symbol, Value};

impl<'t> Scene<'t> {
    /// Asks for the last event that the pattern matches. Where there is no further answer the thread has nothing more to do.
    pub fn read(&self, pattern: Pattern, run: &mut Run) -> Result<Option<&'t Answer>, NoMemory>
        ensures state { run.new.state ≡ record run.old.state { step = run.new.state.step; used = run.new.state.used } }
        ensures answer { IfOk result (λ answer. ComesOn (option_copied answer) (reads pattern (env_at self.now) run.old.state) run.old.notes run.new.state run.new.notes) }
    {
        let place = place_in(self.alloc, self.thread(), &run.state)?;
        act(1, Action::Read { place, pattern }, run)?;
        Ok(self.answer(run))
    }

    /// The next answer, which is used. Where there is none, the thread has nothing more to do.
    fn answer(&self, run: &mut Run) -> Option<&'t Answer>
        ensures state { run.new.state ≡ record run.old.state { used = run.new.state.used } }
        ensures answer { ComesOn (option_copied result) (λ go. answered (slice_get self.now.answers.now run.old.state.used) run.old.state go) run.old.notes run.new.state run.new.notes }
    {
        match self.answers.get(run.state.used) {
            Some(answer) => {
                run.state.used += 1;
                Some(answer)
            }
            None => {
                run.notes.finish();
                None
            }
        }
    }

    /// Waits for the next event that the pattern matches, or in the thread of a live loop for the loop's stop. Where no event
    /// is given, the thread has nothing more to do.
    pub fn wait(&self, pattern: Pattern, run: &mut Run) -> Result<Option<&'t Event>, NoMemory>
        ensures { IfOk result (λ event. WokenOn (option_copied event) (waits pattern (env_at self.now) run.old.state) run.old.notes run.new.state run.new.notes) }
    {
        let place = place_in(self.alloc, self.thread(), &run.state)?;
        let stop = stop_pattern(self.alloc, &self.start.role)?;
        act(
            1,
            Action::Wait {
                place,
                pattern,
                stop,
            },
            run,
        )?;
        match self.answer(run) {
            None => Ok(None),
            Some(Answer::Nothing) => {
                run.notes.finish();
                Ok(None)
            }
            Some(Answer::Found(event)) => Ok(Some(event)),
        }
    }

    /// The event that answers a wait is taken: that is told, and its value is given. A stop of the thread ends it instead.
    fn wake(&self, event: &Event, run: &mut Run) -> Result<Value, NoMemory>
        ensures { Comes (wakes_with event.now.path event.now run.old.state (λ path event st. takes path event (env_at self.now) st)) run.old.notes result run.new }
    {
        if run.notes.is_over() {
            return Ok(Value::Nil);
        }
        let place = event.place();
        match event.path() {
            None => {
                run.notes.finish();
                Ok(Value::Nil)
            }
            Some(path) => match place.micro.checked_add(1) {
                Some(micro) => {
                    run.state.time = place.time;
                    run.state.micro = micro;
                    run.state.moved = true;
                    self.take(path, event.value(), run)
                }
                None => {
                    run.notes.count();
                    run.notes.finish();
                    Ok(Value::Nil)
                }
            },
        }
    }

    /// What was waited for is taken, or it stops the thread.
    fn take(&self, path: &Path, value: &Value, run: &mut Run) -> Result<Value, NoMemory>
        ensures { (event : EventView) → event.value ≡ value.now → Comes (takes path.now event (env_at self.now) run.old.state) run.old.notes result run.new }
    {
        if is_own_stop(self.alloc, &self.start.role, path)? {
            self.end(EndReason::Stopped, run)?;
            return Ok(Value::Nil);
        }
        let event = took_event(self.alloc, self.thread(), path, value, &run.state)?;
        self.emit(event, run)?;
        value.copy(self.alloc)
    }

    /// A wait, and what it takes.
    pub fn sync(&self, pattern: Pattern, run: &mut Run) -> Result<Value, NoMemory>
        ensures { Comes (syncs pattern (env_at self.now) run.old.state) run.old.notes result run.new }
    {
        match self.wait(pattern, run)? {
            None => Ok(Value::Nil),
            Some(event) => self.wake(event, run),
        }
    }

    /// `sync P`
    #[tactic(auto, unfolding(vt_run::specs::calls::MessageCalls::sync_call))]
    pub(crate) fn sync_call(
        &self,
        given: &Given,
        at: Spot,
        run: &mut Run,
    ) -> Result<Value, NoMemory>
        ensures { Comes (sync_call given.now (env_at self.now) at run.old.state) run.old.notes result run.new }
    {
        match a_pattern(self.alloc, given) {
            Ok(pattern) => self.sync(pattern, run),
            Err(fault) => self.fail_by(fault, at, run),
        }
    }

    /// `get P`
    #[tactic(auto, unfolding(vt_run::specs::calls::MessageCalls::get_call))]
    pub(crate) fn get_call(&self, given: &Given, at: Spot, run: &mut Run) -> Result<Value, NoMemory>
        ensures { Comes (get_call given.now (env_at self.now) at run.old.state) run.old.notes result run.new }
    {
        match a_pattern(self.alloc, given) {
            Ok(pattern) => match self.read(pattern, run)? {
                Some(answer) => value_found(self.alloc, answer),
                None => Ok(Value::Nil),
            },
            Err(fault) => self.fail_by(fault, at, run),
        }
    }
}

/// The value of the event that is found, or nil.
fn value_found(alloc: Global, answer: &Answer) -> Result<Value, NoMemory>
    ensures { IfOk result (λ value. value ≡ value_found answer.now) }
{
    match answer {
        Answer::Nothing => Ok(Value::Nil),
        Answer::Found(event) => event.value().copy(alloc),
    }
}

/// Whether the path is that of the stop of the thread, where it is the thread of a live loop.
fn is_own_stop(alloc: Global, role: &Role, path: &Path) -> Result<bool, NoMemory>
    ensures { IfOk result (λ own. own ≡ is_own_stop role.now path.now) }
{
    match role {
        Role::Looped { name, .. } => is_stop_of(alloc, name, path),
        Role::Plain => Ok(false),
        Role::Named(_) => Ok(false),
        Role::Timed { .. } => Ok(false),
    }
}

/// Whether the path is that of the stop of this name.
fn is_stop_of(alloc: Global, name: &Symbol, path: &Path) -> Result<bool, NoMemory>
    ensures { IfOk result (λ own. own ≡ is_stop_of name.now path.now) }
{
    let stop = inner(alloc, InnerKind::Stop, name.as_bytes())?;
    let pattern = literal(alloc, &stop)?;
    Ok(matches(&pattern, path))
}
