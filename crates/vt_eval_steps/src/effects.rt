//! How an effect begins.

ghost use Rattle.std.specs.Prelude.{◌≡◌, ◌<◌, ◌^◌, ◌+◌, Some, IfOk, Option};
ghost use Rattle.vt_event.specs.declared.references.FxId.{FxId};
ghost use Rattle.vt_event.specs.EventsByKind.{fx_event};
ghost use Rattle.vt_run.specs.Actions.{emits};
ghost use Rattle.vt_run.specs.Evaluation.{Ran};
ghost use Rattle.vt_run.specs.calls.SettingCalls.{in_next_fx};
ghost use Rattle.vt_run.specs.declared.state.State.{State};
ghost use Rattle.vt_eval_steps.specs.Making.{Makes};
ghost use Rattle.vt_eval_steps.specs.Scenes.{env_at};

use crate::run::Run;
use crate::scene::Scene;
use std::alloc::Global;
use std::mem;
use vt_event::{FxId, Options};
use vt_frac::NoMemory;
use vt_value::Symbol;

impl Scene<'_> {
    /// The thread's next effect begins: it is told of, and is the effect from here on. The one before is given back.
    pub fn begin_fx(
        &self,
        name: &Symbol,
        options: &Options,
        run: &mut Run,
    ) -> Result<Option<FxId>, NoMemory>
        ensures makes { IfOk result (λ _. (go : State → Ran) → Makes (emits (λ place. fx_event place name.now (run.old.state.effects + 1) options.now run.old.state.settings.fx) (env_at self.now) run.old.state (λ begun. go (in_next_fx (env_at self.now) run.old.state begun))) run.old.notes (go run.new.state) run.new.notes) }
        ensures before { IfOk result (λ before. before ≡ run.old.state.settings.fx) }
    {
        if run.notes.is_over() {
            return copy_fx(self.alloc, &run.state.settings.fx);
        }
        match run.state.effects.checked_add(1) {
            Some(number) => self.begin_numbered(number, name, options, run),
            None => {
                keep_step(run.state.step);
                run.notes.count();
                run.notes.finish();
                copy_fx(self.alloc, &run.state.settings.fx)
            }
        }
    }

    /// The effect with this number begins.
    fn begin_numbered(
        &self,
        number: u32,
        name: &Symbol,
        options: &Options,
        run: &mut Run,
    ) -> Result<Option<FxId>, NoMemory>
        requires { number ≡ run.old.state.effects + 1 }
        ensures makes { IfOk result (λ _. (go : State → Ran) → Makes (emits (λ place. fx_event place name.now (run.old.state.effects + 1) options.now run.old.state.settings.fx) (env_at self.now) run.old.state (λ begun. go (in_next_fx (env_at self.now) run.old.state begun))) run.old.notes (go run.new.state) run.new.notes) }
        ensures before { IfOk result (λ before. before ≡ run.old.state.settings.fx) }
    {
        let event = vt_effects::fx_event(self.alloc, self.thread(), name, options, &run.state)?;
        let thread = self.thread().copy(self.alloc)?;
        self.emit(event, run)?;
        run.state.effects = number;
        Ok(mem::replace(&mut run.state.settings.fx, Some(FxId { thread, number })))
    }
}

/// What the type of a step's number keeps, told of one. It does nothing.
fn keep_step(step: u32)
    ensures { step < 2 ^ 32 }
{}

/// An equal effect, if there is one.
fn copy_fx(alloc: Global, fx: &Option<FxId>) -> Result<Option<FxId>, NoMemory>
    ensures { IfOk result (λ copied. copied ≡ fx.now) }
{
    match fx {
        None => Ok(None),
        Some(fx) => Ok(Some(fx.copy(alloc)?)),
    }
}
