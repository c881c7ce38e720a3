//! How far an evaluation has come.

ghost use Rattle.std.specs.Prelude.{◌≡◌, ℕ, IfOk, OnOk};
ghost use Rattle.vt_run.specs.Evaluation.{Ran, gives, tick};
ghost use Rattle.vt_run.specs.Threads.{opening};
ghost use Rattle.vt_run.specs.TreeMeaning.{sized};
ghost use Rattle.vt_run.specs.declared.state.State.{State};
ghost use Rattle.vt_run.specs.Evaluation.{charges};
ghost use Rattle.vt_run.specs.Notes.{capped};
ghost use Rattle.vt_eval_steps.specs.Making.{Makes};

use std::alloc::Global;
use vt_effects::node_size;
use vt_frac::NoMemory;
use vt_rand::Stream;
use vt_run::{Recorder, Start, State, Ticks};
use vt_value::Value;

/// How far an evaluation has come: where the thread stands, and what is noted of its steps.
#[derive(Drop)]
pub struct Run {
    /// Where the thread stands.
    pub state: State,
    /// What is noted.
    pub notes: Recorder,
}

/// Where a thread stands as it starts. It fails only for want of memory.
pub fn opening(alloc: Global, start: &Start) -> Result<State, NoMemory>
    ensures { IfOk result (λ state. state ≡ opening start.now) }
{
    let locals = start.locals.copy(alloc)?;
    let settings = start.settings.copy(alloc)?;
    Ok(State {
        time: start.place.time,
        micro: start.place.micro,
        step: start.place.step,
        locals,
        settings,
        ticks: Ticks::new(alloc),
        stream: Stream::from_seed(start.seed),
        effects: 0,
        children: 0,
        used: 0,
        moved: false,
    })
}

impl Run {
    /// The step of a statement, a node, a turn or a call.
    pub fn tick(&mut self) -> Result<(), NoMemory>
        ensures state { self.new.state ≡ self.old.state }
        ensures makes { OnOk result ((ran : Ran) → Makes (tick ran) self.old.notes ran self.new.notes) }
    {
        self.notes.step(1, None)
    }

    /// The step of a size; a size of 0 makes none. A size above 2^64 - 1 is given as 2^64 - 1.
    pub fn charge(&mut self, size: u64) -> Result<(), NoMemory>
        ensures state { self.new.state ≡ self.old.state }
        ensures makes { OnOk result ((exact : ℕ) → capped exact ≡ size → (ran : Ran) → Makes (charges exact ran) self.old.notes ran self.new.notes) }
    {
        if size > 0 {
            self.notes.step(size, None)?;
        }
        Ok(())
    }

    /// The step of the size of a node's value, where that is a ring or a text.
    pub fn charge_value(&mut self, value: &Value) -> Result<(), NoMemory>
        ensures state { self.new.state ≡ self.old.state }
        ensures makes { OnOk result (Makes (sized value.now self.old.state) self.old.notes (gives value.now self.new.state) self.new.notes) }
    {
        self.charge(node_size(value))
    }
}
