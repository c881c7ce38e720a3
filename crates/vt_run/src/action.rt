//! What a thread does and what it is answered: actions, each at its place, and answers.

ghost use Rattle.std.specs.Prelude.{◌≡◌, [], ◌∷◌, ◌++◌, OnErr, OnOk};

use crate::Start;
use std::alloc::Global;
use std::marker::Model;
use vt_event::{Event, Place};
use vt_frac::{Frac, NoMemory};
use vt_path::Pattern;

/// Why a thread ended.
#[derive(Clone, Copy, Debug, PartialEq, Eq)]
pub enum EndReason {
    /// It came to the end of its block.
    Done,
    /// It stopped itself; or it is a live loop that was told to stop, or whose body was not found.
    Stopped,
    /// It had a fault.
    Faulted,
}

/// What a thread does, each action at its place.
#[derive(Drop)]
pub enum Action {
    /// It publishes an event.
    Emit(Event),
    /// It rests for so many seconds.
    Rest {
        place: Place,
        seconds: Frac,
    },
    /// It asks for the last event whose path the pattern matches.
    Read {
        place: Place,
        pattern: Pattern,
    },
    /// It waits for the next event whose path the pattern matches, or, in the thread of a live loop, the pattern `stop`: that of
    /// the loop's stop.
    Wait {
        place: Place,
        pattern: Pattern,
        stop: Option<Pattern>,
    },
    /// It starts a thread.
    Spawn {
        place: Place,
        start: Start,
    },
    /// It ends.
    End {
        place: Place,
        reason: EndReason,
    },
}

/// What a read or a wait is answered by. A wait is answered by `Found`.
#[derive(Drop)]
pub enum Answer {
    /// There is no such event.
    Nothing,
    /// This event.
    Found(Event),
}

/// A list of actions.
#[derive(Drop)]
pub struct Actions {
    items: Vec<Action>,
}

impl Model for Actions {
    ghost use Rattle.std.specs.Prelude.{List};
    ghost use Rattle.std.specs.Coded.{codes};
    ghost use Rattle.vt_value.specs.contracts.value.Value as any_value;
    ghost use Rattle.vt_run.specs.declared.action.Action.{Action};

    ghost Value = { List Action };

    ghost coded = { Prim.hlevel (codes, any_value.the_row.coded) };

    ghost view = { λ actions. actions.items.items };
}

impl Actions {
    /// No actions.
    pub fn new(alloc: Global) -> Actions
        ensures { result ≡ [] }
    {
        Actions {
            items: Vec::new(alloc),
        }
    }

    /// Adds an action at the end. It fails only for want of memory.
    pub fn push(&mut self, action: Action) -> Result<(), NoMemory>
        ensures ok { OnOk result (self.new ≡ self.old ++ action ∷ []) }
        ensures err { OnErr result (self.new ≡ self.old) }
    {
        self.items.push(action)?;
        Ok(())
    }

    /// The actions in order.
    pub fn as_slice(&self) -> &[Action]
        ensures { result.now ≡ self.now }
    {
        self.items.as_slice()
    }
}
