//! Where a thread stands in its evaluation.

ghost use Rattle.std.specs.Prelude.{◌≡◌, [], ◌∷◌, ◌++◌, OnErr, OnOk};

use crate::Settings;
use std::alloc::Global;
use std::marker::Model;
use vt_event::Locals;
use vt_frac::{Frac, Name, NoMemory};
use vt_rand::Stream;
use vt_value::Integer;

/// The tick counters of a thread, each its name and its number. A counter that is not there has not ticked.
#[derive(Drop)]
pub struct Ticks {
    items: Vec<(Name, Integer)>,
}

impl Model for Ticks {
    ghost use Rattle.std.specs.Prelude.{List, ℕ, ℤ};

    ghost Value = { List (List ℕ × ℤ) };

    ghost view = { λ ticks. ticks.items.items };
}

impl Ticks {
    /// No counters.
    pub fn new(alloc: Global) -> Ticks
        ensures { result ≡ [] }
    {
        Ticks {
            items: Vec::new(alloc),
        }
    }

    /// Adds a counter at the end. It fails only for want of memory.
    pub fn push(&mut self, name: Name, number: Integer) -> Result<(), NoMemory>
        ensures ok { OnOk result (self.new ≡ self.old ++ (name, number) ∷ []) }
        ensures err { OnErr result (self.new ≡ self.old) }
    {
        self.items.push((name, number))?;
        Ok(())
    }

    /// The counters in order.
    pub fn as_slice(&self) -> &[(Name, Integer)]
        ensures { result.now ≡ self.now }
    {
        self.items.as_slice()
    }
}

/// Where a thread stands in its evaluation: all that its statements may change.
#[derive(Drop)]
pub struct State {
    /// The time, in seconds.
    pub time: Frac,
    /// The micro step in that time.
    pub micro: u32,
    /// The number of its next action, from 1.
    pub step: u32,
    /// Its locals.
    pub locals: Locals,
    /// Its settings.
    pub settings: Settings,
    /// Its tick counters.
    pub ticks: Ticks,
    /// Its random stream.
    pub stream: Stream,
    /// How many effects it has begun.
    pub effects: u32,
    /// How many threads it has started.
    pub children: u32,
    /// How many answers of its reads and waits it has used.
    pub used: usize,
    /// Whether it rested for a positive time or waited since the turn began.
    pub moved: bool,
}
