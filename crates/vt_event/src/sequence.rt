//! A list that grows at its end, and the lists that are made of it.

ghost use Rattle.std.specs.Prelude.{◌≡◌, [], ◌∷◌, ◌++◌, OnOk, OnErr};

use crate::{Event, Living};
use std::alloc::Global;
use std::marker::Model;
use vt_frac::{Name, NoMemory};
use vt_value::Value;

/// A list that grows at its end. Contracts see it as the list of what it holds.
#[derive(Drop)]
pub struct Sequence<T> {
    items: Vec<T>,
}

impl<T> Model for Sequence<T> {
    ghost use Rattle.std.specs.Prelude.{List};
    ghost use Rattle.std.specs.Coded.{coded_list};

    ghost Value = { List T };

    ghost coded = { coded_list T.code };

    ghost view = { λ sequence. sequence.items.items };
}

impl<T: Drop> Sequence<T> {
    /// An empty list.
    pub fn new(alloc: Global) -> Sequence<T>
        ensures { result ≡ [] }
    {
        Sequence {
            items: Vec::new(alloc),
        }
    }

    /// Adds an item at the end. It fails only for want of memory.
    pub fn push(&mut self, item: T) -> Result<(), NoMemory>
        ensures ok { OnOk result (self.new ≡ self.old ++ item ∷ []) }
        ensures err { OnErr result (self.new ≡ self.old) }
    {
        self.items.push(item)?;
        Ok(())
    }

    /// The items in order.
    pub fn as_slice(&self) -> &[T]
        ensures { result.now ≡ self.now }
    {
        self.items.as_slice()
    }

    /// The list of the items of a `Vec`.
    pub fn from_vec(items: Vec<T>) -> Sequence<T>
        ensures { result ≡ items.items }
    {
        Sequence { items }
    }

    /// The items in order, for the one who takes them over.
    pub fn into_vec(self) -> Vec<T>
        ensures { result.items ≡ self }
    {
        self.items
    }
}

/// Events, one after another.
pub type Events = Sequence<Event>;

/// Input events, one after another.
pub type Inputs = Sequence<Event>;

/// The options of an event, in order: each its name and its value.
pub type Options = Sequence<(Name, Value)>;

/// The locals of a thread, in order: each its name and its value.
pub type Locals = Sequence<(Name, Value)>;

/// The threads that go on living, in the order of their lists.
pub type Livings = Sequence<Living>;
