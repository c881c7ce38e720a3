//! Lists of values, and how many values they hold.

ghost use Rattle.std.specs.Prelude.{◌≡◌, [], ◌∷◌, ◌++◌, ◌↔◌, ◌<◌, length, slice_get, IfOk, IsTrue, MatchOption, OnOk, OnErr, OnSome};
ghost use Rattle.std.specs.Option.{option_copied};

use crate::Value;
use crate::join::push_copies;
use std::alloc::Global;
use std::marker::Model;
use vt_frac::NoMemory;

/// A list, which contracts see as the list of what it holds. The items of a ring are `Items`, a list of values; the parameter is there because a value holds a list of values.
///
/// It keeps how many values it holds, those in its rings included. No contract speaks of that number: it is a hint by which a walk over a value calls itself for the lighter items alone, so that its calls are never deep.
#[derive(Debug, Drop)]
pub struct Items<T = Value> {
    list: Vec<T>,
    weight: u64,
}

impl<T> Model for Items<T> {
    ghost use Rattle.std.specs.Prelude.{List};
    ghost use Rattle.std.specs.Coded.{coded_list};

    ghost Value = { List T };

    ghost coded = { coded_list T.code };

    ghost view = { λ items. items.list.items };
}

impl<T> Items<T> {
    pub fn as_slice(&self) -> &[T]
        ensures { result.now ≡ self.now }
    {
        self.list.as_slice()
    }

    pub fn len(&self) -> usize
        ensures { result ≡ length self.now }
    {
        self.list.len()
    }

    pub fn is_empty(&self) -> bool
        ensures { IsTrue result ↔ (self.now ≡ []) }
    {
        self.list.is_empty()
    }

    /// The item at an index, from 0.
    pub fn get(&self, at: usize) -> Option<&T>
        ensures value { option_copied result ≡ slice_get self.now at }
        ensures within { OnSome result (at < length self.now) }
    {
        self.list.get(at)
    }

    /// What it holds, as a `Vec`.
    pub fn into_vec(self) -> Vec<T>
        ensures { result.items ≡ self }
    {
        let Items { list, weight: _ } = self;
        list
    }
}

impl Items {
    /// The empty list.
    pub fn new(alloc: Global) -> Items
        ensures { result ≡ [] }
    {
        Items {
            list: Vec::new(alloc),
            weight: 0,
        }
    }

    /// The list of the values that a `Vec` holds.
    pub fn from_vec(list: Vec<Value>) -> Items
        ensures { result ≡ list.items }
    {
        let weight = weight_of_all(list.as_slice());
        Items { list, weight }
    }

    /// The same list, for values that are on their way out: it is not measured, so that letting go costs no more than a step a value.
    pub(crate) fn put_by(list: Vec<Value>) -> Items
        ensures { result ≡ list.items }
    {
        Items { list, weight: 0 }
    }

    /// Adds a value at the end.
    pub fn push(&mut self, value: Value) -> Result<(), NoMemory>
        ensures ok { OnOk result (self.new ≡ self.old ++ value ∷ []) }
        ensures err { OnErr result (self.new ≡ self.old) }
    {
        let added = weight(&value);
        self.list.push(value)?;
        self.weight = self.weight.saturating_add(added);
        Ok(())
    }

    /// Takes the last value away.
    pub fn pop(&mut self) -> Option<Value>
        ensures { MatchOption result ((self.old ≡ []) × (self.new ≡ [])) (λ last. self.old ≡ self.new ++ last ∷ []) }
    {
        let last = self.list.pop()?;
        self.weight = self.weight.saturating_sub(weight(&last));
        Some(last)
    }

    /// An equal list.
    pub fn copy(&self, alloc: Global) -> Result<Items, NoMemory>
        ensures { IfOk result (λ items. items ≡ self.now) }
    {
        let mut list = Vec::with_capacity(alloc, self.len())?;
        push_copies(alloc, &mut list, self.as_slice())?;
        Ok(Items {
            list,
            weight: self.weight,
        })
    }
}

/// How many values a value is, those in its rings included.
pub(crate) fn weight(value: &Value) -> u64 {
    match value {
        Value::Ring(items) => items.weight.saturating_add(1),
        Value::Nil => 1,
        Value::Bool(_) => 1,
        Value::Whole(_) => 1,
        Value::Part(_) => 1,
        Value::Sym(_) => 1,
        Value::Text(_) => 1,
    }
}

fn weight_of_all(values: &[Value]) -> u64 {
    let mut total: u64 = 0;
    for value in values {
        total = total.saturating_add(weight(value));
    }
    total
}
