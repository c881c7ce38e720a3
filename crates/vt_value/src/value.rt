//! Values, and how they are let go.

ghost use Rattle.std.specs.Prelude.{◌≡◌, ◌+◌, ◌<◌, ◌≤◌, vec_len};
ghost use Rattle.vt_value.specs.Kinds.{is_truthy, number_of, ring_of};
ghost use Rattle.vt_value.specs.private.Weights.{weight_of, weights_of};

use crate::{Integer, Items, Symbol};
use std::mem;
use vt_frac::{Frac, Name};

/// A value of the language.
#[derive(Debug)]
pub enum Value {
    Nil,
    Bool(bool),
    /// A whole number.
    Whole(Integer),
    /// An exact fraction, also where its denominator is 1.
    Part(Frac),
    /// A symbol, by its name without the colon.
    Sym(Symbol),
    /// A text, as its bytes.
    Text(Name),
    /// A ring, as its items.
    Ring(Items),
}

impl Value {
    /// Whether the value counts as true: all but nil and false do.
    pub fn truthy(&self) -> bool
        ensures { result ≡ is_truthy self.now }
    {
        match self {
            Value::Nil => false,
            Value::Bool(b) => *b,
            Value::Whole(_) | Value::Part(_) | Value::Sym(_) | Value::Text(_) | Value::Ring(_) => {
                true
            }
        }
    }

    /// The items of a ring. A pattern cannot take a value apart, since a value lets its items go by a loop.
    pub fn into_items(self) -> Option<Items>
        ensures { result ≡ ring_of self }
    {
        match self {
            Value::Nil => None,
            Value::Bool(_) => None,
            Value::Whole(_) => None,
            Value::Part(_) => None,
            Value::Sym(_) => None,
            Value::Text(_) => None,
            Value::Ring(items) => Some(items),
        }
    }
}

impl Drop for Value {
    fn drop(self) {
        match self {
            Value::Nil => {}
            Value::Bool(_) => {}
            Value::Whole(_) => {}
            Value::Part(_) => {}
            Value::Sym(_) => {}
            Value::Text(_) => {}
            Value::Ring(items) => drop_items(items.into_vec()),
        }
    }
}

/// Drops the items one by one, from the last.
fn drop_items(mut items: Vec<Value>) {
    while let Some(value) = items.pop() {
        items = drop_one(items, value);
    }
    items.destroy_empty();
}

/// Drops the first value without an item that it comes to in `value`. What is left of `value` takes the place of `items`, which hang at its first place.
fn drop_one(items: Vec<Value>, value: Value) -> Vec<Value>
    ensures { weights_of result.items < weights_of items.items + weight_of value }
{
    let mut outer = items;
    let mut value = value;
    while let Some(ring) = value.into_items() {
        let mut inner = ring.into_vec();
        if inner.is_empty() {
            inner.destroy_empty();
            return outer;
        }
        value = exchange(&mut inner, outer);
        outer = inner;
    }
    outer
}

/// Takes an item out of a ring, and leaves the ring of `outer` in its place if there is anything in it.
fn exchange(inner: &mut Vec<Value>, outer: Vec<Value>) -> Value
    requires { 0 < vec_len inner.old }
    ensures no_more { weights_of inner.new.items + weight_of result ≤ 2 + weights_of inner.old.items + weights_of outer.items }
    ensures part { weight_of result ≤ weights_of inner.old.items }
{
    if outer.is_empty() {
        outer.destroy_empty();
        return inner.pop().unwrap();
    }
    mem::replace(&mut inner[0], Value::Ring(Items::put_by(outer)))
}
