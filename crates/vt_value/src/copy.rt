//! Copies of values, without a call for each ring in a ring.

ghost use Rattle.std.specs.Prelude.{◌≡◌, ◌+◌, ◌≤◌, [], map, length, IfOk};
ghost use Rattle.vt_value.specs.Kinds.{items_of};
ghost use Rattle.vt_value.specs.private.Walks.{assembled, climbed_from, climbed_weight, open_weight};
ghost use Rattle.vt_value.specs.private.Weights.{weight_of, weights_of};

use crate::{Items, Value};
use std::alloc::Global;
use vt_frac::NoMemory;

/// A ring that is being copied: the copies so far, and the items behind the one that is copied now.
#[derive(Drop)]
pub(crate) struct OpenRing<'a> {
    made: Vec<Value>,
    rest: &'a [Value],
}

/// Where a walk over a value is, once a value without an item is copied: at its end with the whole copy, or at the next value.
#[derive(Drop)]
pub(crate) enum Climbed<'a> {
    Whole(Value),
    Next(&'a Value),
}

impl Value {
    /// An equal value.
    pub fn copy(&self, alloc: Global) -> Result<Value, NoMemory>
        ensures { IfOk result (λ value. value ≡ self.now) }
    {
        let mut rings = Vec::new(alloc);
        let mut value = self;
        loop {
            let copied = copy_first(alloc, &mut rings, value)?;
            match climb(&mut rings, copied)? {
                Climbed::Whole(whole) => return Ok(whole),
                Climbed::Next(next) => value = next,
            }
        }
    }
}

/// Goes down to a value's first value without an item, opens the rings on the way, and copies that value.
fn copy_first<'a>(
    alloc: Global,
    rings: &mut Vec<OpenRing<'a>>,
    value: &'a Value,
) -> Result<Value, NoMemory>
    ensures same { IfOk result (λ copied. assembled rings.new.items copied ≡ assembled rings.old.items value.now) }
    ensures less { IfOk result (λ copied. open_weight rings.new.items + 2 ≤ open_weight rings.old.items + weight_of value.now) }
{
    let mut at = value;
    while let Some((first, rest)) = at.items().split_first() {
        let made = Vec::new(alloc);
        rings.push(OpenRing { made, rest })?;
        at = first;
    }
    copy_without_items(alloc, at)
}

/// Puts a copy into the innermost open ring, closes each ring that is whole then, and goes on to the next value.
fn climb<'a>(rings: &mut Vec<OpenRing<'a>>, copied: Value) -> Result<Climbed<'a>, NoMemory>
    ensures same { IfOk result (λ climbed. climbed_from rings.new.items climbed ≡ assembled rings.old.items copied) }
    ensures less { IfOk result (λ climbed. climbed_weight rings.new.items climbed ≤ open_weight rings.old.items) }
{
    let mut copied = copied;
    while let Some(ring) = rings.pop() {
        let OpenRing { mut made, rest } = ring;
        made.push(copied)?;
        match rest.split_first() {
            None => copied = Value::Ring(Items::from_vec(made)),
            Some((next, rest)) => {
                rings.push(OpenRing { made, rest })?;
                return Ok(Climbed::Next(next));
            }
        }
    }
    Ok(Climbed::Whole(copied))
}

/// The copy of a value without an item.
fn copy_without_items(alloc: Global, value: &Value) -> Result<Value, NoMemory>
    ensures { IfOk result (λ copied. items_of value.now ≡ [] → copied ≡ value.now) }
{
    Ok(match value {
        Value::Nil => Value::Nil,
        Value::Bool(b) => Value::Bool(*b),
        Value::Whole(n) => Value::Whole(*n),
        Value::Part(f) => Value::Part(*f),
        Value::Sym(symbol) => Value::Sym(symbol.copy(alloc)?),
        Value::Text(bytes) => Value::Text(bytes.copy(alloc)?),
        Value::Ring(_) => Value::Ring(Items::new(alloc)),
    })
}
