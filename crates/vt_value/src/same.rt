//! Whether two values are the same.

ghost use Rattle.std.specs.Prelude.{◌≡◌, []};
ghost use Rattle.std.specs.Option.{option_copied};
ghost use Rattle.vt_value.specs.Kinds.{items_of};
ghost use Rattle.vt_value.specs.Same.{all_same_as, equal_fractions, equals_bool, equals_bytes, equals_number, is_no_item, same_as};

use crate::Value;
use crate::heaviest::{by_heaviest, by_item};
use crate::integer::fraction;
use std::cmp::Ordering;
use vt_frac::Frac;

impl Value {
    /// Whether the two are the same: numbers by value, all else by kind and content.
    #[cycle(same)]
    pub fn same(&self, other: &Value) -> bool
        ensures { result ≡ same_as self.now other.now }
    {
        let mut left = self;
        let mut right = other;
        while let Some(parts) = by_heaviest(left.items()) {
            let Some(across) = by_item(right.items(), parts.prefix.len()) else {
                return false;
            };
            if !all_same(parts.prefix, across.prefix) {
                return false;
            }
            if !all_same(parts.suffix, across.suffix) {
                return false;
            }
            left = parts.item;
            right = across.item;
        }
        same_without_items(left, right)
    }
}

/// Whether there are as many values on both sides, and each is the same as the one across from it.
#[cycle(same)]
fn all_same(left: &[Value], right: &[Value]) -> bool
    ensures { result ≡ all_same_as left.now right.now }
{
    if left.len() != right.len() {
        return false;
    }
    for i in 0..left.len() {
        if !left[i].same(&right[i]) {
            return false;
        }
    }
    true
}

/// Whether a value without an item is the same as another value.
fn same_without_items(left: &Value, right: &Value) -> bool
    ensures { items_of left.now ≡ [] → result ≡ same_as left.now right.now }
{
    match left {
        Value::Nil => right.is_nil(),
        Value::Bool(b) => same_bool(*b, right.bool()),
        Value::Whole(n) => same_number(fraction(*n), right.number()),
        Value::Part(f) => same_number(*f, right.number()),
        Value::Sym(symbol) => same_bytes(symbol.as_bytes(), right.symbol()),
        Value::Text(bytes) => same_bytes(bytes.as_bytes(), right.text()),
        Value::Ring(_) => is_empty(right.ring()),
    }
}

fn same_number(number: Frac, other: Option<Frac>) -> bool
    ensures { result ≡ equals_number number other }
{
    match other {
        None => false,
        Some(other) => same_value(number, other),
    }
}

fn same_bool(b: bool, other: Option<bool>) -> bool
    ensures { result ≡ equals_bool b other }
{
    match other {
        None => false,
        Some(other) => b == other,
    }
}

fn same_value(number: Frac, other: Frac) -> bool
    ensures { result ≡ equal_fractions number other }
{
    number.cmp(&other) == Ordering::Equal
}

fn is_empty(items: Option<&[Value]>) -> bool
    ensures { result ≡ is_no_item (option_copied items.entry) }
{
    match items {
        None => false,
        Some(items) => items.is_empty(),
    }
}

fn same_bytes(bytes: &[u8], other: Option<&[u8]>) -> bool
    ensures { result ≡ equals_bytes bytes.now (option_copied other.entry) }
{
    match other {
        None => false,
        Some(other) => bytes == other,
    }
}
