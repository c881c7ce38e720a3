//! What a value is, by its kind.

ghost use Rattle.std.specs.Prelude.{◌≡◌, Some, None, IfSome};
ghost use Rattle.std.specs.Option.{option_copied};
ghost use Rattle.vt_value.specs.Kinds.{bool_of, is_nil, items_of, number_of, ring_of, symbol_of, text_bytes, whole_of};

use crate::integer::fraction;
use crate::{Integer, Value};
use vt_frac::Frac;

impl Value {
    /// The number that the value is, as a fraction; `None` exactly where it is none.
    pub fn number(&self) -> Option<Frac>
        ensures { result ≡ number_of self.now }
    {
        match self {
            Value::Whole(n) => Some(fraction(*n)),
            Value::Part(f) => Some(*f),
            Value::Nil => None,
            Value::Bool(_) => None,
            Value::Sym(_) => None,
            Value::Text(_) => None,
            Value::Ring(_) => None,
        }
    }

    pub(crate) fn whole(&self) -> Option<Integer>
        ensures { result ≡ whole_of self.now }
    {
        match self {
            Value::Whole(n) => Some(*n),
            Value::Nil => None,
            Value::Bool(_) => None,
            Value::Part(_) => None,
            Value::Sym(_) => None,
            Value::Text(_) => None,
            Value::Ring(_) => None,
        }
    }

    pub(crate) fn bool(&self) -> Option<bool>
        ensures { result ≡ bool_of self.now }
    {
        match self {
            Value::Bool(b) => Some(*b),
            Value::Nil => None,
            Value::Whole(_) => None,
            Value::Part(_) => None,
            Value::Sym(_) => None,
            Value::Text(_) => None,
            Value::Ring(_) => None,
        }
    }

    pub(crate) fn symbol(&self) -> Option<&[u8]>
        ensures { option_copied result ≡ symbol_of self.now }
    {
        match self {
            Value::Sym(symbol) => Some(symbol.as_bytes()),
            Value::Nil => None,
            Value::Bool(_) => None,
            Value::Whole(_) => None,
            Value::Part(_) => None,
            Value::Text(_) => None,
            Value::Ring(_) => None,
        }
    }

    pub(crate) fn text(&self) -> Option<&[u8]>
        ensures { option_copied result ≡ text_bytes self.now }
    {
        match self {
            Value::Text(bytes) => Some(bytes.as_bytes()),
            Value::Nil => None,
            Value::Bool(_) => None,
            Value::Whole(_) => None,
            Value::Part(_) => None,
            Value::Sym(_) => None,
            Value::Ring(_) => None,
        }
    }

    pub(crate) fn ring(&self) -> Option<&[Value]>
        ensures { option_copied result ≡ ring_of self.now }
    {
        match self {
            Value::Ring(items) => Some(items.as_slice()),
            Value::Nil => None,
            Value::Bool(_) => None,
            Value::Whole(_) => None,
            Value::Part(_) => None,
            Value::Sym(_) => None,
            Value::Text(_) => None,
        }
    }

    pub(crate) fn is_nil(&self) -> bool
        ensures { result ≡ is_nil self.now }
    {
        match self {
            Value::Nil => true,
            Value::Bool(_) => false,
            Value::Whole(_) => false,
            Value::Part(_) => false,
            Value::Sym(_) => false,
            Value::Text(_) => false,
            Value::Ring(_) => false,
        }
    }

    /// The items of a ring, and none of another value.
    pub(crate) fn items(&self) -> &[Value]
        ensures { result.now ≡ items_of self.now }
    {
        match self {
            Value::Ring(items) => items.as_slice(),
            Value::Nil => &[],
            Value::Bool(_) => &[],
            Value::Whole(_) => &[],
            Value::Part(_) => &[],
            Value::Sym(_) => &[],
            Value::Text(_) => &[],
        }
    }
}
