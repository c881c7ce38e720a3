//! Reads the rows of the tests. A row is a call as a score spells its arguments, ` => `, and the text of its value or the
//! word of its fault; behind it may stand how many words of seed 42 it draws.
//!
//!     range 0, 4, step: 2 => [0, 2]
//!     pick [7, 8, 9], 5 => [9, 9, 7, 9, 8] drawing 5 of seed 42
//!
//! A number with a slash is a fraction, also where its denominator is 1. The items of a ring are no rings, and a text has
//! no comma, no bracket, and no blank behind a colon.

use std::alloc::Global;
use vt_frac::{Frac, Name};
use vt_value::{Integer, Items, Symbol, Value};

/// The arguments and options that are read.
#[derive(Drop)]
pub(crate) struct Arguments {
    pub(crate) values: Items,
    pub(crate) options: Vec<(Name, Value)>,
}

/// The arguments and options of a text, or `None` where it has others.
pub(crate) fn arguments_of(alloc: Global, text: &str) -> Option<Arguments> {
    let mut arguments = Arguments {
        values: Items::new(alloc),
        options: Vec::new(alloc),
    };
    arguments.read(alloc, text)?;
    Some(arguments)
}

/// The value that a text ends with.
pub(crate) fn value_of(alloc: Global, text: &str) -> Option<Value> {
    arguments_of(alloc, text)?.values.pop()
}

impl Arguments {
    /// Reads what stands before the first ring, and each ring with what stands behind it.
    fn read(&mut self, alloc: Global, text: &str) -> Option<()> {
        for part in text.split('[') {
            self.read_part(alloc, part)?;
        }
        Some(())
    }

    /// Reads the ring that a part begins with, if one does, and the words behind it.
    fn read_part(&mut self, alloc: Global, part: &str) -> Option<()> {
        let Some((ring, words)) = part.split_once(']') else {
            return self.read_words(alloc, part);
        };
        let mut items = Items::new(alloc);
        read_items(alloc, &mut items, ring)?;
        self.values.push(Value::Ring(items)).ok()?;
        self.read_words(alloc, words)
    }

    fn read_words(&mut self, alloc: Global, words: &str) -> Option<()> {
        for word in words.split(", ") {
            if !word.is_empty() {
                self.read_word(alloc, word)?;
            }
        }
        Some(())
    }

    /// Reads an argument that is no ring, or an option.
    fn read_word(&mut self, alloc: Global, word: &str) -> Option<()> {
        let Some((name, value)) = word.split_once(": ") else {
            return self.values.push(plain_of(alloc, word)?).ok();
        };
        let name = Name::of(alloc, name.as_bytes()).ok()?;
        let value = plain_of(alloc, value)?;
        self.options.push((name, value)).ok()
    }
}

fn read_items(alloc: Global, items: &mut Items, words: &str) -> Option<()> {
    for word in words.split(", ") {
        if !word.is_empty() {
            items.push(plain_of(alloc, word)?).ok()?;
        }
    }
    Some(())
}

/// A value that is no ring.
fn plain_of(alloc: Global, text: &str) -> Option<Value> {
    if text == "nil" {
        return Some(Value::Nil);
    }
    if let Ok(truth) = text.parse::<bool>() {
        return Some(Value::Bool(truth));
    }
    if let Some(name) = text.strip_prefix(':') {
        return symbol_of(alloc, name);
    }
    if let Some(text) = text.strip_prefix('"') {
        let text = text.strip_suffix('"')?;
        return Some(Value::Text(Name::of(alloc, text.as_bytes()).ok()?));
    }
    number_of(text)
}

fn symbol_of(alloc: Global, name: &str) -> Option<Value> {
    let name = Name::of(alloc, name.as_bytes()).ok()?;
    Some(Value::Sym(Symbol::new(name)?))
}

fn number_of(text: &str) -> Option<Value> {
    let Some((n, d)) = text.split_once('/') else {
        return Some(Value::Whole(Integer::new(text.parse::<i64>().ok()?)?));
    };
    let fraction = Frac::new(n.parse::<i64>().ok()?, d.parse::<i64>().ok()?);
    Some(Value::Part(fraction.ok()?))
}
