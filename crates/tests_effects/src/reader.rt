//! Reads the rows of the tests. A row is a call with its arguments and options, ` => `, and what it comes to. The words of
//! a call stand between single blanks, and have none inside: `nil`, `true`, `7`, `1/2`, `:x`, `"text`, `[1,:x]`, `amp:1/2`.

use std::alloc::Global;
use vt_event::Options;
use vt_frac::{Frac, Name};
use vt_given::Given;
use vt_value::{Integer, Items, Symbol, Value};

/// What a call is given by the words of a row.
pub(crate) fn given_of(alloc: Global, dotted: bool, words: &str) -> Option<Given> {
    let mut args = Items::new(alloc);
    let mut options = Options::new(alloc);
    for word in words.split(' ') {
        read_word(alloc, &mut args, &mut options, word)?;
    }
    Some(Given::new(dotted, args, options))
}

/// Adds the argument or the option that a word is; no word adds nothing.
fn read_word(alloc: Global, args: &mut Items, options: &mut Options, word: &str) -> Option<()> {
    match word.split_once(':') {
        Some((name, value)) if !name.is_empty() && !name.starts_with('[') => {
            let name = Name::of(alloc, name.as_bytes()).ok()?;
            options.push((name, value_of(alloc, value)?)).ok()
        }
        _ => add_value(alloc, args, word),
    }
}

fn add_value(alloc: Global, values: &mut Items, word: &str) -> Option<()> {
    if word.is_empty() {
        return Some(());
    }
    values.push(value_of(alloc, word)?).ok()
}

/// The value of a word.
pub(crate) fn value_of(alloc: Global, word: &str) -> Option<Value> {
    let Some(items) = word.strip_prefix('[') else {
        return plain_of(alloc, word);
    };
    let mut ring = Items::new(alloc);
    for item in items.strip_suffix(']')?.split(',') {
        add_plain(alloc, &mut ring, item)?;
    }
    Some(Value::Ring(ring))
}

fn add_plain(alloc: Global, values: &mut Items, word: &str) -> Option<()> {
    if word.is_empty() {
        return Some(());
    }
    values.push(plain_of(alloc, word)?).ok()
}

/// A value that is no ring.
fn plain_of(alloc: Global, word: &str) -> Option<Value> {
    if word == "nil" {
        return Some(Value::Nil);
    }
    if let Ok(truth) = word.parse::<bool>() {
        return Some(Value::Bool(truth));
    }
    if let Some(name) = word.strip_prefix(':') {
        return Some(Value::Sym(symbol_of(alloc, name)?));
    }
    if let Some(text) = word.strip_prefix('"') {
        return Some(Value::Text(Name::of(alloc, text.as_bytes()).ok()?));
    }
    number_of(word)
}

pub(crate) fn symbol_of(alloc: Global, name: &str) -> Option<Symbol> {
    Symbol::new(Name::of(alloc, name.as_bytes()).ok()?)
}

fn number_of(word: &str) -> Option<Value> {
    match word.split_once('/') {
        None => Some(Value::Whole(Integer::new(word.parse::<i64>().ok()?)?)),
        Some((n, d)) => Some(Value::Part(fraction_of(n, d)?)),
    }
}

fn fraction_of(n: &str, d: &str) -> Option<Frac> {
    Frac::new(n.parse::<i64>().ok()?, d.parse::<i64>().ok()?).ok()
}
