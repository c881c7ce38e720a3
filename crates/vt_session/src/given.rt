//! The values that are given with an input.
ghost use Rattle.std.specs.Prelude.{◌≡◌, ◌<◌, ◌^◌, ◌∷◌, length, IfOk};
ghost use Rattle.vt_session.specs.Given.{given_of, negated, number_by, number_given, symbol_given, text_given, unsigned};
ghost use Rattle.vt_session.specs.private.Reading.{is_text};

use crate::bytes::are_digits;
use std::alloc::Global;
use vt_frac::{Frac, Name, NoMemory, is_symbol_name};
use vt_lex::{measure_text, text_value};
use vt_value::{Integer, Symbol, Value};

/// The most bytes of a text's value.
const MOST_BYTES: usize = 4_096;

/// The value that a word is, if it is one.
#[tactic(auto, unfolding(crate::specs::Given::given_of))]
pub(crate) fn given_of(alloc: Global, word: &[u8]) -> Result<Option<Value>, NoMemory>
    requires { length word.now < 2 ^ 32 }
    ensures { IfOk result (λ value. value ≡ given_of word.now) }
{
    match word {
        [] => Ok(None),
        [first, rest @ ..] => {
            if *first == b':' {
                symbol_of(alloc, rest)
            } else if *first == b'"' {
                text_of(alloc, word, rest)
            } else if *first == b'-' {
                Ok(negative_of(rest))
            } else {
                Ok(number_of(word))
            }
        }
    }
}

/// The symbol with this name.
fn symbol_of(alloc: Global, name: &[u8]) -> Result<Option<Value>, NoMemory>
    ensures { IfOk result (λ value. value ≡ symbol_given name.now) }
{
    if !is_symbol_name(name) {
        return Ok(None);
    }
    match Symbol::new(Name::of(alloc, name)?) {
        Some(symbol) => Ok(Some(Value::Sym(symbol))),
        None => unreachable!(),
    }
}

/// The text that a word is, with its bytes behind the first quote.
fn text_of(alloc: Global, word: &[u8], form: &[u8]) -> Result<Option<Value>, NoMemory>
    requires whole { word.now ≡ 34 ∷ form.now }
    requires short { length form.now < 2 ^ 32 }
    ensures { IfOk result (λ value. value ≡ text_given form.now) }
{
    if !is_text(form) {
        return Ok(None);
    }
    let value = text_value(alloc, word)?;
    Ok(Some(Value::Text(value)))
}

/// Whether a text ends where these bytes end, which stand behind its first quote, and has no more bytes than it may.
fn is_text(form: &[u8]) -> bool
    requires { length form.now < 2 ^ 32 }
    ensures { result ≡ is_text form.now }
{
    match measure_text(b'"', form) {
        Some(text) => text.len == form.len() && text.count <= MOST_BYTES,
        None => false,
    }
}

/// The number that the bytes are.
fn number_of(word: &[u8]) -> Option<Value>
    ensures { result ≡ number_given unsigned word.now }
{
    match Frac::read_decimal(word) {
        Ok(number) => Some(number_by(are_digits(word), number)),
        Err(_) => None,
    }
}

/// The number whose negative the bytes are.
fn negative_of(word: &[u8]) -> Option<Value>
    ensures { result ≡ number_given negated word.now }
{
    match Frac::read_decimal(word) {
        Ok(number) => Some(number_by(are_digits(word), negated(&number))),
        Err(_) => None,
    }
}

/// A number with its other sign.
fn negated(number: &Frac) -> Frac
    ensures { result ≡ negated number.now }
{
    match Frac::new(-number.numer(), number.denom()) {
        Ok(negative) => negative,
        Err(_) => unreachable!(),
    }
}

/// A whole number, or an exact fraction.
fn number_by(whole: bool, number: Frac) -> Value
    ensures { result ≡ number_by whole number }
{
    if !whole {
        return Value::Part(number);
    }
    match Integer::new(number.numer()) {
        Some(number) => Value::Whole(number),
        None => unreachable!(),
    }
}
