//! What a directive is by its own bytes.
ghost use Rattle.std.specs.Prelude.{◌≡◌, ◌<◌, ◌^◌, length, true, IfOk, Some};
ghost use Rattle.std.specs.List.{concat};
ghost use Rattle.vt_frac.specs.Names.{begins};
ghost use Rattle.vt_path.proofs.PathDecided.{path_of};
ghost use Rattle.vt_value.specs.Arithmetic.{are_within};
ghost use Rattle.vt_session.specs.Directives.{is_percent};
ghost use Rattle.vt_session.specs.Given.{given_of};
ghost use Rattle.vt_session.specs.private.Reading.{IsRead, bytes_of, cue_line, input_event, line_in, name_of, set_line, stop_line, told, told_at, told_cue, told_set, told_stop, told_version, values_of};

use crate::bytes::{are_bytes, name_len};
use crate::given::given_of;
use crate::lines::content;
use crate::times::time_of;
use crate::words::split_words;
use std::alloc::Global;
use vt_event::{Event, Place, ThreadId};
use vt_frac::{Frac, Name, NoMemory};
use vt_path::{InnerKind, Path, PathFault, inner, parse_path};
use vt_value::{Items, MAX_ITEMS, MAX_SIZE, Symbol, Value, sizes};

/// A directive.
#[derive(Drop)]
pub(crate) enum Directive {
    /// The session is one of version 2.
    Version,
    /// A text begins at this time.
    At(Frac),
    /// Something is given at this time.
    Input(Frac, Deed),
}

/// What is given.
#[derive(Drop)]
pub(crate) enum Deed {
    /// A cue at a path, with the ring of these values.
    Cue(Path, Items),
    /// A value is set at a path.
    Set(Path, Value),
    /// The live loop of this name is told to stop.
    Stop(Symbol),
}

/// The directive that a line is which begins with `%`, if it is one.
pub(crate) fn read_directive(alloc: Global, line: &[u8]) -> Result<Option<Directive>, NoMemory>
    requires begins { begins is_percent line.now ≡ true }
    requires short { length line.now < 2 ^ 32 }
    ensures { IfOk result (λ read. IsRead line.now (line_in read)) }
{
    let bytes = content(line);
    let (name, rest) = bytes.split_at(name_len(bytes));
    match split_words(alloc, rest)? {
        Some(words) => told(alloc, name, words.as_slice()),
        None => Ok(None),
    }
}

/// The directive of this name with these words.
#[tactic(auto, unfolding(crate::specs::private::Reading::told))]
fn told(alloc: Global, name: &[u8], words: &[&[u8]]) -> Result<Option<Directive>, NoMemory>
    requires { length (concat (bytes_of words.now)) < 2 ^ 32 }
    ensures { IfOk result (λ read. line_in read ≡ told name.now (bytes_of words.now)) }
{
    if are_bytes(name, b"%session") {
        Ok(told_version(words))
    } else if are_bytes(name, b"%at") {
        Ok(told_at(words))
    } else if are_bytes(name, b"%cue") {
        told_cue(alloc, words)
    } else if are_bytes(name, b"%set") {
        told_set(alloc, words)
    } else if are_bytes(name, b"%stop") {
        told_stop(alloc, words)
    } else {
        Ok(None)
    }
}

fn told_version(words: &[&[u8]]) -> Option<Directive>
    ensures { line_in result ≡ told_version (bytes_of words.now) }
{
    match words {
        [] => None,
        [word] => {
            if are_bytes(word, b"2") {
                Some(Directive::Version)
            } else {
                None
            }
        }
        [_, _, ..] => None,
    }
}

fn told_at(words: &[&[u8]]) -> Option<Directive>
    ensures { line_in result ≡ told_at (bytes_of words.now) }
{
    match words {
        [] => None,
        [when] => match time_of(when) {
            Some(time) => Some(Directive::At(time)),
            None => None,
        },
        [_, _, ..] => None,
    }
}

fn told_cue(alloc: Global, words: &[&[u8]]) -> Result<Option<Directive>, NoMemory>
    requires { length (concat (bytes_of words.now)) < 2 ^ 32 }
    ensures { IfOk result (λ read. line_in read ≡ told_cue (bytes_of words.now)) }
{
    match words {
        [] => Ok(None),
        [_] => Ok(None),
        [when, path, given @ ..] => match time_of(when) {
            Some(time) => cue_of(alloc, time, path, given),
            None => Ok(None),
        },
    }
}

/// A cue at this time, of a path and the values that words are.
fn cue_of(
    alloc: Global,
    time: Frac,
    path: &[u8],
    given: &[&[u8]],
) -> Result<Option<Directive>, NoMemory>
    requires { length (concat (bytes_of given.now)) < 2 ^ 32 }
    ensures { IfOk result (λ read. line_in read ≡ cue_line (Some time) (path_of path.now) (values_of (bytes_of given.now))) }
{
    let Some(path) = path_of(alloc, path)? else {
        return Ok(None);
    };
    let Some(values) = values_of(alloc, given)? else {
        return Ok(None);
    };
    if are_within(values.as_slice()) {
        Ok(Some(Directive::Input(time, Deed::Cue(path, values))))
    } else {
        Ok(None)
    }
}

fn told_set(alloc: Global, words: &[&[u8]]) -> Result<Option<Directive>, NoMemory>
    requires { length (concat (bytes_of words.now)) < 2 ^ 32 }
    ensures { IfOk result (λ read. line_in read ≡ told_set (bytes_of words.now)) }
{
    match words {
        [] => Ok(None),
        [_] => Ok(None),
        [_, _] => Ok(None),
        [when, path, given] => match time_of(when) {
            Some(time) => set_of(alloc, time, path, given),
            None => Ok(None),
        },
        [_, _, _, _, ..] => Ok(None),
    }
}

/// A set at this time, of a path and the value that a word is.
fn set_of(
    alloc: Global,
    time: Frac,
    path: &[u8],
    given: &[u8],
) -> Result<Option<Directive>, NoMemory>
    requires { length given.now < 2 ^ 32 }
    ensures { IfOk result (λ read. line_in read ≡ set_line (Some time) (path_of path.now) (given_of given.now)) }
{
    let Some(path) = path_of(alloc, path)? else {
        return Ok(None);
    };
    match given_of(alloc, given)? {
        Some(value) => Ok(Some(Directive::Input(time, Deed::Set(path, value)))),
        None => Ok(None),
    }
}

fn told_stop(alloc: Global, words: &[&[u8]]) -> Result<Option<Directive>, NoMemory>
    ensures { IfOk result (λ read. line_in read ≡ told_stop (bytes_of words.now)) }
{
    match words {
        [] => Ok(None),
        [_] => Ok(None),
        [when, name] => match time_of(when) {
            Some(time) => stop_of(alloc, time, name),
            None => Ok(None),
        },
        [_, _, _, ..] => Ok(None),
    }
}

/// A stop at this time, of the live loop whose name is written as a symbol.
fn stop_of(alloc: Global, time: Frac, name: &[u8]) -> Result<Option<Directive>, NoMemory>
    ensures { IfOk result (λ read. line_in read ≡ stop_line (Some time) (name_of name.now)) }
{
    match name_of(alloc, name)? {
        Some(name) => Ok(Some(Directive::Input(time, Deed::Stop(name)))),
        None => Ok(None),
    }
}

/// The name of a symbol that is written with its colon.
fn name_of(alloc: Global, word: &[u8]) -> Result<Option<Symbol>, NoMemory>
    ensures { IfOk result (λ name. name ≡ name_of word.now) }
{
    match word {
        [] => Ok(None),
        [first, rest @ ..] => {
            if *first == b':' {
                Ok(Symbol::new(Name::of(alloc, rest)?))
            } else {
                Ok(None)
            }
        }
    }
}

/// The path that a word is.
fn path_of(alloc: Global, word: &[u8]) -> Result<Option<Path>, NoMemory>
    ensures { IfOk result (λ path. path ≡ path_of word.now) }
{
    match parse_path(alloc, word) {
        Ok(path) => Ok(Some(path)),
        Err(PathFault::BadPath(_)) => Ok(None),
        Err(PathFault::NoMemory) => Err(NoMemory),
    }
}

/// The values that words are, if each is one.
fn values_of(alloc: Global, words: &[&[u8]]) -> Result<Option<Items>, NoMemory>
    requires { length (concat (bytes_of words.now)) < 2 ^ 32 }
    ensures { IfOk result (λ values. values ≡ values_of (bytes_of words.now)) }
{
    let mut values = Items::new(alloc);
    for word in words {
        match given_of(alloc, word)? {
            Some(value) => values.push(value)?,
            None => return Ok(None),
        }
    }
    Ok(Some(values))
}

/// Whether the ring of these values is within the limits.
fn are_within(values: &[Value]) -> bool
    ensures { result ≡ are_within values.now }
{
    values.len() <= MAX_ITEMS && sizes(values) < MAX_SIZE
}

/// The event of the input with this number, from 1.
pub(crate) fn input_event(
    alloc: Global,
    number: u32,
    time: Frac,
    deed: Deed,
) -> Result<Event, NoMemory>
    ensures { IfOk result (λ event. event ≡ input_event number time deed) }
{
    let place = Place {
        time,
        micro: 0,
        thread: ThreadId::of_inputs(alloc),
        step: number,
    };
    match deed {
        Deed::Cue(path, values) => Event::of_cue(alloc, place, path, Value::Ring(values)),
        Deed::Set(path, value) => Event::of_set(alloc, place, path, value),
        Deed::Stop(name) => Event::of_ended(
            alloc,
            place,
            inner(alloc, InnerKind::Stop, name.as_bytes())?,
        ),
    }
}
