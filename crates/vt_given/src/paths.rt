//! Paths and patterns by the values that stand for them.

ghost use Rattle.std.specs.Prelude.{◌≡◌, ◌∷◌, ◌++◌, [], ok_or, IfOk, IsTrue};
ghost use Rattle.vt_ring.specs.Answers.{MayGive};
ghost use Rattle.vt_check.specs.Conditions.{begins_with_slash};
ghost use Rattle.vt_frac.specs.Names.{is_symbol_name};
ghost use Rattle.vt_path.proofs.PathDecided.{path_of};
ghost use Rattle.vt_path.proofs.PatternDecided.{pattern_of};
ghost use Rattle.vt_path.specs.Path.{IsSegment, path_text};
ghost use Rattle.vt_run.specs.calls.Arguments.{path_text_of, pattern_text_of};
ghost use Rattle.vt_given.specs.Reading.{read_path, read_pattern};

use std::alloc::Global;
use vt_frac::{NoMemory, is_symbol_name};
use vt_path::{Path, PathFault, Pattern, any_of, parse_path, parse_pattern};
use vt_value::{FaultKind, Value, ValueFault};

/// The path that an argument of `cue` or `set` stands for. Want of memory may come in place of `BadPath` too.
#[tactic(auto, unfolding(vt_run::specs::calls::Arguments::path_argument))]
pub fn path_argument(alloc: Global, word: &[u8], value: &Value) -> Result<Path, ValueFault>
    requires { IsSegment word.now }
    ensures { MayGive (read_path word.now value.now) result }
{
    match value {
        Value::Sym(name) => Ok(named_path(alloc, word, name.as_bytes())?),
        Value::Text(bytes) => path_of_text(alloc, word, bytes.as_bytes()),
        Value::Nil => Err(ValueFault::Fault(FaultKind::WrongKind)),
        Value::Bool(_) => Err(ValueFault::Fault(FaultKind::WrongKind)),
        Value::Whole(_) => Err(ValueFault::Fault(FaultKind::WrongKind)),
        Value::Part(_) => Err(ValueFault::Fault(FaultKind::WrongKind)),
        Value::Ring(_) => Err(ValueFault::Fault(FaultKind::WrongKind)),
    }
}

/// The path that a text stands for: with a leading `/` the path that it is, and else the name of one under this word.
fn path_of_text(alloc: Global, word: &[u8], bytes: &[u8]) -> Result<Path, ValueFault>
    requires { IsSegment word.now }
    ensures { MayGive (path_text_of word.now bytes.now) result }
{
    if begins_with_slash(bytes) {
        return written_path(alloc, bytes);
    }
    if !is_symbol_name(bytes) {
        return Err(ValueFault::Fault(FaultKind::BadPath));
    }
    Ok(named_path(alloc, word, bytes)?)
}

/// The path that the bytes are.
fn written_path(alloc: Global, bytes: &[u8]) -> Result<Path, ValueFault>
    ensures { MayGive (ok_or (path_of bytes.now) FaultKind.BadPath) result }
{
    match parse_path(alloc, bytes) {
        Ok(path) => Ok(path),
        Err(PathFault::BadPath(_)) => Err(ValueFault::Fault(FaultKind::BadPath)),
        Err(PathFault::NoMemory) => Err(ValueFault::NoMemory),
    }
}

/// The path of a name under a word.
pub fn named_path(alloc: Global, word: &[u8], name: &[u8]) -> Result<Path, NoMemory>
    requires word { IsSegment word.now }
    requires name { IsTrue (is_symbol_name name.now) }
    ensures { IfOk result (λ path. path ≡ word.now ∷ name.now ∷ []) }
{
    let text = named_text(alloc, word, name)?;
    match parse_path(alloc, text.as_slice()) {
        Ok(path) => Ok(path),
        Err(PathFault::BadPath(_)) => unreachable!(),
        Err(PathFault::NoMemory) => Err(NoMemory),
    }
}

/// How that path is written.
fn named_text(alloc: Global, word: &[u8], name: &[u8]) -> Result<Vec<u8>, NoMemory>
    ensures { IfOk result (λ text. text.items ≡ 47 ∷ (word.now ++ 47 ∷ name.now)) }
{
    let mut text = Vec::from_slice(alloc, b"/")?;
    text.extend_from_slice(word)?;
    text.push(b'/')?;
    text.extend_from_slice(name)?;
    Ok(text)
}

/// The pattern that an argument of `get` or `sync` stands for. Want of memory may come in place of `BadPath` too.
#[tactic(auto, unfolding(vt_run::specs::calls::Arguments::pattern_argument))]
pub fn pattern_argument(alloc: Global, value: &Value) -> Result<Pattern, ValueFault>
    ensures { MayGive (read_pattern value.now) result }
{
    match value {
        Value::Sym(name) => Ok(any_of(alloc, name.as_bytes())?),
        Value::Text(bytes) => pattern_of_text(alloc, bytes.as_bytes()),
        Value::Nil => Err(ValueFault::Fault(FaultKind::WrongKind)),
        Value::Bool(_) => Err(ValueFault::Fault(FaultKind::WrongKind)),
        Value::Whole(_) => Err(ValueFault::Fault(FaultKind::WrongKind)),
        Value::Part(_) => Err(ValueFault::Fault(FaultKind::WrongKind)),
        Value::Ring(_) => Err(ValueFault::Fault(FaultKind::WrongKind)),
    }
}

/// The pattern that a text stands for: with a leading `/` the pattern that it is, and else a name.
fn pattern_of_text(alloc: Global, bytes: &[u8]) -> Result<Pattern, ValueFault>
    ensures { MayGive (pattern_text_of bytes.now) result }
{
    if begins_with_slash(bytes) {
        return written_pattern(alloc, bytes);
    }
    if !is_symbol_name(bytes) {
        return Err(ValueFault::Fault(FaultKind::BadPath));
    }
    Ok(any_of(alloc, bytes)?)
}

/// The pattern that the bytes are.
fn written_pattern(alloc: Global, bytes: &[u8]) -> Result<Pattern, ValueFault>
    ensures { MayGive (ok_or (pattern_of bytes.now) FaultKind.BadPath) result }
{
    match parse_pattern(alloc, bytes) {
        Ok(pattern) => Ok(pattern),
        Err(PathFault::BadPath(_)) => Err(ValueFault::Fault(FaultKind::BadPath)),
        Err(PathFault::NoMemory) => Err(ValueFault::NoMemory),
    }
}

fn begins_with_slash(text: &[u8]) -> bool
    ensures { result ≡ begins_with_slash text.now }
{
    match text {
        [] => false,
        [first, ..] => *first == b'/',
    }
}
