//! The paths that literals stand for.

ghost use Rattle.std.specs.Prelude.{◌≡◌, ◌∷◌, ◌++◌, [], IfOk, IsTrue, codes};
ghost use Rattle.vt_check.specs.Conditions.{begins_with_slash};
ghost use Rattle.vt_frac.specs.Names.{is_symbol_name};
ghost use Rattle.vt_path.proofs.PathDecided.{path_of};
ghost use Rattle.vt_path.specs.Path.{IsSegment};
ghost use Rattle.vt_reach.specs.Mentions.{named_path, text_path};

use std::alloc::Global;
use vt_frac::{NoMemory, is_symbol_name};
use vt_path::{Path, PathFault, parse_path};

/// The path that a literal text stands for: with a leading `/` the one that it is, and else that of a name under the word.
pub(crate) fn text_path(alloc: Global, word: &[u8], text: &[u8]) -> Result<Option<Path>, NoMemory>
    requires { IsSegment word.now }
    ensures { IfOk result (λ path. path ≡ text_path word.now text.now) }
{
    if begins_with_slash(text) {
        written_path(alloc, text)
    } else {
        named_path(alloc, word, text)
    }
}

/// The path of a name under the word.
pub(crate) fn named_path(alloc: Global, word: &[u8], name: &[u8]) -> Result<Option<Path>, NoMemory>
    requires { IsSegment word.now }
    ensures { IfOk result (λ path. path ≡ named_path word.now name.now) }
{
    if !is_symbol_name(name) {
        return Ok(None);
    }
    let path = path_under(alloc, word, name)?;
    Ok(Some(path))
}

/// The path of the cue with which each turn of a live loop begins.
pub(crate) fn turn_path(alloc: Global, name: &[u8]) -> Result<Path, NoMemory>
    requires { IsTrue (is_symbol_name name.now) }
    ensures { IfOk result (λ path. path ≡ codes "live_loop" ∷ name.now ∷ []) }
{
    path_under(alloc, b"live_loop", name)
}

fn path_under(alloc: Global, word: &[u8], name: &[u8]) -> Result<Path, NoMemory>
    requires word { IsSegment word.now }
    requires name { IsTrue (is_symbol_name name.now) }
    ensures { IfOk result (λ path. path ≡ word.now ∷ name.now ∷ []) }
{
    let text = text_under(alloc, word, name)?;
    match parse_path(alloc, text.as_slice()) {
        Ok(path) => Ok(path),
        Err(PathFault::BadPath(_)) => unreachable!(),
        Err(PathFault::NoMemory) => Err(NoMemory),
    }
}

/// How that path is written.
fn text_under(alloc: Global, word: &[u8], name: &[u8]) -> Result<Vec<u8>, NoMemory>
    ensures { IfOk result (λ text. text.items ≡ 47 ∷ (word.now ++ 47 ∷ name.now)) }
{
    let mut text = Vec::from_slice(alloc, b"/")?;
    text.extend_from_slice(word)?;
    text.push(b'/')?;
    text.extend_from_slice(name)?;
    Ok(text)
}

/// The path that the bytes are, if they are one.
fn written_path(alloc: Global, bytes: &[u8]) -> Result<Option<Path>, NoMemory>
    ensures { IfOk result (λ path. path ≡ path_of bytes.now) }
{
    match parse_path(alloc, bytes) {
        Ok(path) => Ok(Some(path)),
        Err(PathFault::BadPath(_)) => Ok(None),
        Err(PathFault::NoMemory) => Err(NoMemory),
    }
}

fn begins_with_slash(text: &[u8]) -> bool
    ensures { result ≡ begins_with_slash text.now }
{
    match text {
        [] => false,
        [first, ..] => *first == b'/',
    }
}
