//! Literal texts that stand for paths and patterns.

ghost use Rattle.std.specs.Prelude.{◌≡◌, ◌∷◌, [], ◌↔◌, codes, option_copied, IfOk, IsTrue};
ghost use Rattle.std.specs.Bool.{MatchBool};
ghost use Rattle.vt_path.specs.Path.{IsPathText};
ghost use Rattle.vt_path.specs.Pattern.{IsPatternText};
ghost use Rattle.vt_frac.specs.Names.{is_symbol_name};
ghost use Rattle.vt_check.specs.Written.{is_among};
ghost use Rattle.vt_check.specs.Conditions.{begins_with_slash, first_text, HasRefusedOption, HasRefusedPath, IfText, IsRefused, IsRefusedOption};
ghost use Rattle.vt_check.specs.private.Judging.{site_of};

use crate::context::Context;
use crate::written::{is_named, text_of};
use std::alloc::Global;
use vt_frac::{Name, NoMemory, is_symbol_name};
use vt_path::{PathFault, parse_path, parse_pattern};
use vt_tree::{Call, Expr};

/// A literal text that must stand for a path or a pattern is refused.
#[tactic(auto, unfolding(crate::specs::Conditions::HasRefusedPath))]
pub(crate) fn has_refused_path(
    alloc: Global,
    call: &Call,
    context: Context,
) -> Result<bool, NoMemory>
    ensures { IfOk result (λ refused. IsTrue refused ↔ HasRefusedPath (site_of context call.now)) }
{
    if sends(call, context) {
        return is_refused_path(alloc, first_text(call.args.get(0)));
    }
    if receives(call, context) {
        return is_refused_pattern(alloc, first_text(call.args.get(0)));
    }
    if is_named(call, b"live_loop") {
        return has_refused_option(alloc, b"sync", call.options.as_slice());
    }
    Ok(false)
}

/// `cue` and `set`.
fn sends(call: &Call, context: Context) -> bool
    ensures { result ≡ is_among (codes "cue" ∷ codes "set" ∷ []) (site_of context call.now) }
{
    is_named(call, b"cue") || is_named(call, b"set")
}

/// `get` and `sync`.
fn receives(call: &Call, context: Context) -> bool
    ensures { result ≡ is_among (codes "get" ∷ codes "sync" ∷ []) (site_of context call.now) }
{
    is_named(call, b"get") || is_named(call, b"sync")
}

fn first_text(first: Option<&Expr>) -> Option<&[u8]>
    ensures { option_copied result ≡ first_text (option_copied first.entry) }
{
    let expr = first?;
    text_of(expr)
}

fn has_refused_option(
    alloc: Global,
    label: &[u8],
    options: &[(Name, Expr)],
) -> Result<bool, NoMemory>
    ensures { IfOk result (λ refused. IsTrue refused ↔ HasRefusedOption IsPatternText label.now options.now) }
{
    for option in options {
        if is_refused_option(alloc, label, option)? {
            return Ok(true);
        }
    }
    Ok(false)
}

fn is_refused_option(alloc: Global, label: &[u8], option: &(Name, Expr)) -> Result<bool, NoMemory>
    ensures { IfOk result (λ refused. IsTrue refused ↔ IsRefusedOption IsPatternText label.now option.now) }
{
    if label == option.0.as_bytes() {
        is_refused_pattern(alloc, text_of(&option.1))
    } else {
        Ok(false)
    }
}

/// A text, if there is one, that stands for no path.
fn is_refused_path(alloc: Global, text: Option<&[u8]>) -> Result<bool, NoMemory>
    ensures { IfOk result (λ refused. IsTrue refused ↔ IfText (option_copied text.entry) (IsRefused IsPathText)) }
{
    match text {
        None => Ok(false),
        Some(text) => is_no_path(alloc, text),
    }
}

/// After a leading `/` the text is no path; without one it is no symbol's name.
fn is_no_path(alloc: Global, text: &[u8]) -> Result<bool, NoMemory>
    ensures { IfOk result (λ refused. IsTrue refused ↔ IsRefused IsPathText text.now) }
{
    if !begins_with_slash(text) {
        return Ok(!is_symbol_name(text));
    }
    let good = is_path(alloc, text)?;
    Ok(!good)
}

fn is_path(alloc: Global, text: &[u8]) -> Result<bool, NoMemory>
    ensures { IfOk result (λ good. MatchBool good (IsPathText text.now) (IsPathText text.now → ⊥)) }
{
    match parse_path(alloc, text) {
        Ok(_) => Ok(true),
        Err(PathFault::BadPath(_)) => Ok(false),
        Err(PathFault::NoMemory) => Err(NoMemory),
    }
}

/// A text, if there is one, that stands for no pattern.
fn is_refused_pattern(alloc: Global, text: Option<&[u8]>) -> Result<bool, NoMemory>
    ensures { IfOk result (λ refused. IsTrue refused ↔ IfText (option_copied text.entry) (IsRefused IsPatternText)) }
{
    match text {
        None => Ok(false),
        Some(text) => is_no_pattern(alloc, text),
    }
}

/// After a leading `/` the text is no pattern; without one it is no symbol's name.
fn is_no_pattern(alloc: Global, text: &[u8]) -> Result<bool, NoMemory>
    ensures { IfOk result (λ refused. IsTrue refused ↔ IsRefused IsPatternText text.now) }
{
    if !begins_with_slash(text) {
        return Ok(!is_symbol_name(text));
    }
    let good = is_pattern(alloc, text)?;
    Ok(!good)
}

fn is_pattern(alloc: Global, text: &[u8]) -> Result<bool, NoMemory>
    ensures { IfOk result (λ good. MatchBool good (IsPatternText text.now) (IsPatternText text.now → ⊥)) }
{
    match parse_pattern(alloc, text) {
        Ok(_) => Ok(true),
        Err(PathFault::BadPath(_)) => Ok(false),
        Err(PathFault::NoMemory) => Err(NoMemory),
    }
}

fn begins_with_slash(text: &[u8]) -> bool
    ensures { result ≡ begins_with_slash text.now }
{
    match text {
        [] => false,
        [first, ..] => *first == b'/',
    }
}
