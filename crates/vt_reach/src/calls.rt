//! What a call, a name and an assignment mention.

ghost use Rattle.std.specs.Prelude.{◌≡◌, ◌∷◌, [], bytes_eq, codes, cond, map, option_copied, IfOk, IfSome, IsTrue, Some, None};
ghost use Rattle.std.specs.List.{flat_map};
ghost use Rattle.std.specs.Option.{option_map};
ghost use Rattle.vt_check.specs.Written.{literal_of};
ghost use Rattle.vt_frac.specs.Names.{is_symbol_name};
ghost use Rattle.vt_path.specs.Path.{IsSegment};
ghost use Rattle.vt_tree.specs.declared.expression.Call.{out-Call};
ghost use Rattle.vt_reach.specs.Mentions.{assigns, block_key, block_mentions, call_mentions, defines, if_named, loops, name_given, name_in, name_of, names_by, names_thread, runs_name, sends, sends_argument, sends_literal, writes_if};
ghost use Rattle.vt_reach.specs.private.Given.{argument_of, first_argument, labelled_argument, options_given};

use crate::mention::{Key, Mention, Mentions};
use crate::paths::{named_path, text_path, turn_path};
use sqlite_items::Items;
use std::alloc::Global;
use vt_frac::{Name, NoMemory, is_symbol_name};
use vt_path::{InnerKind, Path, inner};
use vt_table::call_of;
use vt_tree::{AssignOp, Call, Expr, Literal, Node};

/// What a call itself mentions.
#[tactic(auto, unfolding(crate::specs::Mentions::call_mentions))]
pub(crate) fn call_mentions(alloc: Global, call: &Call) -> Result<Mentions, NoMemory>
    ensures { IfOk result (λ mentions. mentions ≡ call_mentions (out-Call call.now).name (first_argument call.now)) }
{
    if is_named(call, b"cue") {
        return sends_cue(alloc, call.args.get(0));
    }
    if is_named(call, b"set") {
        return sends_set(alloc, call.args.get(0));
    }
    if is_named(call, b"define") {
        return defines(alloc, call.args.get(0));
    }
    runs_name(alloc, call.name.as_bytes())
}

/// What the block of a call mentions besides what stands in it.
#[tactic(auto, unfolding(crate::specs::Mentions::block_mentions))]
pub(crate) fn block_mentions(alloc: Global, call: &Call) -> Result<Mentions, NoMemory>
    ensures { IfOk result (λ mentions. mentions ≡ block_mentions (out-Call call.now).name (first_argument call.now) (options_given call.now)) }
{
    if is_named(call, b"live_loop") {
        return loops(alloc, call.args.get(0));
    }
    if is_named(call, b"in_thread") {
        return names_threads(alloc, call.options.as_slice());
    }
    Ok(Items::new(alloc))
}

/// The function or the live loop whose body the block of a call is.
#[tactic(auto, unfolding(crate::specs::Mentions::block_key))]
pub(crate) fn block_key(alloc: Global, call: &Call) -> Result<Option<Key>, NoMemory>
    ensures { IfOk result (λ key. key ≡ block_key (out-Call call.now).name (first_argument call.now)) }
{
    let Some(name) = name_given(call.args.get(0)) else {
        return Ok(None);
    };
    if is_named(call, b"live_loop") {
        return Ok(Some(Key::Loop(Name::of(alloc, name)?)));
    }
    if is_named(call, b"define") {
        return Ok(Some(Key::Function(Name::of(alloc, name)?)));
    }
    Ok(None)
}

/// What an assignment mentions of its name.
pub(crate) fn assigns(alloc: Global, op: AssignOp, name: &[u8]) -> Result<Mentions, NoMemory>
    ensures { IfOk result (λ mentions. mentions ≡ assigns op name.now) }
{
    match op {
        AssignOp::Set => Ok(Items::new(alloc)),
        AssignOp::Add => runs_name(alloc, name),
        AssignOp::Sub => runs_name(alloc, name),
        AssignOp::Mul => runs_name(alloc, name),
    }
}

/// A name that is called: a function, where it is in no call table.
pub(crate) fn runs_name(alloc: Global, name: &[u8]) -> Result<Mentions, NoMemory>
    ensures { IfOk result (λ mentions. mentions ≡ runs_name name.now) }
{
    match call_of(name) {
        None => one(alloc, Mention::Runs(Key::Function(Name::of(alloc, name)?))),
        Some(_) => Ok(Items::new(alloc)),
    }
}

/// The call has this name.
fn is_named(call: &Call, name: &[u8]) -> bool
    ensures { result ≡ bytes_eq name.now (out-Call call.now).name }
{
    name == call.name.as_bytes()
}

fn one(alloc: Global, mention: Mention) -> Result<Mentions, NoMemory>
    ensures { IfOk result (λ mentions. mentions ≡ mention ∷ []) }
{
    let mut mentions = Items::new(alloc);
    mentions.push(mention)?;
    Ok(mentions)
}

/// The literal that an expression is, with or without parentheses round it.
fn literal_of(expr: &Expr) -> Option<&Literal>
    ensures { option_copied result ≡ literal_of expr.now }
{
    match &expr.node {
        Node::Literal(value) => Some(value),
        _ => None,
    }
}

/// The name of the literal symbol that an expression is.
fn name_of(expr: &Expr) -> Option<&[u8]>
    ensures name { option_copied result ≡ name_of (literal_of expr.now) }
    ensures form { IfSome result (λ name. IsTrue (is_symbol_name name.now)) }
{
    let literal = literal_of(expr)?;
    name_in(literal)
}

fn name_in(literal: &Literal) -> Option<&[u8]>
    ensures name { option_copied result ≡ name_in literal.now }
    ensures form { IfSome result (λ name. IsTrue (is_symbol_name name.now)) }
{
    match literal {
        Literal::Sym(name) => checked_name(name.as_bytes()),
        _ => None,
    }
}

/// The bytes, if they have the form of a symbol's name.
fn checked_name(name: &[u8]) -> Option<&[u8]>
    ensures name { option_copied result ≡ cond (is_symbol_name name.now) (Some name.now) None }
    ensures form { IfSome result (λ name. IsTrue (is_symbol_name name.now)) }
{
    if is_symbol_name(name) {
        Some(name)
    } else {
        None
    }
}

fn name_given(first: Option<&Expr>) -> Option<&[u8]>
    ensures name { option_copied result ≡ name_given (option_map argument_of (option_copied first.entry)) }
    ensures form { IfSome result (λ name. IsTrue (is_symbol_name name.now)) }
{
    let expr = first?;
    name_of(expr)
}

fn sends_cue(alloc: Global, first: Option<&Expr>) -> Result<Mentions, NoMemory>
    ensures { IfOk result (λ mentions. mentions ≡ sends (codes "cue") (option_map argument_of (option_copied first.entry))) }
{
    sends(alloc, b"cue", first)
}

fn sends_set(alloc: Global, first: Option<&Expr>) -> Result<Mentions, NoMemory>
    ensures { IfOk result (λ mentions. mentions ≡ sends (codes "set") (option_map argument_of (option_copied first.entry))) }
{
    sends(alloc, b"set", first)
}

/// What `cue` and `set` write, by their first argument.
fn sends(alloc: Global, word: &[u8], first: Option<&Expr>) -> Result<Mentions, NoMemory>
    requires { IsSegment word.now }
    ensures { IfOk result (λ mentions. mentions ≡ sends word.now (option_map argument_of (option_copied first.entry))) }
{
    match first {
        None => Ok(Items::new(alloc)),
        Some(expr) => sends_argument(alloc, word, literal_of(expr)),
    }
}

fn sends_argument(
    alloc: Global,
    word: &[u8],
    argument: Option<&Literal>,
) -> Result<Mentions, NoMemory>
    requires { IsSegment word.now }
    ensures { IfOk result (λ mentions. mentions ≡ sends_argument word.now (option_copied argument.entry)) }
{
    match argument {
        None => one(alloc, Mention::WritesAny),
        Some(literal) => sends_literal(alloc, word, literal),
    }
}

fn sends_literal(alloc: Global, word: &[u8], literal: &Literal) -> Result<Mentions, NoMemory>
    requires { IsSegment word.now }
    ensures { IfOk result (λ mentions. mentions ≡ sends_literal word.now literal.now) }
{
    match literal {
        Literal::Sym(name) => writes_if(alloc, named_path(alloc, word, name.as_bytes())?),
        Literal::Text(text) => writes_if(alloc, text_path(alloc, word, text.as_bytes())?),
        Literal::Nil => one(alloc, Mention::WritesAny),
        Literal::Bool(_) => one(alloc, Mention::WritesAny),
        Literal::Whole(_) => one(alloc, Mention::WritesAny),
        Literal::Decimal(_) => one(alloc, Mention::WritesAny),
    }
}

fn writes_if(alloc: Global, path: Option<Path>) -> Result<Mentions, NoMemory>
    ensures { IfOk result (λ mentions. mentions ≡ writes_if path) }
{
    match path {
        None => Ok(Items::new(alloc)),
        Some(path) => one(alloc, Mention::Writes(path)),
    }
}

/// `define :f` tells the function.
fn defines(alloc: Global, first: Option<&Expr>) -> Result<Mentions, NoMemory>
    ensures { IfOk result (λ mentions. mentions ≡ if_named defines (name_given (option_map argument_of (option_copied first.entry)))) }
{
    match name_given(first) {
        None => Ok(Items::new(alloc)),
        Some(name) => one(alloc, Mention::Writes(inner(alloc, InnerKind::Def, name)?)),
    }
}

/// The block of a live loop: its cue, its body and its thread, and whatever body it has by then.
fn loops(alloc: Global, first: Option<&Expr>) -> Result<Mentions, NoMemory>
    ensures { IfOk result (λ mentions. mentions ≡ if_named loops (name_given (option_map argument_of (option_copied first.entry)))) }
{
    match name_given(first) {
        None => Ok(Items::new(alloc)),
        Some(name) => loop_mentions(alloc, name),
    }
}

fn loop_mentions(alloc: Global, name: &[u8]) -> Result<Mentions, NoMemory>
    requires { IsTrue (is_symbol_name name.now) }
    ensures { IfOk result (λ mentions. mentions ≡ loops name.now) }
{
    let cue = turn_path(alloc, name)?;
    let body = inner(alloc, InnerKind::Body, name)?;
    let thread = inner(alloc, InnerKind::Looped, name)?;
    let own = Name::of(alloc, name)?;
    let mut mentions = one(alloc, Mention::Writes(cue))?;
    mentions.push(Mention::Writes(body))?;
    mentions.push(Mention::Writes(thread))?;
    mentions.push(Mention::Runs(Key::Loop(own)))?;
    Ok(mentions)
}

/// The options of `in_thread`: a name for the thread.
fn names_threads(alloc: Global, options: &[(Name, Expr)]) -> Result<Mentions, NoMemory>
    ensures { IfOk result (λ mentions. mentions ≡ flat_map names_by (map labelled_argument options.now)) }
{
    let mut mentions = Items::new(alloc);
    for option in options {
        mentions.append(names_by(alloc, option)?)?;
    }
    Ok(mentions)
}

fn names_by(alloc: Global, option: &(Name, Expr)) -> Result<Mentions, NoMemory>
    ensures { IfOk result (λ mentions. mentions ≡ names_by (labelled_argument option.now)) }
{
    if b"name".as_slice() == option.0.as_bytes() {
        names_thread(alloc, name_of(&option.1))
    } else {
        Ok(Items::new(alloc))
    }
}

fn names_thread(alloc: Global, name: Option<&[u8]>) -> Result<Mentions, NoMemory>
    requires { IfSome name (λ bytes. IsTrue (is_symbol_name bytes.now)) }
    ensures { IfOk result (λ mentions. mentions ≡ if_named names_thread (option_copied name.entry)) }
{
    match name {
        None => Ok(Items::new(alloc)),
        Some(name) => one(
            alloc,
            Mention::Writes(inner(alloc, InnerKind::Named, name)?),
        ),
    }
}
