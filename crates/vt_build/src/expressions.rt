//! Expressions: values with what stands before and after them, and chains of operators.
ghost use Rattle.std.specs.Prelude.{◌≡◌, ◌<◌, ◌+◌, ◌^◌, ◌++◌, ◌∷◌, [], None, codes, true, OnErr};
ghost use Rattle.vt_grammar.specs.Grammar.{all_of};
ghost use Rattle.vt_build.specs.private.Made.{Makes, Unless};
ghost use Rattle.vt_grammar.specs.Trees.{call_of, chain_tree, comparison, is_bare_get, is_get, left_after, op_of, plain, sign_of, with_part, wrapped};
ghost use Rattle.vt_tree.specs.declared.expression.Expr.{out-Expr};
ghost use Rattle.vt_tree.specs.declared.expression.Link.{roll-Link};
ghost use Rattle.vt_tree.specs.declared.expression.Node.{out-Node};
ghost use Rattle.vt_tree.specs.declared.expression.Node.TheVariants as nodes;

use crate::calls::call_of;
use crate::fault::Fault;
use sqlite_items::{Boxed, Items};
use std::alloc::Global;
use vt_grammar::{Arguments, Part, Terminal};
use vt_tree::{ChainKind, ChainOp, Expr, Exprs, Link, Links, Node, UnaryOp};

/// An expression without parentheses round it.
pub(crate) fn plain(alloc: Global, node: Node) -> Result<Boxed<Expr>, Fault>
    ensures { Makes (plain node) result }
{
    let whole = Boxed::new(alloc, Expr { wraps: 0, node })?;
    Ok(whole)
}

/// The expression with one more pair of parentheses directly round it.
pub fn wrapped(alloc: Global, inner: Boxed<Expr>) -> Result<Boxed<Expr>, Fault>
    requires { (out-Expr inner).wraps + 1 < 2 ^ 32 }
    ensures { Makes (wrapped inner) result }
{
    let Expr { wraps, node } = inner.into_inner();
    let whole = Boxed::new(
        alloc,
        Expr {
            wraps: wraps + 1,
            node,
        },
    )?;
    Ok(whole)
}

/// Adds an item.
pub fn add_item(found: &mut Exprs, item: Boxed<Expr>) -> Result<(), Fault>
    ensures added { Unless (found.new ≡ found.old ++ item ∷ []) result }
    ensures kept { OnErr result (found.new ≡ found.old) }
{
    found.push(item.into_inner())?;
    Ok(())
}

/// The items of which this is the first.
pub fn first_item(alloc: Global, item: Boxed<Expr>) -> Result<Exprs, Fault>
    ensures { Makes (item ∷ []) result }
{
    let mut found = Items::new(alloc);
    add_item(&mut found, item)?;
    Ok(found)
}

/// The list of these items, empty where there are none.
pub fn list_tree(alloc: Global, items: Option<Exprs>) -> Result<Boxed<Expr>, Fault>
    ensures { Makes (plain (nodes.List (all_of items))) result }
{
    match items {
        Some(items) => plain(alloc, Node::List(items)),
        None => plain(alloc, Node::List(Items::new(alloc))),
    }
}

fn is_get(node: &Node) -> bool
    ensures { result ≡ is_get (out-Node node.now) }
{
    match node {
        Node::Name(name) => name.as_bytes() == b"get".as_slice(),
        _ => false,
    }
}

/// Whether the expression is the name `get` alone.
#[tactic(auto, unfolding(vt_grammar::specs::Trees::is_bare_get))]
pub fn is_bare_get(value: &Boxed<Expr>) -> bool
    ensures { result ≡ is_bare_get value.now }
{
    let value = value.get();
    value.wraps == 0 && is_get(&value.node)
}

/// How many indexes and dots may follow this one.
pub fn left_after(left: u32, fresh: bool, part: &Part) -> u32
    requires { 0 < left }
    ensures { result ≡ left_after left fresh part.now }
{
    match part {
        Part::Index(_) => { if fresh { left } else { left - 1 } }
        Part::Dot(_) => left - 1,
    }
}

fn make_get(alloc: Global, at: Boxed<Expr>) -> Result<Boxed<Expr>, Fault>
    ensures { Makes (plain (nodes.Call (call_of (codes "get") true (record { args = at ∷ []; options = [] }) None))) result }
{
    let args = first_item(alloc, at)?;
    let given = Arguments {
        args,
        options: Items::new(alloc),
    };
    let call = call_of(alloc, b"get", true, given)?;
    plain(alloc, Node::Call(call))
}

/// The value with an index or a dot after it.
#[tactic(auto, unfolding(vt_grammar::specs::Trees::with_part))]
pub fn make_part(alloc: Global, value: Boxed<Expr>, part: Part) -> Result<Boxed<Expr>, Fault>
    ensures { Makes (with_part value part) result }
{
    match part {
        Part::Index(at) => {
            if is_bare_get(&value) {
                make_get(alloc, at)
            } else {
                plain(alloc, Node::Index { of: value, at })
            }
        }
        Part::Dot(call) => plain(alloc, Node::Dot { of: value, call }),
    }
}

fn sign_of(terminal: Terminal) -> UnaryOp
    ensures { result ≡ sign_of terminal }
{
    match terminal {
        Terminal::Minus | Terminal::TightMinus => UnaryOp::Minus,
        _ => UnaryOp::Not,
    }
}

/// The value with a sign, `!` or `not` before it.
pub fn make_unary(alloc: Global, terminal: Terminal, of: Boxed<Expr>) -> Result<Boxed<Expr>, Fault>
    ensures { Makes (plain (nodes.Unary (sign_of terminal) of)) result }
{
    let op = sign_of(terminal);
    plain(alloc, Node::Unary { op, of })
}

fn op_of(terminal: Terminal) -> ChainOp
    ensures { result ≡ op_of terminal }
{
    match terminal {
        Terminal::And | Terminal::Both => ChainOp::And,
        Terminal::Or | Terminal::Either => ChainOp::Or,
        Terminal::Same => ChainOp::Eq,
        Terminal::Differs => ChainOp::Ne,
        Terminal::Below => ChainOp::Lt,
        Terminal::AtMost => ChainOp::Le,
        Terminal::Above => ChainOp::Gt,
        Terminal::AtLeast => ChainOp::Ge,
        Terminal::Plus => ChainOp::Add,
        Terminal::Minus | Terminal::TightMinus => ChainOp::Sub,
        Terminal::Star => ChainOp::Mul,
        Terminal::Slash => ChainOp::Div,
        _ => ChainOp::Rem,
    }
}

/// An operator and the part after it.
pub fn make_link(terminal: Terminal, part: Boxed<Expr>) -> Link
    ensures { result ≡ roll-Link (record { op = op_of terminal; part = part }) }
{
    Link {
        op: op_of(terminal),
        part: part.into_inner(),
    }
}

/// A part alone, or the chain of it and what follows it.
pub fn make_chain(
    alloc: Global,
    kind: ChainKind,
    first: Boxed<Expr>,
    rest: Links,
) -> Result<Boxed<Expr>, Fault>
    ensures { Makes (chain_tree kind first rest) result }
{
    if rest.is_empty() {
        return Ok(first);
    }
    plain(alloc, Node::Chain { kind, first, rest })
}

/// The list of this link.
fn one_link(alloc: Global, link: Link) -> Result<Links, Fault>
    ensures { Makes (link ∷ []) result }
{
    let mut found = Items::new(alloc);
    found.push(link)?;
    Ok(found)
}

/// A part alone, or the comparison of it with another.
pub fn make_comparison(
    alloc: Global,
    first: Boxed<Expr>,
    link: Option<Link>,
) -> Result<Boxed<Expr>, Fault>
    ensures { Makes (comparison first link) result }
{
    match link {
        None => Ok(first),
        Some(link) => {
            let rest = one_link(alloc, link)?;
            plain(
                alloc,
                Node::Chain {
                    kind: ChainKind::Comp,
                    first,
                    rest,
                },
            )
        }
    }
}
