//! What is found in each part of a tree.

ghost use Rattle.std.specs.Prelude.{◌≡◌, ◌∷◌, [], map, IfOk};
ghost use Rattle.std.specs.Option.{option_map};
ghost use Rattle.vt_tree.specs.declared.expression.Call.{out-Call};
ghost use Rattle.vt_reach.specs.Founds.{all_of, if_found};
ghost use Rattle.vt_reach.specs.TreeMentions.{arm_found, call_found, expr_seen, form_found, inside_found, link_found, node_seen, simple_found, stmt_found, uses_of};
ghost use Rattle.vt_reach.specs.private.Given.{block_of_call, found_in_expr, found_in_option};

use crate::calls::{assigns, block_key, block_mentions, call_mentions, runs_name};
use crate::found::{BlockUse, Found};
use sqlite_items::Items;
use std::alloc::Global;
use vt_frac::{Name, NoMemory};
use vt_tree::{Arm, Block, Call, Expr, Link, Node, Simple, Stmt, StmtForm};

/// The blocks of a text, itself the first.
pub(crate) fn uses_of(alloc: Global, tree: &Block) -> Result<Items<BlockUse>, NoMemory>
    ensures { IfOk result (λ uses. uses ≡ uses_of tree.now) }
{
    let inside = in_block(alloc, tree)?;
    let Found {
        mentions: _,
        blocks,
    } = Found::block(alloc, None, Items::new(alloc), inside)?;
    Ok(blocks)
}

/// Inside a block.
#[cycle(walk)]
fn in_block(alloc: Global, block: &Block) -> Result<Found, NoMemory>
    ensures { IfOk result (λ found. found ≡ inside_found block.now) }
{
    in_stmts(alloc, block.stmts.as_slice())
}

#[cycle(walk)]
fn in_stmts(alloc: Global, stmts: &[Stmt]) -> Result<Found, NoMemory>
    ensures { IfOk result (λ found. found ≡ all_of (map stmt_found stmts.now)) }
{
    let mut found = Found::nothing(alloc);
    for stmt in stmts {
        found.add(in_form(alloc, &stmt.form)?)?;
    }
    Ok(found)
}

#[cycle(walk)]
fn in_form(alloc: Global, form: &StmtForm) -> Result<Found, NoMemory>
    ensures { IfOk result (λ found. found ≡ form_found form.now) }
{
    match form {
        StmtForm::Plain(simple) => in_simple(alloc, simple),
        StmtForm::Guarded { simple, cond, .. } => {
            let mut found = in_simple(alloc, simple)?;
            found.add(in_expr(alloc, cond)?)?;
            Ok(found)
        }
    }
}

#[cycle(walk)]
fn in_simple(alloc: Global, simple: &Simple) -> Result<Found, NoMemory>
    ensures { IfOk result (λ found. found ≡ simple_found simple.now) }
{
    match simple {
        Simple::Iff { arms, other } => {
            let mut found = in_arms(alloc, arms.as_slice())?;
            match other {
                None => Ok(found),
                Some(stmts) => {
                    found.add(in_stmts(alloc, stmts.as_slice())?)?;
                    Ok(found)
                }
            }
        }
        Simple::Assign { name, op, value } => {
            let mut found = Found::only(alloc, assigns(alloc, *op, name.as_bytes())?);
            found.add(in_expr(alloc, value)?)?;
            Ok(found)
        }
        Simple::Value(value) => in_expr(alloc, value),
    }
}

#[cycle(walk)]
fn in_arms(alloc: Global, arms: &[Arm]) -> Result<Found, NoMemory>
    ensures { IfOk result (λ found. found ≡ all_of (map arm_found arms.now)) }
{
    let mut found = Found::nothing(alloc);
    for arm in arms {
        found.add(in_arm(alloc, arm)?)?;
    }
    Ok(found)
}

#[cycle(walk)]
fn in_arm(alloc: Global, arm: &Arm) -> Result<Found, NoMemory>
    ensures { IfOk result (λ found. found ≡ arm_found arm.now) }
{
    let mut found = in_expr(alloc, &arm.cond)?;
    found.add(in_stmts(alloc, arm.stmts.as_slice())?)?;
    Ok(found)
}

#[cycle(walk)]
fn in_exprs(alloc: Global, exprs: &[Expr]) -> Result<Found, NoMemory>
    ensures { IfOk result (λ found. found ≡ all_of (map found_in_expr exprs.now)) }
{
    let mut found = Found::nothing(alloc);
    for expr in exprs {
        found.add(in_expr(alloc, expr)?)?;
    }
    Ok(found)
}

#[cycle(walk)]
fn in_options(alloc: Global, options: &[(Name, Expr)]) -> Result<Found, NoMemory>
    ensures { IfOk result (λ found. found ≡ all_of (map found_in_option options.now)) }
{
    let mut found = Found::nothing(alloc);
    for option in options {
        found.add(in_expr(alloc, &option.1)?)?;
    }
    Ok(found)
}

#[cycle(walk)]
fn in_links(alloc: Global, links: &[Link]) -> Result<Found, NoMemory>
    ensures { IfOk result (λ found. found ≡ all_of (map link_found links.now)) }
{
    let mut found = Found::nothing(alloc);
    for link in links {
        found.add(in_expr(alloc, &link.part)?)?;
    }
    Ok(found)
}

#[cycle(walk)]
fn in_expr(alloc: Global, expr: &Expr) -> Result<Found, NoMemory>
    ensures { IfOk result (λ found. found ≡ found_in_expr expr.now) }
{
    in_node(alloc, &expr.node)
}

#[cycle(walk)]
fn in_node(alloc: Global, node: &Node) -> Result<Found, NoMemory>
    ensures { IfOk result (λ found. found ≡ (node_seen node.now).found) }
{
    match node {
        Node::Literal(_) => Ok(Found::nothing(alloc)),
        Node::Name(name) => Ok(Found::only(alloc, runs_name(alloc, name.as_bytes())?)),
        Node::Call(call) => in_call(alloc, call),
        Node::List(items) => in_exprs(alloc, items.as_slice()),
        Node::Index { of, at } => {
            let mut found = in_expr(alloc, of.get())?;
            found.add(in_expr(alloc, at.get())?)?;
            Ok(found)
        }
        Node::Dot { of, call } => {
            let mut found = in_expr(alloc, of.get())?;
            found.add(in_call(alloc, call)?)?;
            Ok(found)
        }
        Node::Unary { of, .. } => in_expr(alloc, of.get()),
        Node::Chain { first, rest, .. } => {
            let mut found = in_expr(alloc, first.get())?;
            found.add(in_links(alloc, rest.as_slice())?)?;
            Ok(found)
        }
    }
}

/// A call, and what stands in its arguments, its options and its block.
#[cycle(walk)]
fn in_call(alloc: Global, call: &Call) -> Result<Found, NoMemory>
    ensures { IfOk result (λ found. found ≡ call_found call.now) }
{
    let mut found = Found::only(alloc, call_mentions(alloc, call)?);
    found.add(in_exprs(alloc, call.args.as_slice())?)?;
    found.add(in_options(alloc, call.options.as_slice())?)?;
    found.add(in_block_of(alloc, call)?)?;
    Ok(found)
}

/// The block of a call, if it has one.
#[cycle(walk)]
fn in_block_of(alloc: Global, call: &Call) -> Result<Found, NoMemory>
    ensures { IfOk result (λ found. found ≡ if_found (option_map (block_of_call call.now) (out-Call call.now).block)) }
{
    match &call.block {
        None => Ok(Found::nothing(alloc)),
        Some(block) => {
            let inside = in_block(alloc, block.get())?;
            let key = block_key(alloc, call)?;
            Found::block(alloc, key, block_mentions(alloc, call)?, inside)
        }
    }
}
