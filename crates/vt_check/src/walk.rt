//! The first fault of a tree, by a walk over its parts.

ghost use Rattle.vt_tree.specs.Parts.{each, children, in_arm, in_block, in_call, in_expr, in_link, in_node, in_simple, in_form, in_stmt, if_there, site, whole_block, inside};
ghost use Rattle.vt_check.specs.private.Judging.{Judges};

use crate::context::Context;
use crate::fault::CheckFault;
use crate::first_fault::fault_of;
use std::alloc::Global;
use vt_frac::Name;
use vt_tree::{Arm, Block, Call, Expr, Link, Node, Simple, Stmt, StmtForm};

/// The calls of a block's statements.
#[cycle(walk)]
pub(crate) fn check_block(alloc: Global, block: &Block, context: Context) -> Result<(), CheckFault>
    ensures { Judges (in_block block.now context) result }
{
    check_stmts(alloc, block.stmts.as_slice(), context)
}

#[cycle(walk)]
fn check_stmts(alloc: Global, stmts: &[Stmt], context: Context) -> Result<(), CheckFault>
    ensures { Judges (each in_stmt stmts.now context) result }
{
    for stmt in stmts {
        check_stmt(alloc, stmt, context)?;
    }
    Ok(())
}

#[cycle(walk)]
fn check_stmt(alloc: Global, stmt: &Stmt, context: Context) -> Result<(), CheckFault>
    ensures { Judges (in_stmt stmt.now context) result }
{
    check_form(alloc, &stmt.form, context.at_line(stmt.line))
}

#[cycle(walk)]
fn check_form(alloc: Global, form: &StmtForm, context: Context) -> Result<(), CheckFault>
    ensures { Judges (in_form form.now context) result }
{
    match form {
        StmtForm::Plain(simple) => check_simple(alloc, simple, context),
        StmtForm::Guarded { simple, cond, .. } => {
            check_simple(alloc, simple, context)?;
            check_expr(alloc, cond, context.inside())
        }
    }
}

#[cycle(walk)]
fn check_simple(alloc: Global, simple: &Simple, context: Context) -> Result<(), CheckFault>
    ensures { Judges (in_simple simple.now context) result }
{
    match simple {
        Simple::Iff { arms, other } => {
            check_arms(alloc, arms.as_slice(), context.inside())?;
            match other {
                None => Ok(()),
                Some(stmts) => check_stmts(alloc, stmts.as_slice(), context.inside()),
            }
        }
        Simple::Assign { value, .. } => check_expr(alloc, value, context.inside()),
        Simple::Value(value) => check_expr(alloc, value, context),
    }
}

#[cycle(walk)]
fn check_arms(alloc: Global, arms: &[Arm], context: Context) -> Result<(), CheckFault>
    ensures { Judges (each in_arm arms.now context) result }
{
    for arm in arms {
        check_arm(alloc, arm, context)?;
    }
    Ok(())
}

#[cycle(walk)]
fn check_arm(alloc: Global, arm: &Arm, context: Context) -> Result<(), CheckFault>
    ensures { Judges (in_arm arm.now context) result }
{
    check_expr(alloc, &arm.cond, context)?;
    check_stmts(alloc, arm.stmts.as_slice(), context)
}

#[cycle(walk)]
fn check_exprs(alloc: Global, exprs: &[Expr], context: Context) -> Result<(), CheckFault>
    ensures { Judges (each in_expr exprs.now context) result }
{
    for expr in exprs {
        check_expr(alloc, expr, context)?;
    }
    Ok(())
}

#[cycle(walk)]
fn check_options(
    alloc: Global,
    options: &[(Name, Expr)],
    context: Context,
) -> Result<(), CheckFault>
    ensures { Judges (each (λ option. in_expr option.1) options.now context) result }
{
    for option in options {
        check_expr(alloc, &option.1, context)?;
    }
    Ok(())
}

#[cycle(walk)]
fn check_links(alloc: Global, links: &[Link], context: Context) -> Result<(), CheckFault>
    ensures { Judges (each in_link links.now context) result }
{
    for link in links {
        check_expr(alloc, &link.part, context)?;
    }
    Ok(())
}

#[cycle(walk)]
fn check_expr(alloc: Global, expr: &Expr, context: Context) -> Result<(), CheckFault>
    ensures { Judges (in_expr expr.now context) result }
{
    check_node(alloc, &expr.node, context)
}

#[cycle(walk)]
fn check_node(alloc: Global, node: &Node, context: Context) -> Result<(), CheckFault>
    ensures { Judges (in_node node.now context) result }
{
    match node {
        Node::Literal(_) => Ok(()),
        Node::Name(_) => Ok(()),
        Node::Call(call) => check_call(alloc, call, context),
        Node::List(items) => check_exprs(alloc, items.as_slice(), context.inside()),
        Node::Index { of, at } => {
            check_expr(alloc, of.get(), context.inside())?;
            check_expr(alloc, at.get(), context.inside())
        }
        Node::Dot { of, call } => {
            check_expr(alloc, of.get(), context.inside())?;
            check_call(alloc, call, context.after_dot())
        }
        Node::Unary { of, .. } => check_expr(alloc, of.get(), context.inside()),
        Node::Chain { first, rest, .. } => {
            check_expr(alloc, first.get(), context.inside())?;
            check_links(alloc, rest.as_slice(), context.inside())
        }
    }
}

/// A call, and then the calls in it.
#[cycle(walk)]
fn check_call(alloc: Global, call: &Call, context: Context) -> Result<(), CheckFault>
    ensures { Judges (site children call.now context) result }
{
    let found = fault_of(alloc, call, context)?;
    match found {
        Some(kind) => Err(CheckFault::At {
            line: context.line,
            kind,
        }),
        None => check_inside(alloc, call, context),
    }
}

/// The calls in a call: in its arguments, its options and its block.
#[cycle(walk)]
fn check_inside(alloc: Global, call: &Call, context: Context) -> Result<(), CheckFault>
    ensures { Judges (in_call call.now context) result }
{
    check_exprs(alloc, call.args.as_slice(), context.inside())?;
    check_options(alloc, call.options.as_slice(), context.inside())?;
    match &call.block {
        None => Ok(()),
        Some(block) => check_block(alloc, block.get(), context.inside()),
    }
}
