//! The block of a number, by a walk over the tree.

ghost use Rattle.std.specs.Prelude.{option_copied};
ghost use Rattle.vt_tree.specs.Parts.{children, each, in_arm, in_call, in_expr, in_form, in_link, in_node, in_simple, in_stmt, whole_block};
ghost use Rattle.vt_check.specs.private.Finding.{Finds};

use vt_frac::Name;
use vt_tree::{Arm, Block, Call, Expr, Link, Node, Simple, Stmt, StmtForm};

/// The first block of this number among the block and those in it.
#[cycle(find)]
pub(crate) fn find_block(block: &Block, number: u32) -> Option<&Block>
    ensures { Finds number (whole_block children block.now) (option_copied result) }
{
    if block.number == number {
        return Some(block);
    }
    find_stmts(block.stmts.as_slice(), number)
}

#[cycle(find)]
fn find_stmts(stmts: &[Stmt], number: u32) -> Option<&Block>
    ensures { Finds number (each in_stmt stmts.now) (option_copied result) }
{
    for stmt in stmts {
        let found = find_form(&stmt.form, number);
        if found.is_some() {
            return found;
        }
    }
    None
}

#[cycle(find)]
fn find_form(form: &StmtForm, number: u32) -> Option<&Block>
    ensures { Finds number (in_form form.now) (option_copied result) }
{
    match form {
        StmtForm::Plain(simple) => find_simple(simple, number),
        StmtForm::Guarded { simple, cond, .. } => match find_simple(simple, number) {
            Some(block) => Some(block),
            None => find_expr(cond, number),
        },
    }
}

#[cycle(find)]
fn find_simple(simple: &Simple, number: u32) -> Option<&Block>
    ensures { Finds number (in_simple simple.now) (option_copied result) }
{
    match simple {
        Simple::Iff { arms, other } => match find_arms(arms.as_slice(), number) {
            Some(block) => Some(block),
            None => match other {
                Some(stmts) => find_stmts(stmts.as_slice(), number),
                None => None,
            },
        },
        Simple::Assign { value, .. } => find_expr(value, number),
        Simple::Value(value) => find_expr(value, number),
    }
}

#[cycle(find)]
fn find_arms(arms: &[Arm], number: u32) -> Option<&Block>
    ensures { Finds number (each in_arm arms.now) (option_copied result) }
{
    for arm in arms {
        let found = find_arm(arm, number);
        if found.is_some() {
            return found;
        }
    }
    None
}

#[cycle(find)]
fn find_arm(arm: &Arm, number: u32) -> Option<&Block>
    ensures { Finds number (in_arm arm.now) (option_copied result) }
{
    match find_expr(&arm.cond, number) {
        Some(block) => Some(block),
        None => find_stmts(arm.stmts.as_slice(), number),
    }
}

#[cycle(find)]
fn find_exprs(exprs: &[Expr], number: u32) -> Option<&Block>
    ensures { Finds number (each in_expr exprs.now) (option_copied result) }
{
    for expr in exprs {
        let found = find_expr(expr, number);
        if found.is_some() {
            return found;
        }
    }
    None
}

#[cycle(find)]
fn find_options(options: &[(Name, Expr)], number: u32) -> Option<&Block>
    ensures { Finds number (each (λ option. in_expr option.1) options.now) (option_copied result) }
{
    for option in options {
        let found = find_expr(&option.1, number);
        if found.is_some() {
            return found;
        }
    }
    None
}

#[cycle(find)]
fn find_links(links: &[Link], number: u32) -> Option<&Block>
    ensures { Finds number (each in_link links.now) (option_copied result) }
{
    for link in links {
        let found = find_expr(&link.part, number);
        if found.is_some() {
            return found;
        }
    }
    None
}

#[cycle(find)]
fn find_expr(expr: &Expr, number: u32) -> Option<&Block>
    ensures { Finds number (in_expr expr.now) (option_copied result) }
{
    match &expr.node {
        Node::Literal(_) => None,
        Node::Name(_) => None,
        Node::Call(call) => find_call(call, number),
        Node::List(items) => find_exprs(items.as_slice(), number),
        Node::Index { of, at } => match find_expr(of.get(), number) {
            Some(block) => Some(block),
            None => find_expr(at.get(), number),
        },
        Node::Dot { of, call } => match find_expr(of.get(), number) {
            Some(block) => Some(block),
            None => find_call(call, number),
        },
        Node::Unary { of, .. } => find_expr(of.get(), number),
        Node::Chain { first, rest, .. } => match find_expr(first.get(), number) {
            Some(block) => Some(block),
            None => find_links(rest.as_slice(), number),
        },
    }
}

#[cycle(find)]
fn find_call(call: &Call, number: u32) -> Option<&Block>
    ensures { Finds number (in_call call.now) (option_copied result) }
{
    let in_args = find_exprs(call.args.as_slice(), number);
    if in_args.is_some() {
        return in_args;
    }
    let in_options = find_options(call.options.as_slice(), number);
    if in_options.is_some() {
        return in_options;
    }
    match &call.block {
        Some(block) => find_block(block.get(), number),
        None => None,
    }
}
