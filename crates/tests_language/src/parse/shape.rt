//! A tree as one short text.
//!
//! `{1 | a b | 2:x 3:y}` is block 1: its number, its parameters where it has some, and its statements, each behind its
//! line. A statement is `(= x 1)`, `(Iff (if c 2:x) (if d 3:y) (else 4:z))`, an expression, or `(x if c)` with a condition
//! after it. Of the expressions `<x>` has a pair of parentheses round it. A name is `x`, a literal `nil`, `1`, `1/2` (a
//! decimal), `"a"` or `:a`, a call `(f 1 a: 2 {1})`, with parentheses `(f() 1)`, a list `[ 1 2]`, an index `(@ x 1)`, a dot
//! `(. x (f))`, a sign `(- x)`, a chain `(Sum a + b - c)`.
use std::alloc::AllocError;
use std::fmt::Write;
use vt_frac::Name;
use vt_tree::{
    Arm, AssignOp, Block, Call, ChainOp, Expr, Link, Literal, Node, Simple, Stmt, StmtForm, UnaryOp,
};

fn add_name(text: &mut String, name: &Name) -> Result<(), AllocError> {
    text.push_str(std::str::from_utf8(name.as_bytes()).unwrap_or("?"))
}

fn add_literal(text: &mut String, literal: &Literal) -> Result<(), AllocError> {
    match literal {
        Literal::Nil => text.push_str("nil"),
        Literal::Bool(value) => write!(text, "{value}"),
        Literal::Whole(value) => write!(text, "{value}"),
        Literal::Decimal(value) => write!(text, "{}/{}", value.numer(), value.denom()),
        Literal::Text(value) => {
            text.push_str("\"")?;
            add_name(text, value)?;
            text.push_str("\"")
        }
        Literal::Sym(name) => {
            text.push_str(":")?;
            add_name(text, name)
        }
    }
}

fn op_text(op: ChainOp) -> &'static str {
    match op {
        ChainOp::And => " and ",
        ChainOp::Or => " or ",
        ChainOp::Eq => " == ",
        ChainOp::Ne => " != ",
        ChainOp::Lt => " < ",
        ChainOp::Le => " <= ",
        ChainOp::Gt => " > ",
        ChainOp::Ge => " >= ",
        ChainOp::Add => " + ",
        ChainOp::Sub => " - ",
        ChainOp::Mul => " * ",
        ChainOp::Div => " / ",
        ChainOp::Rem => " % ",
    }
}

fn assign_text(op: AssignOp) -> &'static str {
    match op {
        AssignOp::Set => "(= ",
        AssignOp::Add => "(+= ",
        AssignOp::Sub => "(-= ",
        AssignOp::Mul => "(*= ",
    }
}

fn sign_text(op: UnaryOp) -> &'static str {
    match op {
        UnaryOp::Minus => "(- ",
        UnaryOp::Not => "(! ",
    }
}

fn condition_text(unless: bool) -> &'static str {
    if unless { "unless " } else { "if " }
}

/// The mark, so many times.
fn add_many(text: &mut String, mark: &str, count: u32) -> Result<(), AllocError> {
    for _ in 0..count {
        text.push_str(mark)?;
    }
    Ok(())
}

fn add_params(text: &mut String, params: &[Name]) -> Result<(), AllocError> {
    if params.is_empty() {
        return Ok(());
    }
    text.push_str(" |")?;
    for name in params {
        text.push_str(" ")?;
        add_name(text, name)?;
    }
    text.push_str(" |")
}

#[cycle(shape)]
pub(super) fn add_block(text: &mut String, block: &Block) -> Result<(), AllocError> {
    write!(text, "{{{}", block.number)?;
    add_params(text, block.params.as_slice())?;
    add_stmts(text, block.stmts.as_slice())?;
    text.push_str("}")
}

#[cycle(shape)]
fn add_stmts(text: &mut String, stmts: &[Stmt]) -> Result<(), AllocError> {
    for stmt in stmts {
        write!(text, " {}:", stmt.line)?;
        add_form(text, &stmt.form)?;
    }
    Ok(())
}

#[cycle(shape)]
fn add_form(text: &mut String, form: &StmtForm) -> Result<(), AllocError> {
    match form {
        StmtForm::Plain(simple) => add_simple(text, simple),
        StmtForm::Guarded {
            simple,
            unless,
            cond,
        } => {
            text.push_str("(")?;
            add_simple(text, simple)?;
            text.push_str(" ")?;
            text.push_str(condition_text(*unless))?;
            add_expr(text, cond)?;
            text.push_str(")")
        }
    }
}

#[cycle(shape)]
fn add_simple(text: &mut String, simple: &Simple) -> Result<(), AllocError> {
    match simple {
        Simple::Iff { arms, other } => {
            text.push_str("(Iff")?;
            add_arms(text, arms.as_slice())?;
            if let Some(stmts) = other {
                text.push_str(" (else")?;
                add_stmts(text, stmts.as_slice())?;
                text.push_str(")")?;
            }
            text.push_str(")")
        }
        Simple::Assign { name, op, value } => {
            text.push_str(assign_text(*op))?;
            add_name(text, name)?;
            text.push_str(" ")?;
            add_expr(text, value)?;
            text.push_str(")")
        }
        Simple::Value(value) => add_expr(text, value),
    }
}

#[cycle(shape)]
fn add_arms(text: &mut String, arms: &[Arm]) -> Result<(), AllocError> {
    for arm in arms {
        text.push_str(" (")?;
        text.push_str(condition_text(arm.unless))?;
        add_expr(text, &arm.cond)?;
        add_stmts(text, arm.stmts.as_slice())?;
        text.push_str(")")?;
    }
    Ok(())
}

#[cycle(shape)]
fn add_exprs(text: &mut String, exprs: &[Expr]) -> Result<(), AllocError> {
    for expr in exprs {
        text.push_str(" ")?;
        add_expr(text, expr)?;
    }
    Ok(())
}

#[cycle(shape)]
fn add_options(text: &mut String, options: &[(Name, Expr)]) -> Result<(), AllocError> {
    for option in options {
        text.push_str(" ")?;
        add_name(text, &option.0)?;
        text.push_str(": ")?;
        add_expr(text, &option.1)?;
    }
    Ok(())
}

#[cycle(shape)]
fn add_links(text: &mut String, links: &[Link]) -> Result<(), AllocError> {
    for link in links {
        text.push_str(op_text(link.op))?;
        add_expr(text, &link.part)?;
    }
    Ok(())
}

#[cycle(shape)]
fn add_expr(text: &mut String, expr: &Expr) -> Result<(), AllocError> {
    add_many(text, "<", expr.wraps)?;
    add_node(text, &expr.node)?;
    add_many(text, ">", expr.wraps)
}

#[cycle(shape)]
fn add_node(text: &mut String, node: &Node) -> Result<(), AllocError> {
    match node {
        Node::Literal(literal) => return add_literal(text, literal),
        Node::Name(name) => return add_name(text, name),
        Node::Call(call) => return add_call(text, call),
        Node::List(items) => {
            text.push_str("[")?;
            add_exprs(text, items.as_slice())?;
            return text.push_str("]");
        }
        Node::Index { of, at } => {
            text.push_str("(@ ")?;
            add_expr(text, of.get())?;
            text.push_str(" ")?;
            add_expr(text, at.get())?;
        }
        Node::Dot { of, call } => {
            text.push_str("(. ")?;
            add_expr(text, of.get())?;
            text.push_str(" ")?;
            add_call(text, call)?;
        }
        Node::Unary { op, of } => {
            text.push_str(sign_text(*op))?;
            add_expr(text, of.get())?;
        }
        Node::Chain { kind, first, rest } => {
            write!(text, "({kind:?} ")?;
            add_expr(text, first.get())?;
            add_links(text, rest.as_slice())?;
        }
    }
    text.push_str(")")
}

#[cycle(shape)]
fn add_call(text: &mut String, call: &Call) -> Result<(), AllocError> {
    text.push_str("(")?;
    add_name(text, &call.name)?;
    if call.wrapped {
        text.push_str("()")?;
    }
    add_exprs(text, call.args.as_slice())?;
    add_options(text, call.options.as_slice())?;
    if let Some(block) = &call.block {
        text.push_str(" ")?;
        add_block(text, block.get())?;
    }
    text.push_str(")")
}
