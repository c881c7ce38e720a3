//! Statements, blocks and branches.
use crate::expression::{Expr, Names};
use sqlite_items::Items;
use vt_frac::Name;

/// Statements, one after another.
pub type Stmts = Items<Stmt>;

/// The branches of an `if` or `unless` that have a condition.
pub type Arms = Items<Arm>;

/// A block of a text. The text itself is block 0; the others are numbered in the order of their first token.
#[derive(Debug, Drop)]
#[cycle(tree)]
pub struct Block {
    pub number: u32,
    pub params: Names,
    pub stmts: Stmts,
}

/// A statement, with the line of its first token.
#[derive(Debug, Drop)]
#[cycle(tree)]
pub struct Stmt {
    pub line: u32,
    pub form: StmtForm,
}

/// A statement alone, or one with `if` or `unless` and a condition after it.
#[derive(Debug, Drop)]
#[cycle(tree)]
pub enum StmtForm {
    Plain(Simple),
    Guarded {
        simple: Simple,
        unless: bool,
        cond: Expr,
    },
}

/// A statement without what may follow it.
#[derive(Debug, Drop)]
#[cycle(tree)]
pub enum Simple {
    Iff {
        arms: Arms,
        other: Option<Stmts>,
    },
    Assign {
        name: Name,
        op: AssignOp,
        value: Expr,
    },
    Value(Expr),
}

/// A branch with its condition. `unless` is false for an `elsif`.
#[derive(Debug, Drop)]
#[cycle(tree)]
pub struct Arm {
    pub unless: bool,
    pub cond: Expr,
    pub stmts: Stmts,
}

/// `=`, `+=`, `-=` and `*=`.
#[derive(Clone, Copy, Debug, PartialEq, Eq)]
pub enum AssignOp {
    Set,
    Add,
    Sub,
    Mul,
}
