//! The tree of a text: statements, expressions and the lists over them.
#![tactic(auto)]

mod expression;
mod statement;

pub use expression::{
    Call, ChainKind, ChainOp, Expr, Exprs, Labelled, Link, Links, Literal, Names, Node, UnaryOp,
};
pub use statement::{Arm, Arms, AssignOp, Block, Simple, Stmt, StmtForm, Stmts};
