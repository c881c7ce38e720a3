//! Expressions and calls.
use crate::statement::Block;
use sqlite_items::{Boxed, Items};
use vt_frac::{Frac, Name};

/// Names, one after another.
pub type Names = Items<Name>;

/// Expressions, one after another.
pub type Exprs = Items<Expr>;

/// The parts of a chain after its first.
pub type Links = Items<Link>;

/// Arguments with a label, each with it.
pub type Labelled = Items<(Name, Expr)>;

/// An expression, with the number of pairs of parentheses directly round it.
#[derive(Debug, Drop)]
#[cycle(tree)]
pub struct Expr {
    pub wraps: u32,
    pub node: Node,
}

/// An expression without the parentheses round it.
#[derive(Debug, Drop)]
#[cycle(tree)]
pub enum Node {
    Literal(Literal),
    Name(Name),
    Call(Call),
    List(Exprs),
    Index {
        of: Boxed<Expr>,
        at: Boxed<Expr>,
    },
    Dot {
        of: Boxed<Expr>,
        call: Call,
    },
    Unary {
        op: UnaryOp,
        of: Boxed<Expr>,
    },
    Chain {
        kind: ChainKind,
        first: Boxed<Expr>,
        rest: Links,
    },
}

/// A value that stands in the text itself. A `Text` has its value, a `Sym` its name.
#[derive(Debug, Drop)]
pub enum Literal {
    Nil,
    Bool(bool),
    Whole(i64),
    Decimal(Frac),
    Text(Name),
    Sym(Name),
}

/// A call: its name, what it is called with, and its block. `wrapped`: parentheses follow the name, also empty ones, or
/// it is a `get[..]`.
#[derive(Debug, Drop)]
#[cycle(tree)]
pub struct Call {
    pub name: Name,
    pub wrapped: bool,
    pub args: Exprs,
    pub options: Labelled,
    pub block: Option<Boxed<Block>>,
}

/// `-` before an operand, and `!` or `not`.
#[derive(Clone, Copy, Debug, PartialEq, Eq)]
pub enum UnaryOp {
    Minus,
    Not,
}

/// A level of operators, from the loosest to the tightest: `and` and `or`, `||`, `&&`, comparisons, `+` and `-`, and
/// `*`, `/` and `%`.
#[derive(Clone, Copy, Debug, PartialEq, Eq)]
pub enum ChainKind {
    Expr,
    Disj,
    Conj,
    Comp,
    Sum,
    Term,
}

/// A part of a chain after its first, with the operator before it.
#[derive(Debug, Drop)]
#[cycle(tree)]
pub struct Link {
    pub op: ChainOp,
    pub part: Expr,
}

/// An operator between two parts.
#[derive(Clone, Copy, Debug, PartialEq, Eq)]
pub enum ChainOp {
    And,
    Or,
    Eq,
    Ne,
    Lt,
    Le,
    Gt,
    Ge,
    Add,
    Sub,
    Mul,
    Div,
    Rem,
}
