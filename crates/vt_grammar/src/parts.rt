//! Parts of an expression that the tree has no types for.
use sqlite_items::Boxed;
use vt_tree::{Call, Expr, Exprs, Labelled};

/// What follows a value in an expression: an index, or a dot with its call.
#[derive(Drop)]
pub enum Part {
    Index(Boxed<Expr>),
    Dot(Call),
}

/// Arguments: those without a label, and those with one.
#[derive(Drop)]
pub struct Arguments {
    pub args: Exprs,
    pub options: Labelled,
}
