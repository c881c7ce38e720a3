//! The terminals of tokens, and the parts of a tree that a parser makes of them, as the grammar says.
#![tactic(auto)]

mod calls;
mod classes;
mod expressions;
mod fault;
mod literals;
mod names;
mod statements;
mod terminals;

pub use calls::{
    Argument, add_argument, arguments_of, first_argument, has_label, labels_begun, make_argument,
    make_command, make_dot, make_named,
};
pub use classes::{Class, is_of, leads, starts_arg, starts_expr, starts_stmt};
pub use expressions::{
    add_item, first_item, is_bare_get, left_after, list_tree, make_chain, make_comparison,
    make_link, make_part, make_unary, wrapped,
};
pub use fault::Fault;
pub use literals::make_literal;
pub use names::{first_name, name_of};
pub use statements::{
    add_present, first_arm, first_stmts, is_unless, make_arm, make_assign, make_block, make_iff,
    make_stmt, make_value, make_with_block, takes_block,
};
pub use terminals::{number_with, same, terminal_at};
