//! The grammar of a text as a relation between its tokens and a tree, and the laws of that relation.
#![tactic(auto)]

mod laws;
mod parts;
mod terminals;

pub use laws::{
    always_law, apart_law, formed_law, once_law, order_law, prefix_law, single_law, verdict_law,
    whole_law,
};
pub use parts::{Arguments, Part};
pub use terminals::Terminal;
