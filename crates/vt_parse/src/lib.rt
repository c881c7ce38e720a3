//! The parser: from tokens to the tree that the grammar reads them as, or the line where it refuses them.
#![tactic(auto)]

mod arguments;
mod expressions;
mod laws;
mod parser;
mod seen;
mod statements;
mod syntax;

ghost use Rattle.vt_parse.specs.private.Parses.{Parses};

pub use laws::lexed_law;
pub use syntax::{SyntaxFault, parse};
