//! Tokens of a text.
#![tactic(auto)]

mod bytes;
mod fault;
mod laws;
mod lexeme;
mod lexer;
mod lexicon;
mod numbers;
mod texts;
mod token;

pub use fault::{LexFault, LexKind};
pub use laws::{
    always_law, apart_law, forms_law, longest_law, one_fault_law, one_list_law, places_law,
    reason_law, refused_law, skipped_law,
};
pub use lexer::lex;
pub use texts::{Measure, measure_text, text_value};
pub use token::{Token, TokenKind};
