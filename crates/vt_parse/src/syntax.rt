//! The call that parses a text, and its fault.
ghost use Rattle.std.specs.Prelude.{◌≡◌, ◌<◌, ◌^◌, IfErr, IfOk, None, length};
ghost use Rattle.vt_parse.specs.Answers.{Refused};
ghost use Rattle.vt_parse.specs.private.Ends.{end_line};
ghost use Rattle.vt_grammar.specs.Tokens.{AreTokens, spelled};
ghost use Rattle.vt_grammar.specs.Text.{Reads};
ghost use Rattle.vt_grammar.specs.Trees.{block_tree};

use crate::parser::Parser;
use std::alloc::Global;
use thiserror::Error;
use vt_build::{Fault, make_block};
use vt_lex::Token;
use vt_tree::Block;

/// The most brackets and blocks that may be open at a place.
const MOST_OPEN: u32 = 64;

/// Why a text was refused: the line of the first token with which the tokens begin no text, or of the end.
#[derive(Clone, Copy, Debug, PartialEq, Eq, Error)]
pub enum SyntaxFault {
    #[error("syntax {line}")]
    At { line: u32 },
    #[error("out of memory")]
    NoMemory,
}

/// The line of the last token, or 0.
fn last_line(tokens: &[Token]) -> u32
    ensures { result ≡ end_line tokens.now }
{
    match tokens.last() {
        None => 0,
        Some(token) => token.line,
    }
}

/// The tree of a text's tokens, or the line where they are refused.
pub fn parse(alloc: Global, text: &[u8], tokens: &[Token]) -> Result<Block, SyntaxFault>
    requires tokens { AreTokens text.now tokens.now }
    requires short { length tokens.now < 2 ^ 32 }
    ensures tree { IfOk result (λ tree. Reads (spelled text.now tokens.now) tree) }
    ensures refused { IfErr result (Refused (spelled text.now tokens.now)) }
{
    let mut parser = Parser::new(text, tokens);
    match parser.block(alloc, MOST_OPEN) {
        Ok(stmts) => match parser.line_here() {
            None => Ok(make_block(alloc, 0, None, stmts)),
            Some(line) => Err(SyntaxFault::At { line }),
        },
        Err(Fault::NoMemory) => Err(SyntaxFault::NoMemory),
        Err(Fault::Here) => match parser.line_here() {
            Some(line) => Err(SyntaxFault::At { line }),
            None => Err(SyntaxFault::At {
                line: last_line(tokens),
            }),
        },
    }
}
