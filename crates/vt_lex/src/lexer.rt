//! The tokens of a text, lexeme by lexeme.
ghost use Rattle.std.specs.Prelude.{◌≡◌, ◌+◌, ◌<◌, ◌≤◌, ◌^◌, ◌++◌, length, slice_index, vec_len, OnOk, IfOk, IfErr, [], ◌-◌};
ghost use Rattle.vt_lex.specs.Lexing.{innermost, partner, is_opening, brackets_after, is_dropped, kept_kind, token_of, line_after};
ghost use Rattle.vt_lex.specs.Lexing.{Lexes};
ghost use Rattle.vt_lex.specs.Answers.{Faults};

use crate::bytes::{byte_or, is_space};
use crate::fault::LexFault;
use crate::lexeme::{Lexeme, Sort, lexeme_at};
use crate::lexicon::is_joining;
use crate::token::{Token, TokenKind};
use std::alloc::{AllocError, Global};

/// The innermost open bracket, or 0.
fn innermost(open_brackets: &[u8]) -> u8
    ensures { result ≡ innermost open_brackets.now }
{
    match open_brackets.last() {
        Some(bracket) => *bracket,
        None => 0,
    }
}

/// The bracket that this closing one fits, or 0.
fn partner(byte: u8) -> u8
    ensures { result ≡ partner byte }
{
    if byte == b')' {
        b'('
    } else if byte == b']' {
        b'['
    } else if byte == b'}' {
        b'{'
    } else {
        0
    }
}

fn is_opening(byte: u8) -> bool
    ensures { result ≡ is_opening byte }
{
    byte == b'(' || byte == b'[' || byte == b'{'
}

/// Opens or closes a bracket, where a lexeme that begins with this byte does.
fn turn_bracket(open_brackets: &mut Vec<u8>, byte: u8) -> Result<(), AllocError>
    ensures { OnOk result (open_brackets.new.items ≡ brackets_after open_brackets.old.items byte) }
{
    if is_opening(byte) {
        open_brackets.push(byte)?;
    } else if partner(byte) != 0 && innermost(open_brackets) == partner(byte) {
        open_brackets.pop();
    }
    Ok(())
}

/// Where one stands in a text, and the tokens so far.
#[derive(Drop)]
struct Lexer {
    at: usize,
    line: u32,
    /// The byte before, or a newline.
    before: u8,
    open_brackets: Vec<u8>,
    /// The last token is one after which a line goes on.
    goes_on: bool,
    tokens: Vec<Token>,
}

impl Lexer {
    ghost use Rattle.vt_lex.specs.Lexing.{opening, after, kept};
    ghost use Rattle.vt_lex.specs.private.Stands.{standing_of};

    fn new(alloc: Global, first_line: u32) -> Lexer
        ensures stands { standing_of result ≡ opening first_line }
        ensures none { result.tokens.items ≡ [] }
    {
        Lexer {
            at: 0,
            line: first_line,
            before: b'\n',
            open_brackets: Vec::new(alloc),
            goes_on: false,
            tokens: Vec::new(alloc),
        }
    }

    /// Whether no token is made of a newline here.
    fn is_dropped(&self) -> bool
        ensures { result ≡ is_dropped self.now.open_brackets.items self.now.goes_on }
    {
        let bracket = innermost(self.open_brackets.as_slice());
        bracket == b'(' || bracket == b'[' || self.goes_on
    }

    /// The kind of the token that a lexeme makes, if it makes one.
    fn kept_kind(&self, sort: Sort) -> Option<TokenKind>
        ensures { result ≡ kept_kind (standing_of self.now) sort }
    {
        match sort {
            Sort::Blank => None,
            Sort::Comment => None,
            Sort::Line => {
                if self.is_dropped() {
                    None
                } else {
                    Some(TokenKind::Newline)
                }
            }
            Sort::Token(kind) => Some(kind),
        }
    }

    /// The token of this kind and length at the head of the bytes.
    fn token_here(&self, kind: TokenKind, len: usize, bytes: &[u8]) -> Token
        requires fits { self.now.at + len < 2 ^ 32 }
        ensures { result ≡ token_of (standing_of self.now) bytes.now len kind }
    {
        Token {
            kind,
            from: self.at as u32,
            to: (self.at + len) as u32,
            line: self.line,
            gap: is_space(self.before),
            tight: !is_space(byte_or(bytes, len, b'\n')),
        }
    }

    /// Passes the lexeme at the head of the bytes, and keeps its token.
    fn pass(&mut self, lexeme: Lexeme, bytes: &[u8]) -> Result<(), AllocError>
        requires some { 0 < lexeme.len }
        requires within { lexeme.len ≤ length bytes.now }
        requires at_fits { self.old.at + lexeme.len < 2 ^ 32 }
        requires line_fits { self.old.line + 1 < 2 ^ 32 }
        ensures stands { OnOk result (standing_of self.new ≡ after (standing_of self.old) lexeme bytes.now) }
        ensures tokens { OnOk result (self.new.tokens.items ≡ self.old.tokens.items ++ kept (standing_of self.old) lexeme bytes.now) }
    {
        if let Some(kind) = self.kept_kind(lexeme.sort) {
            let token = self.token_here(kind, lexeme.len, bytes);
            self.tokens.push(token)?;
            self.goes_on = is_joining(&bytes[..lexeme.len]);
        }
        turn_bracket(&mut self.open_brackets, bytes[0])?;
        if let Sort::Line = lexeme.sort {
            self.line += 1;
        }
        self.at += lexeme.len;
        self.before = bytes[lexeme.len - 1];
        Ok(())
    }
}

/// The tokens of a text of at most 1,048,576 bytes whose first line has this number, or its first fault.
pub fn lex(alloc: Global, text: &[u8], first_line: u32) -> Result<Vec<Token>, LexFault>
    requires short { length text.now ≤ 1048576 }
    requires first { 1 ≤ first_line }
    requires last { first_line ≤ 1048577 }
    ensures tokens { IfOk result (λ tokens. Lexes text.now first_line tokens.items) }
    ensures fault { IfErr result (Faults text.now first_line) }
{
    let mut lexer = Lexer::new(alloc, first_line);
    'lexemes: while lexer.at < text.len() {
        let bytes = &text[lexer.at..];
        match lexeme_at(bytes) {
            Err(kind) => {
                let line = lexer.line;
                return Err(LexFault::At { line, kind });
            }
            Ok(lexeme) => lexer.pass(lexeme, bytes)?,
        }
    }
    let Lexer { tokens, .. } = lexer;
    Ok(tokens)
}
