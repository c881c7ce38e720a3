//! Tokens and their kinds.

/// A token: its kind, the bytes `from..to` of the text that it stands at, its line, and what stands round it.
#[derive(Clone, Copy, Debug, PartialEq, Eq)]
pub struct Token {
    pub kind: TokenKind,
    pub from: u32,
    pub to: u32,
    pub line: u32,
    /// A blank or the start of a line stands before it.
    pub gap: bool,
    /// The byte after it is neither a blank nor a newline nor the end.
    pub tight: bool,
}

/// What a token is. Its bytes tell which keyword or operator.
#[derive(Clone, Copy, Debug, PartialEq, Eq)]
pub enum TokenKind {
    Newline,
    Name,
    Label,
    Keyword,
    Reserved,
    Symbol,
    Whole,
    Decimal,
    Text,
    Operator,
}
