//! The terminal of a token.
ghost use Rattle.std.specs.Prelude.{◌≡◌, ◌<◌, ◌+◌, ◌^◌, suc, cond};
ghost use Rattle.vt_grammar.specs.Marks.{terminal_in, spaced, terminal_at, begins_block};
ghost use Rattle.vt_build.specs.private.Rows.{rows_of};
ghost use Rattle.vt_grammar.specs.private.Sets.{just};

use vt_grammar::Terminal;
use vt_lex::TokenKind;

/// A spelling and its terminal.
#[derive(Clone, Copy)]
pub(crate) struct Row {
    pub spelling: &'static [u8],
    pub terminal: Terminal,
}

/// The keywords.
pub(crate) static KEYWORDS: [Row; 12] = [
    Row {
        spelling: b"do",
        terminal: Terminal::Do,
    },
    Row {
        spelling: b"end",
        terminal: Terminal::End,
    },
    Row {
        spelling: b"if",
        terminal: Terminal::If,
    },
    Row {
        spelling: b"elsif",
        terminal: Terminal::Elsif,
    },
    Row {
        spelling: b"else",
        terminal: Terminal::Else,
    },
    Row {
        spelling: b"unless",
        terminal: Terminal::Unless,
    },
    Row {
        spelling: b"and",
        terminal: Terminal::And,
    },
    Row {
        spelling: b"or",
        terminal: Terminal::Or,
    },
    Row {
        spelling: b"not",
        terminal: Terminal::Not,
    },
    Row {
        spelling: b"nil",
        terminal: Terminal::Nil,
    },
    Row {
        spelling: b"true",
        terminal: Terminal::True,
    },
    Row {
        spelling: b"false",
        terminal: Terminal::False,
    },
];

/// The operators. Of the two terminals of `-`, `(` and `[` it has the one for a token that no blank stands before.
pub(crate) static OPERATORS: [Row; 27] = [
    Row {
        spelling: b"+",
        terminal: Terminal::Plus,
    },
    Row {
        spelling: b"-",
        terminal: Terminal::Minus,
    },
    Row {
        spelling: b"*",
        terminal: Terminal::Star,
    },
    Row {
        spelling: b"/",
        terminal: Terminal::Slash,
    },
    Row {
        spelling: b"%",
        terminal: Terminal::Percent,
    },
    Row {
        spelling: b"==",
        terminal: Terminal::Same,
    },
    Row {
        spelling: b"!=",
        terminal: Terminal::Differs,
    },
    Row {
        spelling: b"<",
        terminal: Terminal::Below,
    },
    Row {
        spelling: b"<=",
        terminal: Terminal::AtMost,
    },
    Row {
        spelling: b">",
        terminal: Terminal::Above,
    },
    Row {
        spelling: b">=",
        terminal: Terminal::AtLeast,
    },
    Row {
        spelling: b"=",
        terminal: Terminal::Set,
    },
    Row {
        spelling: b"+=",
        terminal: Terminal::SetPlus,
    },
    Row {
        spelling: b"-=",
        terminal: Terminal::SetMinus,
    },
    Row {
        spelling: b"*=",
        terminal: Terminal::SetTimes,
    },
    Row {
        spelling: b"&&",
        terminal: Terminal::Both,
    },
    Row {
        spelling: b"||",
        terminal: Terminal::Either,
    },
    Row {
        spelling: b"!",
        terminal: Terminal::Bang,
    },
    Row {
        spelling: b"(",
        terminal: Terminal::CallOpen,
    },
    Row {
        spelling: b")",
        terminal: Terminal::ParenClose,
    },
    Row {
        spelling: b"[",
        terminal: Terminal::IndexOpen,
    },
    Row {
        spelling: b"]",
        terminal: Terminal::ListClose,
    },
    Row {
        spelling: b"{",
        terminal: Terminal::BraceOpen,
    },
    Row {
        spelling: b"}",
        terminal: Terminal::BraceClose,
    },
    Row {
        spelling: b"|",
        terminal: Terminal::Bar,
    },
    Row {
        spelling: b",",
        terminal: Terminal::Comma,
    },
    Row {
        spelling: b".",
        terminal: Terminal::Dot,
    },
];

/// The terminal of the first row with this spelling.
fn terminal_in(rows: &[Row], bytes: &[u8]) -> Terminal
    ensures { result ≡ terminal_in (rows_of rows.now) bytes.now }
{
    match rows {
        [] => Terminal::Other,
        [row, rest @ ..] => {
            if row.spelling == bytes {
                row.terminal
            } else {
                terminal_in(rest, bytes)
            }
        }
    }
}

/// The terminal of an operator by what stands round it.
fn spaced(gap: bool, tight: bool, terminal: Terminal) -> Terminal
    ensures { result ≡ spaced gap tight terminal }
{
    match terminal {
        Terminal::CallOpen if gap => Terminal::ParenOpen,
        Terminal::IndexOpen if gap => Terminal::ListOpen,
        Terminal::Minus if gap && tight => Terminal::TightMinus,
        _ => terminal,
    }
}

/// The terminal of a token of this kind with these bytes.
pub fn terminal_at(kind: TokenKind, gap: bool, tight: bool, bytes: &[u8]) -> Terminal
    ensures { result ≡ terminal_at kind gap tight bytes.now }
{
    match kind {
        TokenKind::Newline => Terminal::Newline,
        TokenKind::Name => Terminal::Name,
        TokenKind::Label => Terminal::Label,
        TokenKind::Keyword => terminal_in(&KEYWORDS, bytes),
        TokenKind::Reserved => Terminal::Other,
        TokenKind::Symbol => Terminal::Symbol,
        TokenKind::Whole => Terminal::Whole,
        TokenKind::Decimal => Terminal::Decimal,
        TokenKind::Text => Terminal::Text,
        TokenKind::Operator => spaced(gap, tight, terminal_in(&OPERATORS, bytes)),
    }
}

/// How many blocks have begun with this terminal, where so many had begun before it.
pub fn number_with(number: u32, terminal: Terminal) -> u32
    requires { number + 1 < 2 ^ 32 }
    ensures { result ≡ cond (begins_block terminal) (suc number) number }
{
    match terminal {
        Terminal::Do | Terminal::BraceOpen => number + 1,
        _ => number,
    }
}

/// Whether the two are one terminal.
pub fn same(terminal: Terminal, other: Terminal) -> bool
    ensures { result ≡ just terminal other }
{
    terminal == other
}
