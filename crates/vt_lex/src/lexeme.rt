//! The longest lexeme at the head of the bytes.
ghost use Rattle.std.specs.Prelude.{◌≡◌, ◌<◌, length, slice_index};
ghost use Rattle.std.specs.Prelude.{◌^◌};
ghost use Rattle.std.specs.Str.Parse.{AllDigits};
ghost use Rattle.vt_lex.specs.declared.lexeme.Sort.TheVariants as Sort;
ghost use Rattle.vt_lex.specs.Lexemes.{lexeme_of, lexeme, named, ends_label, word_of, word_lexeme, symbol_lexeme, whole_of, decimal_of, number_lexeme, text_lexeme, operator_lexeme, comment_lexeme};

use crate::bytes::{begins_name, begins_symbol, byte_or, digits_len, is_blank, line_len, name_len};
use crate::fault::LexKind;
use crate::lexicon::{is_keyword, is_reserved, operator_len};
use crate::numbers::{decimal_fits, whole_fits};
use crate::texts::measure_text;
use crate::token::TokenKind;

/// What sort of lexeme stands in a text.
#[derive(Clone, Copy)]
pub(crate) enum Sort {
    Blank,
    Comment,
    /// A newline byte.
    Line,
    Token(TokenKind),
}

/// A lexeme of a text.
#[derive(Clone, Copy)]
pub(crate) struct Lexeme {
    pub(crate) sort: Sort,
    pub(crate) len: usize,
}

const MAX_NAME: usize = 64;

const MAX_TEXT: usize = 4096;

fn token(kind: TokenKind, len: usize) -> Result<Lexeme, LexKind>
    ensures { result ≡ lexeme (Sort.Token kind) len }
{
    Ok(Lexeme {
        sort: Sort::Token(kind),
        len,
    })
}

fn named(kind: TokenKind, name_len: usize, len: usize) -> Result<Lexeme, LexKind>
    ensures { result ≡ named kind name_len len }
{
    if name_len <= MAX_NAME {
        token(kind, len)
    } else {
        Err(LexKind::Long)
    }
}

/// Whether a colon stands here that is not followed by another.
fn ends_label(bytes: &[u8]) -> bool
    ensures { result ≡ ends_label bytes.now }
{
    byte_or(bytes, 0, 0) == b':' && byte_or(bytes, 1, 0) != b':'
}

/// The word at the head: a label, a keyword, a reserved word or a name.
#[tactic(auto, unfolding(crate::specs::Lexemes::word_lexeme))]
fn word_at(bytes: &[u8]) -> Result<Lexeme, LexKind>
    ensures { result ≡ word_lexeme bytes.now }
{
    let len = name_len(bytes);
    let (word, rest) = bytes.split_at(len);
    if ends_label(rest) {
        named(TokenKind::Label, len, len + 1)
    } else if is_keyword(word) {
        token(TokenKind::Keyword, len)
    } else if is_reserved(word) {
        token(TokenKind::Reserved, len)
    } else {
        named(TokenKind::Name, len, len)
    }
}

/// The symbol at the head.
#[tactic(auto, unfolding(crate::specs::Lexemes::symbol_lexeme))]
fn symbol_at(bytes: &[u8]) -> Result<Lexeme, LexKind>
    requires { 0 < length bytes.now }
    ensures { result ≡ symbol_lexeme bytes.now }
{
    let len = name_len(&bytes[1..]);
    if begins_symbol(byte_or(bytes, 1, 0)) {
        named(TokenKind::Symbol, len, len + 1)
    } else {
        Err(LexKind::Byte)
    }
}

fn whole(digits: &[u8]) -> Result<Lexeme, LexKind>
    requires { AllDigits 10 digits.now }
    ensures { result ≡ whole_of (length digits.now) digits.now }
{
    if whole_fits(digits) {
        token(TokenKind::Whole, digits.len())
    } else {
        Err(LexKind::Number)
    }
}

fn decimal(form: &[u8]) -> Result<Lexeme, LexKind>
    ensures { result ≡ decimal_of (length form.now) form.now }
{
    if decimal_fits(form) {
        token(TokenKind::Decimal, form.len())
    } else {
        Err(LexKind::Number)
    }
}

/// The number at the head.
#[tactic(auto, unfolding(crate::specs::Lexemes::number_lexeme))]
fn number_at(bytes: &[u8]) -> Result<Lexeme, LexKind>
    ensures { result ≡ number_lexeme bytes.now }
{
    let len = digits_len(bytes);
    if byte_or(bytes, len, 0) == b'.' {
        let part = digits_len(&bytes[len + 1..]);
        if 0 < part {
            return decimal(&bytes[..len + 1 + part]);
        }
    }
    whole(&bytes[..len])
}

/// The text at the head.
#[tactic(auto, unfolding(crate::specs::Lexemes::text_lexeme))]
fn text_at(bytes: &[u8]) -> Result<Lexeme, LexKind>
    requires quoted { 0 < slice_index bytes.now 0 }
    requires some { 0 < length bytes.now }
    requires short { length bytes.now < 2 ^ 32 }
    ensures { result ≡ text_lexeme bytes.now }
{
    match measure_text(bytes[0], &bytes[1..]) {
        None => Err(LexKind::Text),
        Some(text) => {
            if text.count <= MAX_TEXT {
                token(TokenKind::Text, 1 + text.len)
            } else {
                Err(LexKind::Long)
            }
        }
    }
}

/// The operator at the head.
#[tactic(auto, unfolding(crate::specs::Lexemes::operator_lexeme))]
fn operator_at(bytes: &[u8]) -> Result<Lexeme, LexKind>
    ensures { result ≡ operator_lexeme bytes.now }
{
    match operator_len(bytes) {
        None => Err(LexKind::Byte),
        Some(len) => token(TokenKind::Operator, len),
    }
}

/// The longest lexeme at the head of the bytes, of which there is one at least.
#[tactic(auto, unfolding(crate::specs::Lexemes::lexeme_by, crate::specs::Lexemes::comment_lexeme))]
pub(crate) fn lexeme_at(bytes: &[u8]) -> Result<Lexeme, LexKind>
    requires some { 0 < length bytes.now }
    requires short { length bytes.now < 2 ^ 32 }
    ensures { result ≡ lexeme_of bytes.now }
{
    let first = bytes[0];
    if is_blank(first) {
        Ok(Lexeme {
            sort: Sort::Blank,
            len: 1,
        })
    } else if first == b'\n' {
        Ok(Lexeme {
            sort: Sort::Line,
            len: 1,
        })
    } else if first == b'#' {
        Ok(Lexeme {
            sort: Sort::Comment,
            len: line_len(bytes),
        })
    } else if first == b';' {
        token(TokenKind::Newline, 1)
    } else if begins_name(first) {
        word_at(bytes)
    } else if first.is_ascii_digit() {
        number_at(bytes)
    } else if first == b':' {
        symbol_at(bytes)
    } else if first == b'"' || first == b'\'' {
        text_at(bytes)
    } else {
        operator_at(bytes)
    }
}
