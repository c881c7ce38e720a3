//! The words of a directive.
ghost use Rattle.std.specs.Prelude.{◌≡◌, ◌<◌, ◌≤◌, ◌^◌, length, IfOk, MatchOption};
ghost use Rattle.vt_lex.specs.Texts.{body_of};
ghost use Rattle.vt_session.specs.Words.{AreWords};
ghost use Rattle.vt_session.specs.private.Reading.{AreNoWords, IsNext, IsWordOf, bytes_of, quoted_size, word_size};

use crate::bytes::{bare_len, blanks_len, ends_word};
use std::alloc::Global;
use vt_frac::NoMemory;
use vt_lex::measure_text;

/// What stands at the head of the bytes behind the name of a directive.
#[derive(Clone, Copy)]
pub(crate) enum Next<'a> {
    /// Blanks, and the end.
    End,
    /// Blanks, this word, and then the rest.
    Word { word: &'a [u8], rest: &'a [u8] },
    /// What is neither.
    Bad,
}

/// The words that the bytes are, if they are words.
pub(crate) fn split_words(alloc: Global, bytes: &[u8]) -> Result<Option<Vec<&[u8]>>, NoMemory>
    requires { length bytes.now < 2 ^ 32 }
    ensures { IfOk result (λ read. MatchOption read (AreNoWords bytes.now) (λ words. AreWords (bytes_of words.items) bytes.now)) }
{
    let mut words = Vec::new(alloc);
    let mut left = bytes;
    'reading: loop {
        match next_word(left) {
            Next::End => return Ok(Some(words)),
            Next::Word { word, rest } => {
                words.push(word)?;
                left = rest;
            }
            Next::Bad => return Ok(None),
        }
    }
}

/// What stands at the head.
fn next_word(bytes: &[u8]) -> Next<'_>
    requires { length bytes.now < 2 ^ 32 }
    ensures { IsNext bytes.now result }
{
    let gap = blanks_len(bytes);
    if gap == bytes.len() {
        return Next::End;
    }
    if gap == 0 {
        return Next::Bad;
    }
    let form = &bytes[gap..];
    match word_len(form) {
        Some(len) => word_of(form, len),
        None => Next::Bad,
    }
}

/// How long the word at the head is, if one stands there, whatever follows it.
fn word_len(form: &[u8]) -> Option<usize>
    requires { length form.now < 2 ^ 32 }
    ensures { result ≡ word_size form.now }
{
    match form {
        [] => None,
        [first, rest @ ..] => {
            if *first == b'"' {
                quoted_len(rest)
            } else {
                Some(bare_len(form))
            }
        }
    }
}

/// How long a text in double quotes is, with its bytes behind the first quote.
fn quoted_len(rest: &[u8]) -> Option<usize>
    requires { length rest.now < 2 ^ 32 }
    ensures { result ≡ quoted_size (body_of 34 rest.now) }
{
    match measure_text(b'"', rest) {
        Some(text) => Some(1 + text.len),
        None => None,
    }
}

/// The word of this length and the rest, where that ends the word.
fn word_of(form: &[u8], len: usize) -> Next<'_>
    requires { len ≤ length form.now }
    ensures { IsWordOf form.now len result }
{
    let (word, rest) = form.split_at(len);
    if ends_word(rest) {
        Next::Word { word, rest }
    } else {
        Next::Bad
    }
}
