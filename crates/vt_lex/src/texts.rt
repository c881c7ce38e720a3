//! The form of a text and its value.
ghost use Rattle.std.specs.Prelude.{◌≡◌, ◌+◌, ◌<◌, ◌≤◌, ◌^◌, length, slice_index, drop, IfOk, IfSome};
ghost use Rattle.vt_lex.specs.Texts.{unit_of, escaped, body_of, measured, IsTextForm, value_of};
ghost use Rattle.vt_lex.specs.private.Measures.{IsWithin};

use crate::bytes::byte_or;
use std::alloc::Global;
use vt_frac::{Name, NoMemory};

/// What stands at the head of the bytes of a text behind its opening quote.
#[derive(Clone, Copy)]
pub(crate) enum TextUnit {
    /// The closing quote.
    Closing,
    /// A byte of the value, and the length of its form.
    Byte { value: u8, len: usize },
    /// What no text may hold.
    Bad,
}

/// How many bytes the form of a text has behind its opening quote, and how many its value has.
#[derive(Clone, Copy)]
pub struct Measure {
    /// The bytes of the form, with its closing quote.
    pub len: usize,
    /// The bytes of the value.
    pub count: usize,
}

/// The byte that a backslash and this byte stand for.
fn escaped(quote: u8, byte: u8) -> Option<u8>
    ensures { result ≡ escaped quote byte }
{
    if byte == b'\\' {
        Some(b'\\')
    } else if byte == quote {
        Some(quote)
    } else if quote == b'"' && byte == b'n' {
        Some(b'\n')
    } else if quote == b'"' && byte == b't' {
        Some(b'\t')
    } else {
        None
    }
}

/// The unit at the head of the bytes, of which there is one at least.
fn unit_at(quote: u8, bytes: &[u8]) -> TextUnit
    requires quoted { 0 < quote }
    requires some { 0 < length bytes.now }
    ensures unit { result ≡ unit_of quote (slice_index bytes.now 0) (slice_index bytes.now 1) }
    ensures within { IsWithin result (length bytes.now) }
{
    let byte = bytes[0];
    let next = byte_or(bytes, 1, 0);
    if byte == quote {
        TextUnit::Closing
    } else if byte == b'\n' {
        TextUnit::Bad
    } else if byte == b'\\' {
        match escaped(quote, next) {
            Some(value) => TextUnit::Byte { value, len: 2 },
            None => TextUnit::Bad,
        }
    } else if quote == b'"' && byte == b'#' && next == b'{' {
        TextUnit::Bad
    } else {
        TextUnit::Byte {
            value: byte,
            len: 1,
        }
    }
}

/// The lengths of the rest of a text behind its opening quote, if it ends well on its line.
pub fn measure_text(quote: u8, bytes: &[u8]) -> Option<Measure>
    requires quoted { 0 < quote }
    requires short { length bytes.now < 2 ^ 32 }
    ensures lengths { result ≡ measured (body_of quote bytes.now) }
    ensures within { IfSome result (λ text. text.len ≤ length bytes.now) }
{
    let mut at = 0;
    let mut count = 0;
    'units: while at < bytes.len() {
        match unit_at(quote, &bytes[at..]) {
            TextUnit::Closing => return Some(Measure { len: at + 1, count }),
            TextUnit::Byte { len, .. } => {
                at += len;
                count += 1;
            }
            TextUnit::Bad => return None,
        }
    }
    None
}

/// The value of a Text token with these bytes: escapes stand for the bytes that they name.
pub fn text_value(alloc: Global, form: &[u8]) -> Result<Name, NoMemory>
    requires { IsTextForm form.now }
    ensures { IfOk result (λ value. value ≡ value_of form.now) }
{
    let quote = form[0];
    let mut values = Vec::new(alloc);
    let mut at = 1;
    'units: loop {
        match unit_at(quote, &form[at..]) {
            TextUnit::Closing => return Name::of(alloc, values.as_slice()),
            TextUnit::Byte { value, len } => {
                values.push(value)?;
                at += len;
            }
            TextUnit::Bad => unreachable!(),
        }
    }
}
