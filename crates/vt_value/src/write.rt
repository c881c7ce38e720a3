//! The text of values, without a call for each ring in a ring.

ghost use Rattle.std.specs.Prelude.{◌≡◌, ◌+◌, ◌≤◌, ◌<◌, ◌++◌, [], ◌∷◌, IfOk, OnOk, OnErr};
ghost use Rattle.std.specs.Fmt.{signed_decimal};
ghost use Rattle.std.specs.List.{flat_map};
ghost use Rattle.std.specs.Option.{option_copied};
ghost use Rattle.vt_value.specs.Kinds.{items_of};
ghost use Rattle.vt_value.specs.Text.{bool_text, escaped, hex_digit, quoted, value_text};
ghost use Rattle.vt_value.specs.private.Walks.{left_text, left_weight, next_text, next_weight};
ghost use Rattle.vt_value.specs.private.Weights.{weight_of};

use crate::{Integer, Symbol, Value};
use itoa::Buffer;
use std::alloc::Global;
use vt_frac::NoMemory;

/// What is left of a ring whose text is being written: the items behind the one that is written now.
#[derive(Drop)]
pub(crate) struct Left<'a> {
    rest: &'a [Value],
}

impl Value {
    /// Appends the value's text as it stands in a score: `nil`, `true`, `false`, `12`, `n/d`, `:name`, `"text"` or `[a, b]`.
    pub fn write(&self, alloc: Global, out: &mut Vec<u8>) -> Result<(), NoMemory>
        ensures text { OnOk result (out.new.items ≡ out.old.items ++ value_text self.now) }
        ensures unchanged { OnErr result (out.new.items ≡ out.old.items) }
    {
        let text = text_of(alloc, self)?;
        out.extend_from_slice(text.as_slice())?;
        Ok(())
    }
}

fn text_of(alloc: Global, value: &Value) -> Result<Vec<u8>, NoMemory>
    ensures { IfOk result (λ text. text.items ≡ value_text value.now) }
{
    let mut text = Vec::new(alloc);
    let mut rings = Vec::new(alloc);
    let mut at = value;
    loop {
        write_first(alloc, &mut text, &mut rings, at)?;
        match write_on(&mut text, &mut rings)? {
            None => return Ok(text),
            Some(next) => at = next,
        }
    }
}

/// Goes down to a value's first value without an item, writes the brackets on the way, and writes that value.
fn write_first<'a>(
    alloc: Global,
    text: &mut Vec<u8>,
    rings: &mut Vec<Left<'a>>,
    value: &'a Value,
) -> Result<(), NoMemory>
    ensures same { OnOk result (text.new.items ++ left_text rings.new.items ≡ text.old.items ++ value_text value.now ++ left_text rings.old.items) }
    ensures less { OnOk result (left_weight rings.new.items + 2 ≤ left_weight rings.old.items + weight_of value.now) }
{
    let mut at = value;
    while let Some((first, rest)) = at.items().split_first() {
        text.push(b'[')?;
        rings.push(Left { rest })?;
        at = first;
    }
    write_without_items(alloc, text, at)
}

/// Writes the bracket of each ring that is at its end, and goes on to the next value.
fn write_on<'a>(
    text: &mut Vec<u8>,
    rings: &mut Vec<Left<'a>>,
) -> Result<Option<&'a Value>, NoMemory>
    ensures same { IfOk result (λ next. text.new.items ++ next_text rings.new.items (option_copied next) ≡ text.old.items ++ left_text rings.old.items) }
    ensures less { IfOk result (λ next. next_weight rings.new.items (option_copied next) ≤ left_weight rings.old.items) }
{
    while let Some(ring) = rings.pop() {
        let Left { rest } = ring;
        match rest.split_first() {
            None => text.push(b']')?,
            Some((next, rest)) => {
                text.extend_from_slice(b", ")?;
                rings.push(Left { rest })?;
                return Ok(Some(next));
            }
        }
    }
    Ok(None)
}

/// Writes a value without an item.
fn write_without_items(alloc: Global, text: &mut Vec<u8>, value: &Value) -> Result<(), NoMemory>
    ensures { OnOk result (items_of value.now ≡ [] → text.new.items ≡ text.old.items ++ value_text value.now) }
{
    match value {
        Value::Nil => write_bytes(text, b"nil"),
        Value::Bool(b) => write_bool(text, *b),
        Value::Whole(n) => write_whole(text, n),
        Value::Part(f) => f.write(alloc, text),
        Value::Sym(symbol) => write_symbol(text, symbol),
        Value::Text(bytes) => write_quoted(text, bytes.as_bytes()),
        Value::Ring(_) => write_bytes(text, b"[]"),
    }
}

fn write_bytes(text: &mut Vec<u8>, bytes: &[u8]) -> Result<(), NoMemory>
    ensures { OnOk result (text.new.items ≡ text.old.items ++ bytes.now) }
{
    text.extend_from_slice(bytes)?;
    Ok(())
}

fn write_bool(text: &mut Vec<u8>, b: bool) -> Result<(), NoMemory>
    ensures { OnOk result (text.new.items ≡ text.old.items ++ bool_text b) }
{
    if b {
        write_bytes(text, b"true")
    } else {
        write_bytes(text, b"false")
    }
}

fn write_whole(text: &mut Vec<u8>, number: &Integer) -> Result<(), NoMemory>
    ensures { OnOk result (text.new.items ≡ text.old.items ++ signed_decimal number.now) }
{
    let mut buffer = Buffer::new();
    write_bytes(text, buffer.format(number.get()).as_bytes())
}

fn write_symbol(text: &mut Vec<u8>, symbol: &Symbol) -> Result<(), NoMemory>
    ensures { OnOk result (text.new.items ≡ text.old.items ++ 58 ∷ symbol.now) }
{
    text.push(b':')?;
    write_bytes(text, symbol.as_bytes())
}

/// Writes a text in double quotes.
fn write_quoted(text: &mut Vec<u8>, bytes: &[u8]) -> Result<(), NoMemory>
    ensures { OnOk result (text.new.items ≡ text.old.items ++ quoted bytes.now) }
{
    text.push(b'"')?;
    write_escapes(text, bytes)?;
    text.push(b'"')?;
    Ok(())
}

fn write_escapes(text: &mut Vec<u8>, bytes: &[u8]) -> Result<(), NoMemory>
    ensures { OnOk result (text.new.items ≡ text.old.items ++ flat_map escaped bytes.now) }
{
    for byte in bytes {
        write_escaped(text, *byte)?;
    }
    Ok(())
}

fn write_escaped(text: &mut Vec<u8>, byte: u8) -> Result<(), NoMemory>
    ensures { OnOk result (text.new.items ≡ text.old.items ++ escaped byte) }
{
    if byte == b'"' || byte == b'\\' {
        text.extend_from_slice(&[b'\\', byte])?;
    } else if byte == b'\n' {
        text.extend_from_slice(b"\\n")?;
    } else if byte == b'\t' {
        text.extend_from_slice(b"\\t")?;
    } else if byte < 32 || byte == 127 {
        text.extend_from_slice(&[b'\\', b'x', hex_digit(byte / 16), hex_digit(byte % 16)])?;
    } else {
        text.push(byte)?;
    }
    Ok(())
}

fn hex_digit(n: u8) -> u8
    requires { n < 16 }
    ensures { result ≡ hex_digit n }
{
    if n < 10 { b'0' + n } else { b'a' + (n - 10) }
}
