//! What a call gives, as the rows spell it: the text of a value, or the word of a fault.

use std::alloc::Global;
use vt_value::{Value, ValueFault};

/// Whether an outcome is the one that a row has.
pub(crate) fn is_told(alloc: Global, outcome: &Result<Value, ValueFault>, want: &str) -> bool {
    match outcome {
        Ok(value) => is_spelled(alloc, value, want),
        Err(ValueFault::Fault(kind)) => kind.word() == want,
        Err(ValueFault::NoMemory) => false,
    }
}

/// Whether a value is the one that a row has.
fn is_spelled(alloc: Global, value: &Value, want: &str) -> bool {
    let mut text = Vec::new(alloc);
    write_value(alloc, &mut text, value).is_some() && text.as_slice() == want.as_bytes()
}

fn write_value(alloc: Global, text: &mut Vec<u8>, value: &Value) -> Option<()> {
    match value {
        Value::Ring(items) => write_items(alloc, text, items.as_slice()),
        _ => write_item(alloc, text, value),
    }
}

fn write_items(alloc: Global, text: &mut Vec<u8>, items: &[Value]) -> Option<()> {
    text.push(b'[').ok()?;
    for (i, item) in items.iter().enumerate() {
        if i > 0 {
            text.extend_from_slice(b", ").ok()?;
        }
        write_item(alloc, text, item)?;
    }
    text.push(b']').ok()
}

/// Appends the text of a value, that of a fraction always with its denominator.
fn write_item(alloc: Global, text: &mut Vec<u8>, value: &Value) -> Option<()> {
    value.write(alloc, text).ok()?;
    if is_over_one(value) {
        text.extend_from_slice(b"/1").ok()?;
    }
    Some(())
}

/// Whether a value is a fraction whose denominator is 1.
fn is_over_one(value: &Value) -> bool {
    match value {
        Value::Part(fraction) => fraction.denom() == 1,
        _ => false,
    }
}

/// Whether the text of a value is this, as a score has it.
pub(crate) fn is_written(alloc: Global, value: &Value, want: &str) -> bool {
    let mut text = Vec::new(alloc);
    value.write(alloc, &mut text).is_ok() && text.as_slice() == want.as_bytes()
}
