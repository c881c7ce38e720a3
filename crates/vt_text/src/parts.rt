//! The parts that lines are made of. Each is added at the end of a text.

ghost use Rattle.std.specs.Prelude.{◌≡◌, ◌++◌, OnOk, codes, decimal};
ghost use Rattle.std.specs.List.{flat_map};
ghost use Rattle.std.specs.Option.{option_copied};
ghost use Rattle.vt_value.specs.Kinds.{ring_of};
ghost use Rattle.vt_text.specs.ScoreText.{after_blank, fx_text, micro_text, option_text, options_text, place_text, shown_path, spread_items, spread_text, thread_text};

use itoa::Buffer;
use std::alloc::Global;
use vt_event::{FxId, Options, Place, ThreadId};
use vt_frac::{Name, NoMemory};
use vt_path::Path;
use vt_value::Value;

pub fn write_bytes(out: &mut Vec<u8>, bytes: &[u8]) -> Result<(), NoMemory>
    ensures { OnOk result (out.new.items ≡ out.old.items ++ bytes.now) }
{
    out.extend_from_slice(bytes)?;
    Ok(())
}

pub fn write_number(out: &mut Vec<u8>, number: u64) -> Result<(), NoMemory>
    ensures { OnOk result (out.new.items ≡ out.old.items ++ decimal number) }
{
    let mut buffer = Buffer::new();
    write_bytes(out, buffer.format(number).as_bytes())
}

fn write_after_dot(out: &mut Vec<u8>, number: u32) -> Result<(), NoMemory>
    ensures { OnOk result (out.new.items ≡ out.old.items ++ (codes "." ++ decimal number)) }
{
    write_bytes(out, b".")?;
    write_number(out, u64::from(number))
}

fn write_after_dots(out: &mut Vec<u8>, numbers: &[u32]) -> Result<(), NoMemory>
    ensures { OnOk result (out.new.items ≡ out.old.items ++ flat_map (λ k. codes "." ++ decimal k) numbers.now) }
{
    for number in numbers {
        write_after_dot(out, *number)?;
    }
    Ok(())
}

pub fn write_thread(out: &mut Vec<u8>, thread: &ThreadId) -> Result<(), NoMemory>
    ensures { OnOk result (out.new.items ≡ out.old.items ++ thread_text thread.now) }
{
    match thread.numbers() {
        [] => Ok(()),
        [first, rest @ ..] => {
            write_number(out, u64::from(*first))?;
            write_after_dots(out, rest)
        }
    }
}

fn write_micro(out: &mut Vec<u8>, micro: u32) -> Result<(), NoMemory>
    ensures { OnOk result (out.new.items ≡ out.old.items ++ micro_text micro) }
{
    if micro == 0 {
        return Ok(());
    }
    write_bytes(out, b"+")?;
    write_number(out, u64::from(micro))
}

pub fn write_place(alloc: Global, out: &mut Vec<u8>, place: &Place) -> Result<(), NoMemory>
    ensures { OnOk result (out.new.items ≡ out.old.items ++ place_text place.now) }
{
    place.time.write(alloc, out)?;
    write_micro(out, place.micro)?;
    write_bytes(out, b" ")?;
    write_thread(out, &place.thread)
}

fn write_option(alloc: Global, out: &mut Vec<u8>, option: &(Name, Value)) -> Result<(), NoMemory>
    ensures { OnOk result (out.new.items ≡ out.old.items ++ option_text option.now) }
{
    let (name, value) = option;
    write_bytes(out, b" ")?;
    write_bytes(out, name.as_bytes())?;
    write_bytes(out, b": ")?;
    value.write(alloc, out)
}

pub fn write_options(alloc: Global, out: &mut Vec<u8>, options: &Options) -> Result<(), NoMemory>
    ensures { OnOk result (out.new.items ≡ out.old.items ++ options_text options.now) }
{
    let options = options.as_slice();
    for option in options {
        write_option(alloc, out, option)?;
    }
    Ok(())
}

/// The effect in which an event stands.
pub fn write_fx(out: &mut Vec<u8>, fx: Option<&FxId>) -> Result<(), NoMemory>
    ensures { OnOk result (out.new.items ≡ out.old.items ++ fx_text (option_copied fx.entry)) }
{
    match fx {
        None => Ok(()),
        Some(fx) => {
            write_bytes(out, b" in ")?;
            write_thread(out, &fx.thread)?;
            write_bytes(out, b"#")?;
            write_number(out, u64::from(fx.number))
        }
    }
}

pub fn write_path(alloc: Global, out: &mut Vec<u8>, path: Option<&Path>) -> Result<(), NoMemory>
    ensures { OnOk result (out.new.items ≡ out.old.items ++ shown_path (option_copied path.entry)) }
{
    match path {
        None => Ok(()),
        Some(path) => path.write(alloc, out),
    }
}

pub fn write_after_blank(alloc: Global, out: &mut Vec<u8>, value: &Value) -> Result<(), NoMemory>
    ensures { OnOk result (out.new.items ≡ out.old.items ++ after_blank value.now) }
{
    write_bytes(out, b" ")?;
    value.write(alloc, out)
}

fn write_after_blanks(alloc: Global, out: &mut Vec<u8>, values: &[Value]) -> Result<(), NoMemory>
    ensures { OnOk result (out.new.items ≡ out.old.items ++ flat_map after_blank values.now) }
{
    for value in values {
        write_after_blank(alloc, out, value)?;
    }
    Ok(())
}

/// The items of a ring.
fn ring(value: &Value) -> Option<&[Value]>
    ensures { option_copied result ≡ ring_of value.now }
{
    match value {
        Value::Ring(items) => Some(items.as_slice()),
        Value::Nil => None,
        Value::Bool(_) => None,
        Value::Whole(_) => None,
        Value::Part(_) => None,
        Value::Sym(_) => None,
        Value::Text(_) => None,
    }
}

/// The items of a ring, each after a blank, or another value after a blank.
pub fn write_spread(alloc: Global, out: &mut Vec<u8>, value: &Value) -> Result<(), NoMemory>
    ensures { OnOk result (out.new.items ≡ out.old.items ++ spread_text value.now) }
{
    match ring(value) {
        Some(items) => write_after_blanks(alloc, out, items),
        None => write_after_blank(alloc, out, value),
    }
}
