//! What `check` says of each text of a session.
ghost use Rattle.std.specs.Prelude.{◌≡◌, ◌≤◌, ◌++◌, ◌&&◌, All, IfOk, OnOk, codes, decimal, length, map};
ghost use Rattle.std.specs.List.{list_all};
ghost use Rattle.vt_session.specs.Sessions.{IsTextPart};
ghost use Rattle.vt_serial.specs.Verdict.{verdict_of_part};
ghost use Rattle.vt_cli.specs.Check.{is_good, verdict_line, verdict_lines, verdict_words};

use itoa::Buffer;
use std::alloc::Global;
use vt_frac::NoMemory;
use vt_serial::{TextVerdict, judge};
use vt_session::TextPart;

/// Adds a line for each text, also behind a refused one. Answers whether all are good.
pub fn check_texts(alloc: Global, text: &mut Vec<u8>, parts: &[TextPart]) -> Result<bool, NoMemory>
    requires within { All IsTextPart parts.now }
    requires few { length parts.now ≤ 1048576 }
    ensures lines { OnOk result (text.new.items ≡ text.old.items ++ verdict_lines 1 (map verdict_of_part parts.now)) }
    ensures good { IfOk result (λ good. good ≡ list_all is_good (map verdict_of_part parts.now)) }
{
    let mut all_good = true;
    let mut number = 1;
    let mut left = parts;
    'texts: while let Some((part, rest)) = left.split_first() {
        let good = check_text(alloc, text, number, part)?;
        all_good = are_both(all_good, good);
        number += 1;
        left = rest;
    }
    Ok(all_good)
}

fn are_both(first: bool, second: bool) -> bool
    ensures { result ≡ (first && second) }
{
    first && second
}

/// Adds the line of a text. Answers whether it is good.
fn check_text(
    alloc: Global,
    text: &mut Vec<u8>,
    number: u32,
    part: &TextPart,
) -> Result<bool, NoMemory>
    requires { IsTextPart part.now }
    ensures line { OnOk result (text.new.items ≡ text.old.items ++ verdict_line number (verdict_of_part part.now)) }
    ensures good { IfOk result (λ good. good ≡ is_good (verdict_of_part part.now)) }
{
    let verdict = judge(alloc, part.text.as_bytes(), part.first_line)?;
    tell(text, number, &verdict)
}

/// Adds the line of a verdict. Answers whether it is good.
fn tell(text: &mut Vec<u8>, number: u32, verdict: &TextVerdict) -> Result<bool, NoMemory>
    ensures line { OnOk result (text.new.items ≡ text.old.items ++ verdict_line number verdict.now) }
    ensures good { IfOk result (λ good. good ≡ is_good verdict.now) }
{
    text.extend_from_slice(b"text ")?;
    write_number(text, number)?;
    text.extend_from_slice(b" ")?;
    write_verdict(text, verdict)?;
    text.extend_from_slice(b"\n")?;
    Ok(is_good(verdict))
}

fn is_good(verdict: &TextVerdict) -> bool
    ensures { result ≡ is_good verdict.now }
{
    match verdict {
        TextVerdict::Good(_) => true,
        TextVerdict::Lex { .. } => false,
        TextVerdict::Syntax { .. } => false,
        TextVerdict::Check { .. } => false,
    }
}

/// Adds a verdict in words.
fn write_verdict(text: &mut Vec<u8>, verdict: &TextVerdict) -> Result<(), NoMemory>
    ensures { OnOk result (text.new.items ≡ text.old.items ++ verdict_words verdict.now) }
{
    match verdict {
        TextVerdict::Good(_) => {
            text.extend_from_slice(b"ok")?;
            Ok(())
        }
        TextVerdict::Lex { line, kind } => {
            text.extend_from_slice(b"lex ")?;
            write_fault(text, kind.word().as_bytes(), *line)
        }
        TextVerdict::Syntax { line } => {
            text.extend_from_slice(b"syntax ")?;
            write_number(text, *line)
        }
        TextVerdict::Check { line, kind } => {
            text.extend_from_slice(b"check ")?;
            write_fault(text, kind.word().as_bytes(), *line)
        }
    }
}

/// Adds the kind of a fault and its line.
fn write_fault(text: &mut Vec<u8>, kind: &[u8], line: u32) -> Result<(), NoMemory>
    ensures { OnOk result (text.new.items ≡ text.old.items ++ (kind.now ++ codes " " ++ decimal line)) }
{
    text.extend_from_slice(kind)?;
    text.extend_from_slice(b" ")?;
    write_number(text, line)
}

/// Adds a number.
pub fn write_number(text: &mut Vec<u8>, number: u32) -> Result<(), NoMemory>
    ensures { OnOk result (text.new.items ≡ text.old.items ++ decimal number) }
{
    let mut buffer = Buffer::new();
    text.extend_from_slice(buffer.format(number).as_bytes())?;
    Ok(())
}
