//! The texts of a session, ready to be rendered.

use std::alloc::Global;
use std::test::Fail;
use vt_frac::Frac;
use vt_run::{Texts, Verdict};
use vt_serial::prepare;
use vt_session::read_session;

/// Sessions, with `|` for each newline, and what each text is, with `;` behind it: its time, and whether it is good, or the kind
/// and the line of its fault.
const ROWS: &str = " => 0 good;
%session 2|play 60|%set 1 /set/x 5|%at 5/2|play ( => 0 good;5/2 syntax 5;
play (|%at 1/2|play 60|%at 1|play \"a|%at 1|define :play do|end => 0 syntax 1;1/2 good;1 lex 5;1 check 7;";

/// The bytes, with a newline in place of each bar.
fn with_newlines(alloc: Global, bytes: &[u8]) -> Option<Vec<u8>> {
    let mut all = Vec::new(alloc);
    for byte in bytes {
        let byte = if *byte == b'|' { b'\n' } else { *byte };
        all.push(byte).ok()?;
    }
    Some(all)
}

fn add_text(alloc: Global, out: &mut Vec<u8>, time: Frac, verdict: &Verdict) -> Option<()> {
    time.write(alloc, out).ok()?;
    match verdict {
        Verdict::Good(_) => out.extend_from_slice(b" good;").ok(),
        Verdict::Bad { kind, line } => {
            let told = format!(in alloc; " {} {};", kind.word(), line).ok()?;
            out.extend_from_slice(told.as_bytes()).ok()
        }
    }
}

fn told(alloc: Global, texts: &Texts) -> Option<Vec<u8>> {
    let mut out = Vec::new(alloc);
    for (time, verdict) in texts.as_slice() {
        add_text(alloc, &mut out, *time, verdict)?;
    }
    Some(out)
}

fn answer(alloc: Global, bytes: &[u8]) -> Option<Vec<u8>> {
    if bytes.len() > 1_048_576 {
        return None;
    }
    let session = read_session(alloc, bytes).ok()?;
    let texts = prepare(alloc, &session).ok()?;
    told(alloc, &texts)
}

/// The first row of which the answer is another one.
fn first_wrong(alloc: Global) -> Option<&'static str> {
    for row in ROWS.lines() {
        let (input, want) = row.split_once(" => ")?;
        let bytes = with_newlines(alloc, input.as_bytes())?;
        if answer(alloc, bytes.as_slice())?.as_slice() != want.as_bytes() {
            return Some(row);
        }
    }
    Some("none")
}

#[test]
fn each_text_has_its_time_and_its_verdict(rt: HostRuntime) -> Result<(), Fail> {
    assert_eq!(rt; first_wrong(rt.alloc()), Some("none"));
    Ok(())
}
