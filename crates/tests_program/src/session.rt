//! Sessions as they are read: their texts and inputs, or the first line that breaks a rule.

use std::alloc::Global;
use std::test::Fail;
use vt_event::Event;
use vt_session::{Session, SessionFault, TextPart, read_session};
use vt_text::line;

/// Inputs, with `|` for each newline, and what each is: its texts by time, first line and bytes, its inputs as a score shows
/// them and stops by time and path, each with `;` behind it; or the first bad line.
const ROWS: &str = " => 0 1 ;
play 60|# a|%at 1/2|play 62| => 0 1 play 60|# a|;1/2 4 play 62|;
%at 1|%at 1 => 0 1 ;1 2 ;1 3 ;
%cue 1 /pad/x 64 -0.5 :go \"a \\\"b\\\" ;\" => 0 1 ;1 0 cue /pad/x 64 -1/2 :go \"a \\\"b\\\" ;\";
%cue 0 /a  1.0 \t|\t |%at 0.5 => 0 1 ;1/2 4 ;0 0 cue /a 1;
%cue 0 /a -0 => 0 1 ;0 0 cue /a 0;
%session 2|%set 1 /set/x 5|%stop 5/2 :x|%at 4|play 72 => 0 2 ;4 5 play 72;1 0 set /set/x 5;5/2 /!stop/x;
%at 0000000000000000001 => 0 1 ;1 2 ;
 %at 1 => 0 1  %at 1;
play 60|%stop 1 :x => bad 2";

/// The bytes, with one byte in place of another.
fn replaced(alloc: Global, bytes: &[u8], old: u8, new: u8) -> Option<Vec<u8>> {
    let mut all = Vec::new(alloc);
    for byte in bytes {
        let byte = if *byte == old { new } else { *byte };
        all.push(byte).ok()?;
    }
    Some(all)
}

fn add_text(alloc: Global, out: &mut Vec<u8>, part: &TextPart) -> Option<()> {
    part.time.write(alloc, out).ok()?;
    let number = format!(in alloc; " {} ", part.first_line).ok()?;
    out.extend_from_slice(number.as_bytes()).ok()?;
    let text = replaced(alloc, part.text.as_bytes(), b'\n', b'|')?;
    out.extend_from_slice(text.as_slice()).ok()?;
    out.push(b';').ok()
}

fn add_input(alloc: Global, out: &mut Vec<u8>, input: &Event) -> Option<()> {
    let kind = input.kind();
    if kind.is_shown() {
        let shown = line(alloc, input).ok()?;
        out.extend_from_slice(shown.as_slice()).ok()?;
    } else {
        input.place().time.write(alloc, out).ok()?;
        out.push(b' ').ok()?;
        input.path()?.write(alloc, out).ok()?;
    }
    out.push(b';').ok()
}

fn add_session(alloc: Global, out: &mut Vec<u8>, session: &Session) -> Option<()> {
    for part in session.texts().as_slice() {
        add_text(alloc, out, part)?;
    }
    for input in session.inputs().as_slice() {
        add_input(alloc, out, input)?;
    }
    Some(())
}

/// What the bytes are as a session.
fn answer(alloc: Global, bytes: &[u8]) -> Option<Vec<u8>> {
    if bytes.len() > 1_048_576 {
        return None;
    }
    let mut out = Vec::new(alloc);
    match read_session(alloc, bytes) {
        Ok(session) => add_session(alloc, &mut out, &session)?,
        Err(SessionFault::BadSession { line }) => {
            let bad = format!(in alloc; "bad {}", line).ok()?;
            out.extend_from_slice(bad.as_bytes()).ok()?;
        }
        Err(SessionFault::NoMemory) => return None,
    }
    Some(out)
}

/// The first row of which the answer is another one.
fn first_wrong(alloc: Global) -> Option<&'static str> {
    for row in ROWS.lines() {
        let (input, want) = row.split_once(" => ")?;
        let bytes = replaced(alloc, input.as_bytes(), b'|', b'\n')?;
        if answer(alloc, bytes.as_slice())?.as_slice() != want.as_bytes() {
            return Some(row);
        }
    }
    Some("none")
}

#[test]
fn sessions_are_read_by_their_rules(rt: HostRuntime) -> Result<(), Fail> {
    assert_eq!(rt; first_wrong(rt.alloc()), Some("none"));
    Ok(())
}
