//! What no row of tests/ shows: ends that fail at each place, how far the program reads, and the limit of length.

ghost use Rattle.std.specs.Prelude.{◌<◌};

use crate::perform::perform;
use std::alloc::AllocGlobal;
use std::test::Fail;
use vt_io::{Failed, ScriptSink, ScriptSource, Source};

/// An input, and the text and the number of the status that are due.
#[derive(Clone, Copy)]
struct Case<'a> {
    input: &'a [u8],
    text: &'a [u8],
    code: u8,
}

/// A piece whose thread is asleep at the end: 36 bytes, and 59 of its score.
const ASLEEP: Case<'static> = Case {
    input: b"play 60\nsleep 0.5\nplay 62\nsleep 60\n",
    text: b"0 1 play :beep 60\n1/2 1 play :beep 62\nasleep 1 121/2\nend 2\n",
    code: 0,
};

/// A text that is refused: 15 bytes, and 25 of its score.
const REFUSED: Case<'static> = Case {
    input: b"play 60\ncue :a\n",
    text: b"0 1 fault syntax 2\nend 1\n",
    code: 8,
};

/// Whether a run with this one word, or with none, ends so: with this number, and with these bytes taken.
fn ends_so<X: AllocGlobal>(
    rt: &X,
    word: &str,
    src: &mut ScriptSource,
    mut out: ScriptSink,
    code: u8,
    taken: &[u8],
) -> Result<bool, Fail> {
    let mut words = Vec::new(rt.alloc());
    words.push(word.to_string(rt.alloc())?)?;
    let status = perform(rt, &words, src, &mut out);
    Ok(status.code() == code && out.taken() == taken)
}

/// Whether the status is that of a failing read, and nothing written, wherever one of these calls fails, and all as due where
/// the call behind them would.
fn reads_may_fail<X: AllocGlobal>(
    rt: &X,
    case: Case,
    piece: usize,
    calls: u32,
) -> Result<bool, Fail>
    requires { 0 < piece }
{
    for k in 1..=calls {
        let mut src = ScriptSource::of(rt.alloc(), case.input, piece, &[k])?;
        let out = ScriptSink::of(rt.alloc(), 16, &[1], case.text.len())?;
        if !ends_so(rt, "render", &mut src, out, 5, b"")? {
            return Ok(false);
        }
    }
    let behind = calls.saturating_add(1);
    let mut src = ScriptSource::of(rt.alloc(), case.input, piece, &[behind])?;
    let out = ScriptSink::of(rt.alloc(), 16, &[], case.text.len())?;
    ends_so(rt, "render", &mut src, out, case.code, case.text)
}

/// Whether a run into this sink takes all that is due, or the first bytes of it with the status of a failing write.
fn takes<X: AllocGlobal>(rt: &X, case: Case, out: ScriptSink, taken: usize) -> Result<bool, Fail> {
    let mut src = ScriptSource::of(rt.alloc(), case.input, 16, &[])?;
    match case.text.get(..taken) {
        Some(part) if taken < case.text.len() => ends_so(rt, "render", &mut src, out, 6, part),
        _ => ends_so(rt, "render", &mut src, out, case.code, case.text),
    }
}

/// Whether the bytes of the calls before are taken, wherever one of these calls fails, and all where the call behind them would.
fn writes_may_fail<X: AllocGlobal>(
    rt: &X,
    case: Case,
    piece: usize,
    calls: u32,
) -> Result<bool, Fail>
    requires { 0 < piece }
{
    for k in 0..=calls {
        let out = ScriptSink::of(rt.alloc(), piece, &[k.saturating_add(1)], case.text.len())?;
        if !takes(rt, case, out, piece.saturating_mul(k as usize))? {
            return Ok(false);
        }
    }
    Ok(true)
}

/// Whether as many bytes are taken as there is room for.
fn room_may_end<X: AllocGlobal>(rt: &X, case: Case, piece: usize) -> Result<bool, Fail>
    requires { 0 < piece }
{
    for room in 0..=case.text.len() {
        let out = ScriptSink::of(rt.alloc(), piece, &[], room)?;
        if !takes(rt, case, out, room)? {
            return Ok(false);
        }
    }
    Ok(true)
}

#[test]
fn reads_that_fail_at_each_place(rt: HostRuntime) -> Result<(), Fail> {
    assert!(rt; reads_may_fail(&rt, ASLEEP, 1, 36)?);
    assert!(rt; reads_may_fail(&rt, ASLEEP, 7, 6)?);
    assert!(rt; reads_may_fail(&rt, REFUSED, 4096, 2)?);
    Ok(())
}

#[test]
fn writes_that_fail_at_each_place(rt: HostRuntime) -> Result<(), Fail> {
    assert!(rt; writes_may_fail(&rt, ASLEEP, 1, 59)?);
    assert!(rt; writes_may_fail(&rt, ASLEEP, 16, 4)?);
    assert!(rt; writes_may_fail(&rt, REFUSED, 4096, 1)?);
    assert!(rt; room_may_end(&rt, ASLEEP, 16)?);
    Ok(())
}

#[test]
fn words_that_ask_for_no_input_leave_the_source_alone(rt: HostRuntime) -> Result<(), Fail> {
    let mut src = ScriptSource::of(rt.alloc(), b"play 60", 16, &[1])?;
    let out = ScriptSink::of(rt.alloc(), 16, &[1], 200)?;
    assert!(rt; ends_so(&rt, "gens", &mut src, out, 6, b"")?);
    let out = ScriptSink::of(rt.alloc(), 16, &[2], 200)?;
    assert!(rt; ends_so(&rt, "gen", &mut src, out, 6, b"# beats 16\nlive_")?);
    let mut unread = [b'?'; 9];
    assert_eq!(rt; src.read(&mut unread), Err(Failed), "the first call");
    assert_eq!(rt; src.read(&mut unread), Ok(7));
    Ok(())
}

/// So many blanks.
fn blanks<X: AllocGlobal>(rt: &X, count: usize) -> Result<Vec<u8>, Fail> {
    let mut all = Vec::new(rt.alloc());
    all.resize(count, b' ')?;
    Ok(all)
}

#[test]
fn an_input_of_the_limit_is_read_to_its_end(rt: HostRuntime) -> Result<(), Fail> {
    let input = blanks(&rt, 1_048_576)?;
    let case = Case {
        input: &input,
        text: b"end 0\n",
        code: 0,
    };
    let out = ScriptSink::of(rt.alloc(), 16, &[], 6)?;
    assert!(rt; takes(&rt, case, out, 6)?);
    Ok(())
}

/// Whether an input past the limit is read to one byte more, in pieces of this length: the call behind those that are made fails
/// for the next reader, who then finds the rest.
fn is_read_no_further<X: AllocGlobal>(
    rt: &X,
    input: &[u8],
    piece: usize,
    unmade: u32,
) -> Result<bool, Fail>
    requires { 0 < piece }
{
    let mut src = ScriptSource::of(rt.alloc(), input, piece, &[unmade])?;
    let out = ScriptSink::of(rt.alloc(), 16, &[], 200)?;
    let ended = ends_so(rt, "render", &mut src, out, 2, b"too long\n")?;
    let mut rest = [b'?'; 64];
    Ok(ended && src.read(&mut rest) == Err(Failed) && src.read(&mut rest) == Ok(piece.min(23)))
}

/// 1,048,577 bytes are asked for, in 4,096 at most at a time.
#[test]
fn an_input_past_the_limit_is_read_no_further(rt: HostRuntime) -> Result<(), Fail> {
    let input = blanks(&rt, 1_048_600)?;
    assert!(rt; is_read_no_further(&rt, &input, 7, 149_798)?);
    assert!(rt; is_read_no_further(&rt, &input, 1_000_000, 258)?);
    Ok(())
}
