//! Sources and sinks, each through its trait.
//!
//! What comes of calls is written with a `|` between each two: the bytes that a read gives or the count that a write takes,
//! and `!` where the call fails.

use std::alloc::Global;
use std::io;
use std::io::{Error, ErrorKind, Read, Write};
use std::test::Fail;
use vt_io::{
    Failed, QuietSource, ReaderSource, ScriptSink, ScriptSource, Sink, Source, WriterSink,
};

const TEXT: &[u8] = b"0 1 play :beep 60.";

/// Whether a read into a buffer of `size` bytes, at most 32, gives this.
fn gives_part<S: Source>(source: &mut S, size: usize, want: &str) -> bool {
    let mut buf = [b'?'; 32];
    let size = size.min(buf.len());
    match source.read(&mut buf[..size]) {
        Ok(count) => &buf[..count] == want.as_bytes(),
        Err(Failed) => want == "!",
    }
}

/// Whether so many reads give this.
fn gives<S: Source>(source: &mut S, size: usize, want: &str) -> bool {
    for part in want.split('|') {
        if !gives_part(source, size, part) {
            return false;
        }
    }
    true
}

/// What is left of a text behind a write of it that comes to this; `None` where it comes to something else.
fn left_behind<'a, K: Sink>(sink: &mut K, text: &'a [u8], want: &str) -> Option<&'a [u8]> {
    if text.is_empty() {
        return None;
    }
    match sink.write(text) {
        Ok(count) if want.parse::<usize>().ok() == Some(count) => text.get(count..),
        Err(Failed) if want == "!" => Some(text),
        _ => None,
    }
}

/// Whether so many writes of what is left of the text come to this.
fn takes<K: Sink>(sink: &mut K, want: &str) -> bool {
    let mut left = TEXT;
    for part in want.split('|') {
        match left_behind(sink, left, part) {
            Some(rest) => left = rest,
            None => return false,
        }
    }
    true
}

/// The numbers of a line.
fn numbers(alloc: Global, line: &str) -> Option<Vec<u32>> {
    let mut numbers = Vec::new(alloc);
    for word in line.split_whitespace() {
        numbers.push(word.parse::<u32>().ok()?).ok()?;
    }
    Some(numbers)
}

/// The most bytes of a call, the calls that fail, the size of the buffer, and what comes.
const SOURCES: &str = "\
1; 0 3 3 99; 32; 0| |!|1
7; 2 4; 32; 0 1 pla|!|y :beep|!| 60.|
16; 1; 32; !|0 1 play :beep 6|0.|
16; ; 5; 0 1 p|lay :|beep |60.|
7; 2; 0; |!|
";

/// Whether the source of a row gives what the row says.
fn source_holds(alloc: Global, row: &str) -> Option<bool> {
    let (piece, rest) = row.split_once("; ")?;
    let (fails, rest) = rest.split_once("; ")?;
    let (size, want) = rest.split_once("; ")?;
    let size = size.parse::<usize>().ok()?;
    let mut source = source_of(alloc, piece, fails)?;
    Some(gives(&mut source, size, want))
}

/// The text in pieces of so many bytes, where these calls fail.
fn source_of(alloc: Global, piece: &str, fails: &str) -> Option<ScriptSource> {
    let piece = piece.parse::<usize>().ok()?;
    if piece == 0 {
        return None;
    }
    let fails = numbers(alloc, fails)?;
    ScriptSource::of(alloc, TEXT, piece, fails.as_slice()).ok()
}

/// The first row that does not hold, or nothing.
fn wrong_source(alloc: Global) -> Option<&'static str> {
    for row in SOURCES.lines() {
        if source_holds(alloc, row) != Some(true) {
            return Some(row);
        }
    }
    None
}

#[test]
fn sources_in_memory(rt: HostRuntime) {
    assert_eq!(rt; wrong_source(rt.alloc()), None);
}

#[test]
fn quiet_sources_in_memory(rt: HostRuntime) -> Result<(), Fail> {
    let mut quiet = QuietSource::of(rt.alloc(), TEXT)?;
    assert!(rt; gives(&mut quiet, 16, "0 1 play :beep 6|0.|"));
    Ok(())
}

/// The most bytes of a call, the calls that fail, the room, how much is taken, and what was.
const SINKS: &str = "\
1; 1; 2; !|1|1|! => 0 
7; 2; 200; 7|!|7|4 => 0 1 play :beep 60.
16; 2; 200; 16|! => 0 1 play :beep 6
16; ; 10; 10|!|! => 0 1 play :
16; ; 0; ! => 
";

/// Whether the sink of a row takes what the row says.
fn sink_holds(alloc: Global, row: &str) -> Option<bool> {
    let (call, bytes) = row.split_once(" => ")?;
    let (piece, rest) = call.split_once("; ")?;
    let (fails, rest) = rest.split_once("; ")?;
    let (room, want) = rest.split_once("; ")?;
    let mut sink = sink_of(alloc, piece, fails, room)?;
    Some(takes(&mut sink, want) && sink.taken() == bytes.as_bytes())
}

/// A sink with room for so many bytes, which takes so many at most in a call, where these calls fail.
fn sink_of(alloc: Global, piece: &str, fails: &str, room: &str) -> Option<ScriptSink> {
    let room = room.parse::<usize>().ok()?;
    let piece = piece.parse::<usize>().ok()?;
    if piece == 0 {
        return None;
    }
    let fails = numbers(alloc, fails)?;
    ScriptSink::of(alloc, piece, fails.as_slice(), room).ok()
}

/// The first row that does not hold, or nothing.
fn wrong_sink(alloc: Global) -> Option<&'static str> {
    for row in SINKS.lines() {
        if sink_holds(alloc, row) != Some(true) {
            return Some(row);
        }
    }
    None
}

#[test]
fn sinks_in_memory(rt: HostRuntime) {
    assert_eq!(rt; wrong_sink(rt.alloc()), None);
}

/// Whether reads into a long buffer give 4,096 bytes, 904 bytes and none.
fn gives_long<S: Source>(source: &mut S) -> bool {
    let mut buf = [b'?'; 6000];
    let first = source.read(&mut buf) == Ok(4096);
    let second = source.read(&mut buf) == Ok(904);
    let third = source.read(&mut buf) == Ok(0);
    first && second && third && buf[903] == b'x'
}

#[test]
fn readers_of_std_in_memory(rt: HostRuntime) -> Result<(), Fail> {
    assert!(rt; gives(&mut ReaderSource::of(TEXT), 16, "0 1 play :beep 6|0.|"));
    let long = vec![in rt.alloc(); b'x'; 5000]?;
    assert!(rt; gives_long(&mut ReaderSource::of(long.as_slice())));
    Ok(())
}

/// Whether a vector takes the whole text.
fn vector_takes_all(alloc: Global) -> bool {
    let mut text = Vec::new(alloc);
    let is_taken = takes(&mut WriterSink::of(&mut text), "18");
    is_taken && text.as_slice() == TEXT
}

/// Whether a block takes what it has room for.
fn block_takes_a_part() -> bool {
    let mut block = [b'?'; 7];
    let is_taken = takes(&mut WriterSink::of(block.as_mut_slice()), "7|!|!");
    is_taken && block.as_slice() == b"0 1 pla".as_slice()
}

#[test]
fn writers_of_std_in_memory(rt: HostRuntime) {
    assert!(rt; vector_takes_all(rt.alloc()));
    assert!(rt; block_takes_a_part());
}

/// Gives a byte a call, and fails in its second call.
#[derive(Drop)]
struct FlakyReader {
    calls: u8,
}

impl Read for FlakyReader {
    fn read(&mut self, buf: &mut [u8]) -> io::Result<usize> {
        self.calls = self.calls.saturating_add(1);
        for byte in &mut *buf {
            *byte = b'0' + self.calls.min(9);
        }
        if self.calls == 2 {
            return Err(Error::from(ErrorKind::Other));
        }
        Ok(buf.len().min(1))
    }
}

/// Takes a byte a call, fails in its second call, and takes nothing in its third.
#[derive(Drop)]
struct FlakyWriter {
    calls: u8,
}

impl Write for FlakyWriter {
    fn write(&mut self, buf: &[u8]) -> io::Result<usize> {
        self.calls = self.calls.saturating_add(1);
        match self.calls {
            2 => Err(Error::from(ErrorKind::Other)),
            3 => Ok(0),
            _ => Ok(buf.len().min(1)),
        }
    }

    fn flush(&mut self) -> io::Result<()> {
        Ok(())
    }
}

#[test]
fn readers_and_writers_that_fail_in_mid_stream(rt: HostRuntime) {
    assert!(rt; gives(&mut ReaderSource::of(FlakyReader { calls: 0 }), 4, "1|!|3"));
    assert!(rt; takes(&mut WriterSink::of(FlakyWriter { calls: 0 }), "1|!|!|1"));
}

#[test]
fn a_failure_has_its_words(rt: HostRuntime) -> Result<(), Fail> {
    let text = format!(in rt.alloc(); "{Failed}")?;
    assert_eq!(rt; text.as_str(), "a read or a write failed");
    Ok(())
}
