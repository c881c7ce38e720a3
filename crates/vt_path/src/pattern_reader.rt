//! Reads a pattern, byte by byte.

ghost use Rattle.std.specs.Prelude.{◌≡◌, ◌↔◌, ℕ, [], ◌∷◌, IfOk, IfErr, IsTrue};
ghost use Rattle.vt_path.specs.Pattern.{IsPattern, IsPatternText, IsPart, part_text, pattern_text};
ghost use Rattle.vt_path.specs.private.PatternReading.{IsSound, Takes, Ends, IsOpening, IsSegmentOf, reading};
ghost use Rattle.vt_path.specs.Stop.{IsCause};

use crate::bytes::is_path_byte;
use crate::fault::PathFault;
use crate::names::Names;
use crate::pattern::{Part, Parts, Pattern, Segment};
use std::alloc::Global;
use std::mem;
use vt_frac::{Name, NoMemory};

const MOST_SEGMENTS: usize = 16;

const MOST_BYTES: usize = 64;

/// The pattern that these bytes are.
pub fn parse_pattern(alloc: Global, bytes: &[u8]) -> Result<Pattern, PathFault>
    ensures pattern { IfOk result (λ pattern. IsPattern pattern) }
    ensures written { IfOk result (λ pattern. bytes.now ≡ pattern_text pattern) }
    ensures refused { IfErr result (IsCause IsPatternText bytes.now) }
{
    let [first, rest @ ..] = bytes else {
        return Err(PathFault::BadPath(0));
    };
    if *first != b'/' {
        return Err(PathFault::BadPath(0));
    }
    after_slash(alloc, rest)
}

/// The pattern that these bytes are after its first slash (47).
fn after_slash(alloc: Global, rest: &[u8]) -> Result<Pattern, PathFault>
    ensures pattern { IfOk result (λ pattern. IsPattern pattern) }
    ensures written { IfOk result (λ pattern. 47 ∷ rest.now ≡ pattern_text pattern) }
    ensures refused { IfErr result (IsCause IsPatternText (47 ∷ rest.now)) }
{
    let mut reader = PatternReader::new(alloc);
    for (i, byte) in rest.iter().enumerate() {
        let taken = reader.takes(alloc, *byte)?;
        if !taken {
            return Err(PathFault::BadPath(i as u32 + 1));
        }
    }
    match reader.pattern()? {
        Some(pattern) => Ok(pattern),
        None => Err(PathFault::BadPath(rest.len() as u32 + 1)),
    }
}

/// Where the reader stands in a segment.
#[derive(Clone, Copy, Debug)]
enum Position {
    /// Between two parts.
    Between,
    /// In brackets.
    InSet,
    /// In alternatives.
    InAlternatives,
}

/// What was read: the segments that are whole, and of the one that is being read the parts that are whole, the
/// alternatives that are whole, and the bytes that stand in brackets or in the alternative that is being read.
#[derive(Drop)]
struct PatternReader {
    done: Vec<Segment>,
    parts: Vec<Part>,
    names: Vec<Name>,
    bytes: Vec<u8>,
    position: Position,
    /// How many bytes of the segment were read.
    used: usize,
}

impl PatternReader {
    fn new(alloc: Global) -> PatternReader
        ensures sound { IsSound (reading result) }
        ensures done { result.done.items ≡ [] }
        ensures parts { result.parts.items ≡ [] }
        ensures position { result.position ≡ Position.Between }
    {
        PatternReader {
            done: Vec::new(alloc),
            parts: Vec::new(alloc),
            names: Vec::new(alloc),
            bytes: Vec::new(alloc),
            position: Position::Between,
            used: 0,
        }
    }

    /// Takes the next byte, if a pattern goes on with it.
    fn takes(&mut self, alloc: Global, byte: u8) -> Result<bool, NoMemory>
        requires { IsSound (reading self.old) }
        ensures { IfOk result (Takes (reading self.old) byte (reading self.new)) }
    {
        match self.position {
            Position::Between => self.takes_between(alloc, byte),
            Position::InSet => self.takes_in_set(alloc, byte),
            Position::InAlternatives => self.takes_in_alternatives(alloc, byte),
        }
    }

    fn takes_between(&mut self, alloc: Global, byte: u8) -> Result<bool, NoMemory>
        requires sound { IsSound (reading self.old) }
        requires position { self.old.position ≡ Position.Between }
        ensures { IfOk result (Takes (reading self.old) byte (reading self.new)) }
    {
        match byte {
            b'/' => self.closes_segment(alloc),
            b'[' => Ok(self.opens(Position::InSet)),
            b'{' => Ok(self.opens(Position::InAlternatives)),
            b'*' => self.pushes(Part::AnyBytes),
            b'?' => self.pushes(Part::AnyByte),
            _ if is_path_byte(byte) => self.pushes(Part::Byte(byte)),
            _ => Ok(false),
        }
    }

    /// Adds a part that is written as one byte, if there is room.
    fn pushes(&mut self, part: Part) -> Result<bool, NoMemory>
        requires sound { IsSound (reading self.old) }
        requires position { self.old.position ≡ Position.Between }
        requires part { IsPart part }
        ensures { IfOk result (λ taken. (byte : ℕ) → part_text part ≡ byte ∷ [] → Takes (reading self.old) byte (reading self.new) taken) }
    {
        if self.used == MOST_BYTES {
            return Ok(false);
        }
        self.parts.push(part)?;
        self.used += 1;
        Ok(true)
    }

    /// Begins brackets or alternatives, if there is room for their least form.
    fn opens(&mut self, position: Position) -> bool
        requires sound { IsSound (reading self.old) }
        requires position { self.old.position ≡ Position.Between }
        ensures { (byte : ℕ) → IsOpening position byte → Takes (reading self.old) byte (reading self.new) result }
    {
        if self.used + 3 > MOST_BYTES {
            return false;
        }
        self.position = position;
        self.used += 1;
        true
    }

    /// Ends the segment that is being read, and begins another, if a pattern may have both.
    fn closes_segment(&mut self, alloc: Global) -> Result<bool, NoMemory>
        requires sound { IsSound (reading self.old) }
        requires position { self.old.position ≡ Position.Between }
        ensures { IfOk result (Takes (reading self.old) 47 (reading self.new)) }
    {
        if self.parts.is_empty() || self.done.len() + 1 == MOST_SEGMENTS {
            return Ok(false);
        }
        let parts = mem::replace(&mut self.parts, Vec::new(alloc));
        self.done.push(segment_of(parts))?;
        self.used = 0;
        Ok(true)
    }

    fn takes_in_set(&mut self, alloc: Global, byte: u8) -> Result<bool, NoMemory>
        requires sound { IsSound (reading self.old) }
        requires position { self.old.position ≡ Position.InSet }
        ensures { IfOk result (Takes (reading self.old) byte (reading self.new)) }
    {
        if byte == b']' {
            return self.closes_set(alloc);
        }
        if !is_path_byte(byte) || self.used + 2 > MOST_BYTES {
            return Ok(false);
        }
        self.bytes.push(byte)?;
        self.used += 1;
        Ok(true)
    }

    fn closes_set(&mut self, alloc: Global) -> Result<bool, NoMemory>
        requires sound { IsSound (reading self.old) }
        requires position { self.old.position ≡ Position.InSet }
        ensures { IfOk result (Takes (reading self.old) 93 (reading self.new)) }
    {
        if self.bytes.is_empty() {
            return Ok(false);
        }
        let bytes = Name::of(alloc, self.bytes.as_slice())?;
        self.parts.push(Part::Set(bytes))?;
        self.bytes.clear();
        self.position = Position::Between;
        self.used += 1;
        Ok(true)
    }

    fn takes_in_alternatives(&mut self, alloc: Global, byte: u8) -> Result<bool, NoMemory>
        requires sound { IsSound (reading self.old) }
        requires position { self.old.position ≡ Position.InAlternatives }
        ensures { IfOk result (Takes (reading self.old) byte (reading self.new)) }
    {
        if byte == b',' {
            return self.closes_alternative(alloc);
        }
        if byte == b'}' {
            return self.closes_alternatives(alloc);
        }
        if !is_path_byte(byte) || self.used + 2 > MOST_BYTES {
            return Ok(false);
        }
        self.bytes.push(byte)?;
        self.used += 1;
        Ok(true)
    }

    /// Ends the alternative that is being read, and begins another, if there is room.
    fn closes_alternative(&mut self, alloc: Global) -> Result<bool, NoMemory>
        requires sound { IsSound (reading self.old) }
        requires position { self.old.position ≡ Position.InAlternatives }
        ensures { IfOk result (Takes (reading self.old) 44 (reading self.new)) }
    {
        if self.bytes.is_empty() || self.used + 3 > MOST_BYTES {
            return Ok(false);
        }
        let name = Name::of(alloc, self.bytes.as_slice())?;
        self.names.push(name)?;
        self.bytes.clear();
        self.used += 1;
        Ok(true)
    }

    fn closes_alternatives(&mut self, alloc: Global) -> Result<bool, NoMemory>
        requires sound { IsSound (reading self.old) }
        requires position { self.old.position ≡ Position.InAlternatives }
        ensures { IfOk result (Takes (reading self.old) 125 (reading self.new)) }
    {
        if self.bytes.is_empty() {
            return Ok(false);
        }
        let name = Name::of(alloc, self.bytes.as_slice())?;
        self.names.push(name)?;
        let names = mem::replace(&mut self.names, Vec::new(alloc));
        self.parts.push(Part::Alternatives(Names { names }))?;
        self.bytes.clear();
        self.position = Position::Between;
        self.used += 1;
        Ok(true)
    }

    fn is_between(&self) -> bool
        ensures { IsTrue result ↔ (self.now.position ≡ Position.Between) }
    {
        matches!(self.position, Position::Between)
    }

    /// The pattern that was read, if no more is wanted.
    fn pattern(self) -> Result<Option<Pattern>, NoMemory>
        requires { IsSound (reading self) }
        ensures { IfOk result (Ends (reading self)) }
    {
        if !self.is_between() || self.parts.is_empty() {
            return Ok(None);
        }
        let PatternReader { done, parts, .. } = self;
        let mut segments = done;
        segments.push(segment_of(parts))?;
        Ok(Some(Pattern { segments }))
    }
}

/// The segment with these parts.
fn segment_of(parts: Vec<Part>) -> Segment
    ensures { IsSegmentOf parts.items result }
{
    match parts.as_slice() {
        [Part::AnyBytes, Part::AnyBytes] => Segment::AnySegments,
        _ => Segment::Parts(Parts { parts }),
    }
}
