//! Patterns of paths, and their parts.

ghost use Rattle.std.specs.Prelude.{◌≡◌, ◌∷◌, ◌++◌, [], IfOk, OnErr, OnOk};
ghost use Rattle.vt_path.specs.InnerPattern.{begins_inner, is_inner_pattern};
ghost use Rattle.vt_path.specs.Pattern.{part_text, parts_text, pattern_text, segment_text};

use crate::names::{Names, copy_names, names_bytes};
use std::alloc::Global;
use std::marker::Model;
use vt_frac::{Name, NoMemory};

/// A pattern of paths: its segments, in order. Contracts see it as their list.
#[derive(Debug, Drop)]
pub struct Pattern {
    pub(crate) segments: Vec<Segment>,
}

impl Model for Pattern {
    ghost use Rattle.std.specs.Prelude.{List};
    ghost use Rattle.vt_path.specs.declared.pattern.Segment.{Segment};

    ghost Value = { List Segment };

    ghost use Rattle.vt_path.specs.KeptPattern.{IsKeptPattern};

    ghost view = { λ pattern. pattern.segments.items };

    ghost invariant = { λ pattern. IsKeptPattern pattern.segments.items };
}

/// A segment of a pattern.
#[derive(Debug, Drop)]
pub enum Segment {
    /// `**`: any number of segments of a path.
    AnySegments,
    /// One segment of a path, whose bytes these parts match.
    Parts(Parts),
}

/// The parts of one segment, in order. Contracts see them as their list.
#[derive(Debug, Drop)]
pub struct Parts {
    pub(crate) parts: Vec<Part>,
}

impl Model for Parts {
    ghost use Rattle.std.specs.Prelude.{List};
    ghost use Rattle.vt_path.specs.declared.pattern.Part.{Part};

    ghost Value = { List Part };

    ghost view = { λ parts. parts.parts.items };
}

/// A part of a segment of a pattern.
#[derive(Debug, Drop)]
pub enum Part {
    /// This byte.
    Byte(u8),
    /// `*`: any bytes.
    AnyBytes,
    /// `?`: one byte.
    AnyByte,
    /// `[..]`: one byte that it holds. These are the bytes between the brackets.
    Set(Name),
    /// `{..}`: one of these.
    Alternatives(Names),
}

impl Pattern {
    /// An equal pattern.
    pub fn copy(&self, alloc: Global) -> Result<Pattern, NoMemory>
        ensures { IfOk result (λ pattern. pattern ≡ self.now) }
    {
        Ok(Pattern {
            segments: copy_segments(alloc, self.segments.as_slice())?,
        })
    }

    /// Appends the pattern as it is written.
    pub fn write(&self, alloc: Global, out: &mut Vec<u8>) -> Result<(), NoMemory>
        ensures ok { OnOk result (out.new.items ≡ out.old.items ++ pattern_text self.now) }
        ensures err { OnErr result (out.new.items ≡ out.old.items) }
    {
        let text = pattern_bytes(alloc, self.segments.as_slice())?;
        out.extend_from_slice(text.as_slice())?;
        Ok(())
    }

    /// Whether it is the pattern of an inner path. No other pattern matches one.
    pub fn is_inner(&self) -> bool
        ensures { result ≡ is_inner_pattern self.now }
    {
        match self.segments.as_slice() {
            [] => false,
            [first, ..] => first.begins_inner(),
        }
    }
}

fn copy_segments(alloc: Global, segments: &[Segment]) -> Result<Vec<Segment>, NoMemory>
    ensures { IfOk result (λ copies. copies.items ≡ segments.now) }
{
    let mut copies = Vec::new(alloc);
    for segment in segments {
        copies.push(segment.copy(alloc)?)?;
    }
    Ok(copies)
}

fn pattern_bytes(alloc: Global, segments: &[Segment]) -> Result<Vec<u8>, NoMemory>
    ensures { IfOk result (λ text. text.items ≡ pattern_text segments.now) }
{
    let mut text = Vec::new(alloc);
    for segment in segments {
        text.push(b'/')?;
        let bytes = segment.bytes(alloc)?;
        text.extend_from_slice(bytes.as_slice())?;
    }
    Ok(text)
}

impl Segment {
    /// Whether its first byte is `!`.
    fn begins_inner(&self) -> bool
        ensures { result ≡ is_inner_pattern (self.now ∷ []) }
    {
        match self {
            Segment::AnySegments => false,
            Segment::Parts(parts) => begins_inner(parts.parts.as_slice()),
        }
    }

    fn copy(&self, alloc: Global) -> Result<Segment, NoMemory>
        ensures { IfOk result (λ segment. segment ≡ self.now) }
    {
        match self {
            Segment::AnySegments => Ok(Segment::AnySegments),
            Segment::Parts(parts) => {
                let parts = copy_parts(alloc, parts.parts.as_slice())?;
                Ok(Segment::Parts(Parts { parts }))
            }
        }
    }

    fn bytes(&self, alloc: Global) -> Result<Vec<u8>, NoMemory>
        ensures { IfOk result (λ text. text.items ≡ segment_text self.now) }
    {
        match self {
            Segment::AnySegments => Ok(Vec::from_slice(alloc, b"**")?),
            Segment::Parts(parts) => parts_bytes(alloc, parts.parts.as_slice()),
        }
    }
}

fn begins_inner(parts: &[Part]) -> bool
    ensures { result ≡ begins_inner parts.now }
{
    match parts {
        [] => false,
        [first, ..] => is_mark(first),
    }
}

/// Whether it is the byte `!`.
fn is_mark(part: &Part) -> bool
    ensures { result ≡ begins_inner (part.now ∷ []) }
{
    match part {
        Part::Byte(byte) => *byte == b'!',
        Part::AnyBytes => false,
        Part::AnyByte => false,
        Part::Set(_) => false,
        Part::Alternatives(_) => false,
    }
}

fn copy_parts(alloc: Global, parts: &[Part]) -> Result<Vec<Part>, NoMemory>
    ensures { IfOk result (λ copies. copies.items ≡ parts.now) }
{
    let mut copies = Vec::new(alloc);
    for part in parts {
        copies.push(part.copy(alloc)?)?;
    }
    Ok(copies)
}

fn parts_bytes(alloc: Global, parts: &[Part]) -> Result<Vec<u8>, NoMemory>
    ensures { IfOk result (λ text. text.items ≡ parts_text parts.now) }
{
    let mut text = Vec::new(alloc);
    for part in parts {
        let bytes = part.bytes(alloc)?;
        text.extend_from_slice(bytes.as_slice())?;
    }
    Ok(text)
}

impl Part {
    fn copy(&self, alloc: Global) -> Result<Part, NoMemory>
        ensures { IfOk result (λ part. part ≡ self.now) }
    {
        match self {
            Part::Byte(byte) => Ok(Part::Byte(*byte)),
            Part::AnyBytes => Ok(Part::AnyBytes),
            Part::AnyByte => Ok(Part::AnyByte),
            Part::Set(held) => Ok(Part::Set(held.copy(alloc)?)),
            Part::Alternatives(names) => {
                let names = copy_names(alloc, names.names.as_slice())?;
                Ok(Part::Alternatives(Names { names }))
            }
        }
    }

    fn bytes(&self, alloc: Global) -> Result<Vec<u8>, NoMemory>
        ensures { IfOk result (λ text. text.items ≡ part_text self.now) }
    {
        match self {
            Part::Byte(byte) => one_byte(alloc, *byte),
            Part::AnyBytes => one_byte(alloc, b'*'),
            Part::AnyByte => one_byte(alloc, b'?'),
            Part::Set(held) => between(alloc, b'[', held.as_bytes(), b']'),
            Part::Alternatives(names) => {
                let bytes = names_bytes(alloc, names.names.as_slice())?;
                between(alloc, b'{', bytes.as_slice(), b'}')
            }
        }
    }
}

fn one_byte(alloc: Global, byte: u8) -> Result<Vec<u8>, NoMemory>
    ensures { IfOk result (λ text. text.items ≡ byte ∷ []) }
{
    Ok(Vec::from_slice(alloc, &[byte])?)
}

/// These bytes between two others.
fn between(alloc: Global, first: u8, bytes: &[u8], last: u8) -> Result<Vec<u8>, NoMemory>
    ensures { IfOk result (λ text. text.items ≡ first ∷ (bytes.now ++ last ∷ [])) }
{
    let mut text = Vec::new(alloc);
    text.push(first)?;
    text.extend_from_slice(bytes)?;
    text.push(last)?;
    Ok(text)
}
