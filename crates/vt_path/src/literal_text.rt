//! The text of a pattern that is written as one path alone.

ghost use Rattle.std.specs.Prelude.{◌≡◌, ◌≢◌, ◌+◌, ◌≤◌, ◌∷◌, ◌++◌, [], ℕ, List, length, take, IfSome, MatchBool, MatchOption};
ghost use Rattle.vt_path.specs.KeptPattern.{IsKeptPattern};
ghost use Rattle.vt_path.specs.LiteralText.{IsWrittenAs};
ghost use Rattle.vt_path.specs.Match.{byte_parts, literal_of, literal_segment};
ghost use Rattle.vt_path.specs.private.LiteralWriting.{AreBytes, IsSegmentWritten};

use crate::pattern::{Part, Pattern, Segment};

const MOST_SEGMENTS: usize = 16;

const MOST_BYTES: usize = 64;

impl Pattern {
    /// How many bytes the path has that the pattern is written as, if it is written as one path alone. They are put at the
    /// start of the buffer. It takes no memory.
    pub fn literal_text(&self, buffer: &mut [u8]) -> Option<usize>
        requires { 1040 ≤ length buffer.old }
        ensures text { MatchOption result ((path : List (List ℕ)) → self.now ≢ literal_of path) (λ count. IsWrittenAs self.now (take count buffer.new)) }
        ensures within { IfSome result (λ count. count ≤ length buffer.new) }
    {
        write_segments(self.segments.as_slice(), buffer)
    }
}

/// Puts the path that the segments are written as into the buffer.
fn write_segments(segments: &[Segment], buffer: &mut [u8]) -> Option<usize>
    requires kept { IsKeptPattern segments.now }
    requires room { 1040 ≤ length buffer.old }
    ensures text { MatchOption result ((path : List (List ℕ)) → segments.now ≢ literal_of path) (λ count. IsWrittenAs segments.now (take count buffer.new)) }
    ensures within { IfSome result (λ count. count ≤ length buffer.new) }
{
    if segments.len() > MOST_SEGMENTS {
        return None;
    }
    let mut count = 0;
    for segment in segments {
        match write_segment(segment, buffer, count) {
            Some(after) => count = after,
            None => return None,
        }
    }
    Some(count)
}

/// Puts a slash and the bytes that the segment is written as into the buffer, from this place on.
fn write_segment(segment: &Segment, buffer: &mut [u8], from: usize) -> Option<usize>
    requires { from + 65 ≤ length buffer.old }
    ensures text { MatchOption result ((bytes : List ℕ) → length bytes ≤ 64 → segment.now ≢ literal_segment bytes) (λ count. IsSegmentWritten segment.now (take from buffer.old) (take count buffer.new)) }
    ensures within { IfSome result (λ count. count ≤ from + 65) }
    ensures length { length buffer.new ≡ length buffer.old }
{
    match segment {
        Segment::AnySegments => None,
        Segment::Parts(parts) => write_parts(parts.parts.as_slice(), buffer, from),
    }
}

fn write_parts(parts: &[Part], buffer: &mut [u8], from: usize) -> Option<usize>
    requires { from + 65 ≤ length buffer.old }
    ensures text { MatchOption result ((bytes : List ℕ) → length bytes ≤ 64 → parts.now ≢ byte_parts bytes) (λ count. AreBytes parts.now (take from buffer.old ++ 47 ∷ []) (take count buffer.new)) }
    ensures within { IfSome result (λ count. count ≤ from + 65) }
    ensures length { length buffer.new ≡ length buffer.old }
{
    if parts.len() > MOST_BYTES {
        return None;
    }
    buffer[from] = b'/';
    if !write_bytes(parts, buffer, from + 1) {
        return None;
    }
    Some(from + 1 + parts.len())
}

/// Puts the bytes that the parts stand for into the buffer, from this place on, if each stands for one byte alone.
fn write_bytes(parts: &[Part], buffer: &mut [u8], from: usize) -> bool
    requires { from + length parts.now ≤ length buffer.old }
    ensures text { MatchBool result (AreBytes parts.now (take from buffer.old) (take (from + length parts.now) buffer.new)) ((bytes : List ℕ) → parts.now ≢ byte_parts bytes) }
    ensures length { length buffer.new ≡ length buffer.old }
{
    for (i, part) in parts.iter().enumerate() {
        match byte_of(part) {
            Some(byte) => buffer[from + i] = byte,
            None => return false,
        }
    }
    true
}

/// The byte that the part stands for, if it is one byte.
fn byte_of(part: &Part) -> Option<u8>
    ensures { MatchOption result ((byte : ℕ) → part.now ≢ Part.Byte byte) (λ byte. part.now ≡ Part.Byte byte) }
{
    match part {
        Part::Byte(byte) => Some(*byte),
        Part::AnyBytes => None,
        Part::AnyByte => None,
        Part::Set(_) => None,
        Part::Alternatives(_) => None,
    }
}
