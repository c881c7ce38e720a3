//! Whether a pattern matches a path. From the last segment of the pattern to the first, the places of the path are
//! marked from which the pattern matches what is left. So the cost is at most a product of the lengths.

ghost use Rattle.std.specs.Prelude.{◌≡◌, ◌+◌, ◌<◌, ◌≤◌, ◌↔◌, ℕ, [], length, drop, slice_index_or, IsTrue, false};
ghost use Rattle.std.specs.List.{All};
ghost use Rattle.vt_path.specs.private.Marks.{IsMarked, mark};
ghost use Rattle.vt_path.specs.Match.{Matches, MatchesBytes, MatchesSegments, byte_parts, literal_of, literal_segment};

use crate::marks::{mark_end, skip};
use crate::part_match::parts_match;
use crate::path::Path;
use crate::pattern::{Part, Pattern, Segment};
use vt_frac::Name;

const PLACES: usize = 17;

/// Whether the pattern matches the path. An inner path is matched by its own literal pattern alone.
pub fn matches(pattern: &Pattern, path: &Path) -> bool
    ensures { IsTrue result ↔ Matches pattern.now path.now }
{
    if path.is_inner() {
        return is_literal(pattern.segments.as_slice(), path.segments.as_slice());
    }
    segments_match(pattern.segments.as_slice(), path.segments.as_slice())
}

/// Whether the segments of the pattern match those of the path.
fn segments_match(pattern: &[Segment], path: &[Name]) -> bool
    requires few { length path.now ≤ 16 }
    requires short { All (λ segment. length segment ≤ 64) path.now }
    ensures { IsTrue result ↔ MatchesSegments pattern.now path.now }
{
    let mut marks = [false; PLACES];
    mark_end(&mut marks, path.len());
    let mut k = pattern.len();
    while k > 0 {
        k -= 1;
        mark_segment(&pattern[k..], path, &mut marks);
    }
    marks[0]
}

/// From the marks for all segments but the first, those for all.
fn mark_segment(pattern: &[Segment], path: &[Name], marks: &mut [bool])
    requires some { 0 < length pattern.now }
    requires room { length path.now < length marks.old }
    requires short { All (λ segment. length segment ≤ 64) path.now }
    requires marked { IsMarked (MatchesSegments (drop 1 pattern.now)) path.now marks.old }
    ensures { IsMarked (MatchesSegments pattern.now) path.now marks.new }
{
    let first = &pattern[0];
    match first {
        Segment::AnySegments => skip(marks, path.len()),
        Segment::Parts(parts) => mark_parts(parts.parts.as_slice(), path, marks),
    }
}

/// Marks the places at which the parts match the segment and the next place was marked.
fn mark_parts(parts: &[Part], path: &[Name], marks: &mut [bool])
    requires room { length path.now < length marks.old }
    requires short { All (λ segment. length segment ≤ 64) path.now }
    ensures end { mark marks.new (length path.now) ≡ false }
    ensures each { (i : ℕ) → i < length path.now → IsTrue (mark marks.new i) ↔ (MatchesBytes parts.now (slice_index_or path.now i []) × IsTrue (mark marks.old (i + 1))) }
{
    for (i, segment) in path.iter().enumerate() {
        marks[i] = marks[i + 1] && parts_match(parts, segment.as_bytes());
    }
    marks[path.len()] = false;
}

/// Whether the pattern is written as the path is.
fn is_literal(pattern: &[Segment], path: &[Name]) -> bool
    ensures { IsTrue result ↔ (pattern.now ≡ literal_of path.now) }
{
    if pattern.len() != path.len() {
        return false;
    }
    for (i, segment) in pattern.iter().enumerate() {
        if !is_literal_segment(segment, path[i].as_bytes()) {
            return false;
        }
    }
    true
}

fn is_literal_segment(segment: &Segment, bytes: &[u8]) -> bool
    ensures { IsTrue result ↔ (segment.now ≡ literal_segment bytes.now) }
{
    match segment {
        Segment::AnySegments => false,
        Segment::Parts(parts) => are_bytes(parts.parts.as_slice(), bytes),
    }
}

/// Whether the parts are these bytes.
fn are_bytes(parts: &[Part], bytes: &[u8]) -> bool
    ensures { IsTrue result ↔ (parts.now ≡ byte_parts bytes.now) }
{
    if parts.len() != bytes.len() {
        return false;
    }
    for (i, part) in parts.iter().enumerate() {
        if !is_byte(part, bytes[i]) {
            return false;
        }
    }
    true
}

fn is_byte(part: &Part, byte: u8) -> bool
    ensures { IsTrue result ↔ (part.now ≡ Part.Byte byte) }
{
    match part {
        Part::Byte(own) => *own == byte,
        Part::AnyBytes => false,
        Part::AnyByte => false,
        Part::Set(_) => false,
        Part::Alternatives(_) => false,
    }
}
