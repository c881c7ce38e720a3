//! Whether the parts of a segment match its bytes. From the last part to the first, the places of the segment are
//! marked from which the parts match what is left. So the cost is at most a product of the lengths.

ghost use Rattle.std.specs.Prelude.{◌≡◌, ◌+◌, ◌<◌, ◌≤◌, ◌↔◌, ℕ, length, drop, slice_index, IsTrue, false};
ghost use Rattle.vt_path.specs.private.Marks.{IsMarked, SomeName, TakesByte, mark};
ghost use Rattle.vt_path.specs.Match.{Holds, MatchesBytes};

use crate::marks::{mark_end, skip};
use crate::pattern::Part;
use vt_frac::Name;

const PLACES: usize = 65;

/// Whether the parts match the bytes.
pub fn parts_match(parts: &[Part], bytes: &[u8]) -> bool
    requires { length bytes.now ≤ 64 }
    ensures { IsTrue result ↔ MatchesBytes parts.now bytes.now }
{
    let mut marks = [false; PLACES];
    mark_end(&mut marks, bytes.len());
    let mut k = parts.len();
    while k > 0 {
        k -= 1;
        mark_part(&parts[k..], bytes, &mut marks);
    }
    marks[0]
}

/// From the marks for all parts but the first, those for all.
fn mark_part(parts: &[Part], bytes: &[u8], marks: &mut [bool])
    requires some { 0 < length parts.now }
    requires room { length bytes.now < length marks.old }
    requires marked { IsMarked (MatchesBytes (drop 1 parts.now)) bytes.now marks.old }
    ensures { IsMarked (MatchesBytes parts.now) bytes.now marks.new }
{
    let first = &parts[0];
    match first {
        Part::AnyBytes => skip(marks, bytes.len()),
        Part::Alternatives(names) => mark_names(names.names.as_slice(), bytes, marks),
        Part::Byte(_) => mark_one(first, bytes, marks),
        Part::AnyByte => mark_one(first, bytes, marks),
        Part::Set(_) => mark_one(first, bytes, marks),
    }
}

/// Marks the places at which the part takes the byte and the next place was marked.
fn mark_one(part: &Part, bytes: &[u8], marks: &mut [bool])
    requires { length bytes.now < length marks.old }
    ensures end { mark marks.new (length bytes.now) ≡ false }
    ensures each { (i : ℕ) → i < length bytes.now → IsTrue (mark marks.new i) ↔ (TakesByte part.now (slice_index bytes.now i) × IsTrue (mark marks.old (i + 1))) }
{
    for (i, byte) in bytes.iter().enumerate() {
        marks[i] = marks[i + 1] && takes_byte(part, *byte);
    }
    marks[bytes.len()] = false;
}

fn takes_byte(part: &Part, byte: u8) -> bool
    ensures { IsTrue result ↔ TakesByte part.now byte }
{
    match part {
        Part::Byte(own) => byte == *own,
        Part::AnyByte => true,
        Part::Set(held) => holds(held.as_bytes(), byte),
        Part::AnyBytes => false,
        Part::Alternatives(_) => false,
    }
}

/// Whether brackets with these bytes between them hold the byte.
fn holds(held: &[u8], byte: u8) -> bool
    ensures { IsTrue result ↔ Holds held.now byte }
{
    let mut i = 0;
    while i < held.len() {
        if i + 2 < held.len() && held[i + 1] == b'-' {
            if held[i] <= byte && byte <= held[i + 2] {
                return true;
            }
            i += 3;
        } else {
            if held[i] == byte {
                return true;
            }
            i += 1;
        }
    }
    false
}

/// Marks the places at which some name stands and the place after it was marked.
fn mark_names(names: &[Name], bytes: &[u8], marks: &mut [bool])
    requires { length bytes.now < length marks.old }
    ensures { (i : ℕ) → i ≤ length bytes.now → IsTrue (mark marks.new i) ↔ SomeName names.now bytes.now marks.old i }
{
    for i in 0..bytes.len() + 1 {
        marks[i] = some_name(names, bytes, marks, i);
    }
}

/// Whether some name stands at the place, and the place after it is marked.
fn some_name(names: &[Name], bytes: &[u8], marks: &[bool], i: usize) -> bool
    requires place { i ≤ length bytes.now }
    requires room { length bytes.now < length marks.now }
    ensures { IsTrue result ↔ SomeName names.now bytes.now marks.now i }
{
    for name in names {
        if bytes[i..].starts_with(name.as_bytes()) && marks[i + name.as_bytes().len()] {
            return true;
        }
    }
    false
}
