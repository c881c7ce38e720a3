//! Patterns that are made: of a path, and of a bare name.

ghost use Rattle.std.specs.Prelude.{◌≡◌, ◌↔◌, ◌++◌, ℕ, List, IfOk, IsTrue};
ghost use Rattle.vt_path.specs.AnyOf.{IsNamed, any_of_name, any_of_text};
ghost use Rattle.vt_frac.specs.Names.{is_symbol_name};
ghost use Rattle.vt_path.specs.Match.{Matches, literal_of, literal_segment};
ghost use Rattle.vt_path.specs.Pattern.{IsPattern, pattern_text};

use crate::names::Names;
use crate::path::Path;
use crate::pattern::{Part, Parts, Pattern, Segment};
use std::alloc::Global;
use vt_frac::{Name, NoMemory};

/// The pattern that matches this path alone.
pub fn literal(alloc: Global, path: &Path) -> Result<Pattern, NoMemory>
    ensures value { IfOk result (λ pattern. pattern ≡ literal_of path.now) }
    ensures alone { IfOk result (λ pattern. (other : List (List ℕ)) → Matches pattern other ↔ (other ≡ path.now)) }
{
    Ok(Pattern {
        segments: literal_segments(alloc, path.segments.as_slice())?,
    })
}

fn literal_segments(alloc: Global, path: &[Name]) -> Result<Vec<Segment>, NoMemory>
    ensures { IfOk result (λ segments. segments.items ≡ literal_of path.now) }
{
    let mut segments = Vec::new(alloc);
    for segment in path {
        segments.push(literal_of_segment(alloc, segment.as_bytes())?)?;
    }
    Ok(segments)
}

/// The pattern `/{cue,set,live_loop}/NAME`, which matches the paths that a name stands for.
pub fn any_of(alloc: Global, name: &[u8]) -> Result<Pattern, NoMemory>
    requires { IsTrue (is_symbol_name name.now) }
    ensures value { IfOk result (λ pattern. pattern ≡ any_of_name name.now) }
    ensures pattern { IfOk result (λ pattern. IsPattern pattern) }
    ensures written { IfOk result (λ pattern. pattern_text pattern ≡ any_of_text ++ name.now) }
    ensures matches { IfOk result (λ pattern. (path : List (List ℕ)) → Matches pattern path ↔ IsNamed name.now path) }
{
    Ok(Pattern {
        segments: any_of_segments(alloc, name)?,
    })
}

fn any_of_segments(alloc: Global, name: &[u8]) -> Result<Vec<Segment>, NoMemory>
    ensures { IfOk result (λ segments. segments.items ≡ any_of_name name.now) }
{
    let mut names = Vec::new(alloc);
    names.push(Name::of(alloc, b"cue")?)?;
    names.push(Name::of(alloc, b"set")?)?;
    names.push(Name::of(alloc, b"live_loop")?)?;
    let mut parts = Vec::new(alloc);
    parts.push(Part::Alternatives(Names { names }))?;
    let mut segments = Vec::new(alloc);
    segments.push(Segment::Parts(Parts { parts }))?;
    segments.push(literal_of_segment(alloc, name)?)?;
    Ok(segments)
}

/// The segment of a pattern that matches these bytes alone.
fn literal_of_segment(alloc: Global, bytes: &[u8]) -> Result<Segment, NoMemory>
    ensures { IfOk result (λ segment. segment ≡ literal_segment bytes.now) }
{
    let mut parts = Vec::new(alloc);
    for byte in bytes {
        parts.push(Part::Byte(*byte))?;
    }
    Ok(Segment::Parts(Parts { parts }))
}
