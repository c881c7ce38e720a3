//! Paths of events.

ghost use Rattle.std.specs.Prelude.{◌≡◌, ◌++◌, IfOk, OnErr, OnOk};
ghost use Rattle.vt_path.specs.Kept.{IsKeptPath};
ghost use Rattle.vt_path.specs.Path.{path_text};
ghost use Rattle.vt_path.specs.Match.{is_inner};

use crate::names::copy_names;
use std::alloc::Global;
use std::marker::Model;
use vt_frac::{Name, NoMemory};

/// The path of an event: its segments, in order. Contracts see it as the list of their bytes.
#[derive(Debug, Drop)]
pub struct Path {
    pub(crate) segments: Vec<Name>,
}

impl Model for Path {
    ghost use Rattle.std.specs.Prelude.{List, ℕ};

    ghost Value = { List (List ℕ) };

    ghost use Rattle.vt_path.specs.Kept.{IsKeptPath};

    ghost view = { λ path. path.segments.items };

    ghost invariant = { λ path. IsKeptPath path.segments.items };
}

impl Path {
    /// An equal path.
    pub fn copy(&self, alloc: Global) -> Result<Path, NoMemory>
        ensures { IfOk result (λ path. path ≡ self.now) }
    {
        Ok(Path {
            segments: copy_names(alloc, self.segments.as_slice())?,
        })
    }

    /// Appends the path as it is written. Each path is one of a program.
    pub fn write(&self, alloc: Global, out: &mut Vec<u8>) -> Result<(), NoMemory>
        ensures ok { OnOk result (out.new.items ≡ out.old.items ++ path_text self.now) }
        ensures err { OnErr result (out.new.items ≡ out.old.items) }
        ensures kept { IsKeptPath self.now }
    {
        let text = path_bytes(alloc, self.segments.as_slice())?;
        out.extend_from_slice(text.as_slice())?;
        Ok(())
    }

    /// Whether it is an inner path.
    pub(crate) fn is_inner(&self) -> bool
        ensures { result ≡ is_inner self.now }
    {
        if self.segments.is_empty() {
            return false;
        }
        let first = self.segments[0].as_bytes();
        !first.is_empty() && first[0] == b'!'
    }
}

fn path_bytes(alloc: Global, segments: &[Name]) -> Result<Vec<u8>, NoMemory>
    ensures { IfOk result (λ text. text.items ≡ path_text segments.now) }
{
    let mut text = Vec::new(alloc);
    for segment in segments {
        text.push(b'/')?;
        text.extend_from_slice(segment.as_bytes())?;
    }
    Ok(text)
}
