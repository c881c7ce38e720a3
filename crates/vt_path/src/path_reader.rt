//! Reads a path, byte by byte.

ghost use Rattle.std.specs.Prelude.{◌≡◌, [], ◌∷◌, IfOk, IfErr};
ghost use Rattle.vt_path.specs.Path.{IsPath, IsPathText, path_text};
ghost use Rattle.vt_path.specs.Stop.{IsCause};
ghost use Rattle.vt_path.specs.private.PathReading.{IsSound, Takes, Ends};

use crate::bytes::is_path_byte;
use crate::fault::PathFault;
use crate::path::Path;
use std::alloc::Global;
use vt_frac::{Name, NoMemory};

const MOST_SEGMENTS: usize = 16;

const MOST_BYTES: usize = 64;

/// The path that these bytes are.
pub fn parse_path(alloc: Global, bytes: &[u8]) -> Result<Path, PathFault>
    ensures path { IfOk result (λ path. IsPath path) }
    ensures written { IfOk result (λ path. bytes.now ≡ path_text path) }
    ensures refused { IfErr result (IsCause IsPathText bytes.now) }
{
    let [first, rest @ ..] = bytes else {
        return Err(PathFault::BadPath(0));
    };
    if *first != b'/' {
        return Err(PathFault::BadPath(0));
    }
    after_slash(alloc, rest)
}

/// The path that these bytes are after its first slash (47).
fn after_slash(alloc: Global, rest: &[u8]) -> Result<Path, PathFault>
    ensures path { IfOk result (λ path. IsPath path) }
    ensures written { IfOk result (λ path. 47 ∷ rest.now ≡ path_text path) }
    ensures refused { IfErr result (IsCause IsPathText (47 ∷ rest.now)) }
{
    let mut reader = PathReader::new(alloc);
    for (i, byte) in rest.iter().enumerate() {
        let taken = reader.takes(alloc, *byte)?;
        if !taken {
            return Err(PathFault::BadPath(i as u32 + 1));
        }
    }
    match reader.path(alloc)? {
        Some(path) => Ok(path),
        None => Err(PathFault::BadPath(rest.len() as u32 + 1)),
    }
}

/// The segments that were read, and the bytes of the one that is being read.
#[derive(Drop)]
struct PathReader {
    done: Vec<Name>,
    bytes: Vec<u8>,
}

impl PathReader {
    fn new(alloc: Global) -> PathReader
        ensures done { result.done.items ≡ [] }
        ensures bytes { result.bytes.items ≡ [] }
    {
        PathReader {
            done: Vec::new(alloc),
            bytes: Vec::new(alloc),
        }
    }

    /// Takes the next byte, if a path goes on with it.
    fn takes(&mut self, alloc: Global, byte: u8) -> Result<bool, NoMemory>
        requires { IsSound self.old.done.items self.old.bytes.items }
        ensures { IfOk result (Takes self.old.done.items self.old.bytes.items byte self.new.done.items self.new.bytes.items) }
    {
        if byte == b'/' {
            return self.closes(alloc);
        }
        if !is_path_byte(byte) || self.bytes.len() == MOST_BYTES {
            return Ok(false);
        }
        self.bytes.push(byte)?;
        Ok(true)
    }

    /// Ends the segment that is being read, and begins another, if a path may have both.
    fn closes(&mut self, alloc: Global) -> Result<bool, NoMemory>
        requires { IsSound self.old.done.items self.old.bytes.items }
        ensures { IfOk result (Takes self.old.done.items self.old.bytes.items 47 self.new.done.items self.new.bytes.items) }
    {
        if self.bytes.is_empty() || self.done.len() + 1 == MOST_SEGMENTS {
            return Ok(false);
        }
        let segment = Name::of(alloc, self.bytes.as_slice())?;
        self.done.push(segment)?;
        self.bytes.clear();
        Ok(true)
    }

    /// The path that was read, if no more is wanted.
    fn path(self, alloc: Global) -> Result<Option<Path>, NoMemory>
        requires { IsSound self.done.items self.bytes.items }
        ensures { IfOk result (Ends self.done.items self.bytes.items) }
    {
        let PathReader { done, bytes } = self;
        if bytes.is_empty() {
            return Ok(None);
        }
        let mut segments = done;
        segments.push(Name::of(alloc, bytes.as_slice())?)?;
        Ok(Some(Path { segments }))
    }
}
