//! Inner paths, under which a program keeps bodies, functions and names, and stops of live loops.

ghost use Rattle.std.specs.Prelude.{◌≡◌, IfOk, IsTrue};
ghost use Rattle.vt_frac.specs.Names.{is_symbol_name};
ghost use Rattle.vt_path.specs.Inner.{inner_of, kind_word};

use crate::path::Path;
use std::alloc::Global;
use vt_frac::{Name, NoMemory};

/// What an inner path is for.
#[derive(Clone, Copy, Debug, PartialEq, Eq)]
pub enum InnerKind {
    /// `/!body/NAME`: the body of a live loop.
    Body,
    /// `/!def/NAME`: a defined function.
    Def,
    /// `/!name/NAME`: a named thread.
    Named,
    /// `/!loop/NAME`: the thread of a live loop.
    Looped,
    /// `/!stop/NAME`: that a live loop is to stop.
    Stop,
}

impl InnerKind {
    /// The first segment of its paths.
    fn word(self) -> &'static [u8]
        ensures { result.now ≡ kind_word self }
    {
        match self {
            InnerKind::Body => b"!body",
            InnerKind::Def => b"!def",
            InnerKind::Named => b"!name",
            InnerKind::Looped => b"!loop",
            InnerKind::Stop => b"!stop",
        }
    }
}

/// The inner path of this kind and name, such as `/!body/NAME`. No user writes it.
pub fn inner(alloc: Global, kind: InnerKind, name: &[u8]) -> Result<Path, NoMemory>
    requires { IsTrue (is_symbol_name name.now) }
    ensures { IfOk result (λ path. path ≡ inner_of kind name.now) }
{
    let mut segments = Vec::new(alloc);
    segments.push(Name::of(alloc, kind.word())?)?;
    segments.push(Name::of(alloc, name)?)?;
    Ok(Path { segments })
}
