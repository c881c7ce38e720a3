//! The faults of a text that has no tokens.
ghost use Rattle.std.specs.Prelude.{◌≡◌};
ghost use Rattle.vt_lex.specs.Faults.{lex_word};

use std::alloc::{AllocError, AllocFailed};
use std::fmt;
use thiserror::Error;
use vt_frac::NoMemory;

/// Why no token is formed, at the first byte of that token.
#[derive(Clone, Copy, Debug, PartialEq, Eq)]
pub enum LexKind {
    /// No token can be formed at this byte, and none of the other kinds is named for it.
    Byte,
    /// A text does not end on its line, has an unknown escape, or holds `#{` in double quotes.
    Text,
    /// A number has too many digits or does not fit.
    Number,
    /// A name, label or symbol has more than 64 bytes, or a text more than 4,096 bytes of value.
    Long,
}

impl LexKind {
    /// Its word in a verdict.
    pub fn word(self) -> &'static str
        ensures { result.now ≡ lex_word self }
    {
        match self {
            LexKind::Byte => "byte",
            LexKind::Text => "text",
            LexKind::Number => "number",
            LexKind::Long => "long",
        }
    }
}

impl fmt::Display for LexKind {
    ghost use Rattle.std.specs.Prelude.{Some};
    ghost use Rattle.vt_lex.specs.Faults.{lex_word};

    ghost output = { λ kind. Some (lex_word kind) };

    fn fmt<W: fmt::Write>(&self, f: &mut fmt::Formatter<W>) -> fmt::Result {
        f.write_str(self.word())
    }
}

/// Why a text has no tokens: its first fault with the line where it stands, or there is no memory.
#[derive(Clone, Copy, Debug, PartialEq, Eq, Error)]
pub enum LexFault {
    #[error("line {line}: {kind}")]
    At { line: u32, kind: LexKind },
    #[error("out of memory")]
    NoMemory,
}

impl From<NoMemory> for LexFault {
    ghost use Rattle.vt_lex.specs.declared.fault.LexFault.TheVariants.{NoMemory};

    ghost from_gives = { λ _ e. e ≡ NoMemory };

    fn from(_: NoMemory) -> LexFault {
        LexFault::NoMemory
    }
}

impl From<AllocError> for LexFault {
    ghost use Rattle.vt_lex.specs.declared.fault.LexFault.TheVariants.{NoMemory};

    ghost from_gives = { λ _ e. e ≡ NoMemory };

    fn from(_: AllocError) -> LexFault {
        LexFault::NoMemory
    }
}

impl<T: Drop> From<AllocFailed<T>> for LexFault {
    ghost use Rattle.vt_lex.specs.declared.fault.LexFault.TheVariants.{NoMemory};

    ghost from_gives = { λ _ e. e ≡ NoMemory };

    fn from(_: AllocFailed<T>) -> LexFault {
        LexFault::NoMemory
    }
}
