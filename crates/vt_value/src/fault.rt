//! Why a thread ends by a fault, and why there is no value.

ghost use Rattle.std.specs.Prelude.{◌≡◌};
ghost use Rattle.vt_value.specs.Faults.{fault_word};

use std::error::Error;
use std::fmt;
use vt_frac::NoMemory;

/// Why a thread ends by a fault, or a text is refused.
#[derive(Clone, Copy, Debug, PartialEq, Eq)]
pub enum FaultKind {
    /// A number is out of its range.
    Overflow,
    /// The divisor is 0.
    ZeroDivisor,
    /// A value is of a kind that does not go here.
    WrongKind,
    /// A number is outside what its place allows.
    BadValue,
    /// A symbol is no note.
    BadNote,
    /// A text is no path or pattern.
    BadPath,
    /// A ring without an item is asked for one.
    EmptyRing,
    /// A text, a ring or its size is above the limits.
    TooLarge,
    /// Blocks, calls and brackets are too deep within one another.
    TooDeep,
    /// Threads are started too deep within one another.
    TooNested,
    /// No local, call or function has this name.
    UnknownName,
    /// A call has too few or too many arguments.
    WrongCount,
    /// A turn of a loop neither slept nor waited.
    NoSleep,
    /// A text has a token that cannot be formed.
    Lex,
    /// A text is not of the grammar.
    Syntax,
    /// A text has a call that is not allowed.
    Check,
}

impl FaultKind {
    /// Its word in a score.
    pub fn word(self) -> &'static str
        ensures { result.now ≡ fault_word self }
    {
        match self {
            FaultKind::Overflow => "overflow",
            FaultKind::ZeroDivisor => "zero_divisor",
            FaultKind::WrongKind => "wrong_kind",
            FaultKind::BadValue => "bad_value",
            FaultKind::BadNote => "bad_note",
            FaultKind::BadPath => "bad_path",
            FaultKind::EmptyRing => "empty_ring",
            FaultKind::TooLarge => "too_large",
            FaultKind::TooDeep => "too_deep",
            FaultKind::TooNested => "too_nested",
            FaultKind::UnknownName => "unknown_name",
            FaultKind::WrongCount => "wrong_count",
            FaultKind::NoSleep => "no_sleep",
            FaultKind::Lex => "lex",
            FaultKind::Syntax => "syntax",
            FaultKind::Check => "check",
        }
    }
}

impl fmt::Display for FaultKind {
    ghost use Rattle.std.specs.Prelude.{Some};
    ghost use Rattle.vt_value.specs.Faults.{fault_word};

    ghost output = { λ kind. Some (fault_word kind) };

    fn fmt<W: fmt::Write>(&self, f: &mut fmt::Formatter<W>) -> fmt::Result {
        f.write_str(self.word())
    }
}

impl Error for FaultKind {}

/// Why there is no value for an answer.
#[derive(Clone, Copy, Debug, PartialEq, Eq, thiserror::Error)]
pub enum ValueFault {
    /// By the rules of the language.
    #[error("{0}")]
    Fault(FaultKind),
    /// For want of memory.
    #[error("out of memory")]
    NoMemory,
}

impl From<NoMemory> for ValueFault {
    ghost use Rattle.std.specs.Prelude.{◌≡◌};
    ghost use Rattle.vt_value.specs.declared.fault.ValueFault.TheVariants.{NoMemory};

    ghost from_gives = { λ _ fault. fault ≡ NoMemory };

    fn from(_: NoMemory) -> ValueFault {
        ValueFault::NoMemory
    }
}

impl From<FaultKind> for ValueFault {
    ghost use Rattle.std.specs.Prelude.{◌≡◌};
    ghost use Rattle.vt_value.specs.declared.fault.ValueFault.TheVariants.{Fault};

    ghost from_gives = { λ kind fault. fault ≡ Fault kind };

    fn from(kind: FaultKind) -> ValueFault {
        ValueFault::Fault(kind)
    }
}
