//! The faults of a tree that is not allowed.

ghost use Rattle.std.specs.Prelude.{◌≡◌};
ghost use Rattle.vt_check.specs.Faults.{check_word};

use std::fmt;
use thiserror::Error;
use vt_frac::NoMemory;

/// What a check refuses, in the order in which the checks are answered at one call.
#[derive(Clone, Copy, Debug, PartialEq, Eq)]
pub enum CheckKind {
    /// `define` elsewhere than as a statement of the text itself.
    DefinePlace,
    /// A name that is no literal symbol.
    Name,
    /// `define` of a name of the call table.
    Taken,
    /// A name after a dot that may not stand there, or one that must.
    Method,
    /// Too few or too many arguments.
    Count,
    /// An option that the call does not take, or one given twice.
    Opt,
    /// A block that is missing, or that may not be there.
    Block,
    /// Too many parameters, or two of one name.
    Params,
    /// A literal text that is no path or pattern.
    Path,
}

impl CheckKind {
    /// Its word in a verdict.
    pub fn word(self) -> &'static str
        ensures { result.now ≡ check_word self }
    {
        match self {
            CheckKind::DefinePlace => "define_place",
            CheckKind::Name => "name",
            CheckKind::Taken => "taken",
            CheckKind::Method => "method",
            CheckKind::Count => "count",
            CheckKind::Opt => "option",
            CheckKind::Block => "block",
            CheckKind::Params => "params",
            CheckKind::Path => "path",
        }
    }
}

impl fmt::Display for CheckKind {
    ghost use Rattle.std.specs.Prelude.{Some};
    ghost use Rattle.vt_check.specs.Faults.{check_word};

    ghost output = { λ kind. Some (check_word kind) };

    fn fmt<W: fmt::Write>(&self, f: &mut fmt::Formatter<W>) -> fmt::Result {
        f.write_str(self.word())
    }
}

impl std::error::Error for CheckKind {}

/// Why a tree is not checked.
#[derive(Clone, Copy, Debug, PartialEq, Eq, Error)]
pub enum CheckFault {
    /// The first fault in the order of the tokens, with the line of the innermost statement that it stands in.
    #[error("line {line}: {kind}")]
    At { line: u32, kind: CheckKind },
    #[error("out of memory")]
    NoMemory,
}

impl From<NoMemory> for CheckFault {
    ghost use Rattle.std.specs.Prelude.{◌≡◌};
    ghost use Rattle.vt_check.specs.declared.fault.CheckFault.TheVariants.{NoMemory};

    ghost from_gives = { λ _ fault. fault ≡ NoMemory };

    fn from(_: NoMemory) -> CheckFault {
        CheckFault::NoMemory
    }
}
