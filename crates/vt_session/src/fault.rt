//! Why bytes are no session.
ghost use Rattle.std.specs.Prelude.{◌≡◌};

use std::alloc::{AllocError, AllocFailed};
use thiserror::Error;
use vt_frac::NoMemory;

/// The first line, from 1, that breaks a rule of sessions, or there is no memory.
#[derive(Clone, Copy, Debug, PartialEq, Eq, Error)]
pub enum SessionFault {
    #[error("bad session at line {line}")]
    BadSession { line: u32 },
    #[error("out of memory")]
    NoMemory,
}

impl From<NoMemory> for SessionFault {
    ghost use Rattle.vt_session.specs.declared.fault.SessionFault.TheVariants.{NoMemory};

    ghost from_gives = { λ _ e. e ≡ NoMemory };

    fn from(_: NoMemory) -> SessionFault {
        SessionFault::NoMemory
    }
}

impl From<AllocError> for SessionFault {
    ghost use Rattle.vt_session.specs.declared.fault.SessionFault.TheVariants.{NoMemory};

    ghost from_gives = { λ _ e. e ≡ NoMemory };

    fn from(_: AllocError) -> SessionFault {
        SessionFault::NoMemory
    }
}

impl<T: Drop> From<AllocFailed<T>> for SessionFault {
    ghost use Rattle.vt_session.specs.declared.fault.SessionFault.TheVariants.{NoMemory};

    ghost from_gives = { λ _ e. e ≡ NoMemory };

    fn from(_: AllocFailed<T>) -> SessionFault {
        SessionFault::NoMemory
    }
}
