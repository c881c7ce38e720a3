//! Why there is no path or pattern.

use thiserror::Error;
use vt_frac::NoMemory;

/// Why bytes gave no path or no pattern.
#[derive(Clone, Copy, Debug, PartialEq, Eq, Error)]
pub enum PathFault {
    /// The bytes are none. The number is the place of the first byte that none continues with, or the length where
    /// the bytes end too early.
    #[error("no path or pattern goes on so at byte {0}")]
    BadPath(u32),
    #[error("out of memory")]
    NoMemory,
}

impl From<NoMemory> for PathFault {
    ghost use Rattle.std.specs.Prelude.{◌≡◌};
    ghost use Rattle.vt_path.specs.declared.fault.PathFault.TheVariants.{NoMemory};

    ghost from_gives = { λ _ fault. fault ≡ NoMemory };

    fn from(_: NoMemory) -> PathFault {
        PathFault::NoMemory
    }
}
