//! Why nothing was read.
use std::alloc::AllocError;
use vt_frac::NoMemory;

/// Why nothing was read: the token where the parser stands goes on with nothing, or there is no memory.
#[derive(Drop)]
pub enum Fault {
    Here,
    NoMemory,
}

impl From<AllocError> for Fault {
    fn from(_: AllocError) -> Fault {
        Fault::NoMemory
    }

    ghost use Rattle.std.specs.Prelude.{◌≡◌};
    ghost use Rattle.vt_build.specs.declared.fault.Fault.TheVariants.{NoMemory};

    ghost from_gives = { λ _ e. e ≡ NoMemory };
}

impl From<NoMemory> for Fault {
    fn from(_: NoMemory) -> Fault {
        Fault::NoMemory
    }

    ghost use Rattle.std.specs.Prelude.{◌≡◌};
    ghost use Rattle.vt_build.specs.declared.fault.Fault.TheVariants.{NoMemory};

    ghost from_gives = { λ _ e. e ≡ NoMemory };
}
