//! How a thread starts.

ghost use Rattle.std.specs.Prelude.{◌≡◌, IfOk};

use crate::{Role, Settings};
use std::alloc::Global;
use vt_event::{BlockRef, Locals, Place};
use vt_frac::{Frac, NoMemory};

/// How a thread starts. The thread is that of its place.
#[derive(Drop)]
pub struct Start {
    /// The place of its first action.
    pub place: Place,
    /// What it runs: a text, or the block of the `in_thread`, `live_loop` or `at` that started it.
    pub block: BlockRef,
    /// Its locals.
    pub locals: Locals,
    /// Its settings.
    pub settings: Settings,
    /// The seed of its random stream.
    pub seed: u64,
    /// Its part in the session.
    pub role: Role,
    /// The horizon, in seconds.
    pub until: Frac,
}

impl Start {
    /// An equal start.
    pub fn copy(&self, alloc: Global) -> Result<Start, NoMemory>
        ensures { IfOk result (λ start. start ≡ self.now) }
    {
        let locals = self.locals.copy(alloc)?;
        let place = self.place.copy(alloc)?;
        let role = self.role.copy(alloc)?;
        let settings = self.settings.copy(alloc)?;
        Ok(Start {
            place,
            block: self.block,
            locals,
            settings,
            seed: self.seed,
            role,
            until: self.until,
        })
    }
}
