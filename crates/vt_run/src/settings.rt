//! What a thread plays with.

ghost use Rattle.std.specs.Prelude.{◌≡◌, IfOk};

use crate::Tempo;
use std::alloc::Global;
use vt_event::{FxId, Options};
use vt_frac::{Name, NoMemory};

/// What a thread plays with.
#[derive(Drop)]
pub struct Settings {
    /// The tempo, in beats per minute.
    pub bpm: Tempo,
    /// The synth of its notes.
    pub synth: Name,
    /// The options of its notes that are not given with them.
    pub defaults: Options,
    /// The effect in which it sounds.
    pub fx: Option<FxId>,
}

impl Settings {
    /// Equal settings.
    pub fn copy(&self, alloc: Global) -> Result<Settings, NoMemory>
        ensures { IfOk result (λ settings. settings ≡ self.now) }
    {
        let synth = self.synth.copy(alloc)?;
        let fx = copy_fx(alloc, &self.fx)?;
        let defaults = self.defaults.copy(alloc)?;
        Ok(Settings {
            bpm: self.bpm,
            synth,
            defaults,
            fx,
        })
    }
}

fn copy_fx(alloc: Global, fx: &Option<FxId>) -> Result<Option<FxId>, NoMemory>
    ensures { IfOk result (λ copied. copied ≡ fx.now) }
{
    match fx {
        None => Ok(None),
        Some(fx) => Ok(Some(fx.copy(alloc)?)),
    }
}
