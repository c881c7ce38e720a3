//! Where a thread stands.

ghost use Rattle.std.specs.Prelude.{◌≡◌, IfOk};
ghost use Rattle.vt_effects.specs.Results.{place_in};

use std::alloc::Global;
use vt_event::{Place, ThreadId};
use vt_frac::NoMemory;
use vt_run::State;

/// The place of a thread's next action.
pub fn place_in(alloc: Global, thread: &ThreadId, state: &State) -> Result<Place, NoMemory>
    ensures { IfOk result (λ place. place ≡ place_in thread.now state.now) }
{
    Ok(Place {
        time: state.time,
        micro: state.micro,
        thread: thread.copy(alloc)?,
        step: state.step,
    })
}
