//! What an event refers to: an effect, a block of a text.

ghost use Rattle.std.specs.Prelude.{◌≡◌, IfOk};

use crate::ThreadId;
use std::alloc::Global;
use vt_frac::NoMemory;

/// An effect: the thread that began it, and its number in that thread.
#[derive(Drop)]
pub struct FxId {
    /// The thread that began it.
    pub thread: ThreadId,
    /// Its number in that thread, from 1.
    pub number: u32,
}

impl FxId {
    /// An equal reference.
    pub fn copy(&self, alloc: Global) -> Result<FxId, NoMemory>
        ensures { IfOk result (λ fx. fx ≡ self.now) }
    {
        Ok(FxId {
            thread: self.thread.copy(alloc)?,
            number: self.number,
        })
    }
}

/// A block of a text.
#[derive(Clone, Copy, PartialEq, Eq)]
pub struct BlockRef {
    /// The number of the text, from 1.
    pub text: u32,
    /// The number of the block in that text; 0 is the text itself.
    pub block: u32,
}
