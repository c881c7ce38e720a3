//! Which part a thread has in its session.

ghost use Rattle.std.specs.Prelude.{◌≡◌, IfOk};

use crate::Delay;
use std::alloc::Global;
use vt_frac::NoMemory;
use vt_path::Pattern;
use vt_value::{Symbol, Value};

/// Which part a thread has in its session.
#[derive(Drop)]
pub enum Role {
    /// A text, or a thread without a name.
    Plain,
    /// The thread of this name.
    Named(Symbol),
    /// The live loop of this name. At its start it waits for an event whose path `wait` matches, where there is one. `init`
    /// is the value of the parameter of its first turn.
    Looped {
        name: Symbol,
        wait: Option<Pattern>,
        init: Value,
    },
    /// A block of `at`, whose statement stands on this line: it rests before its block, whose parameter has the value `given`.
    Timed {
        rest: Delay,
        given: Value,
        line: u32,
    },
}

impl Role {
    /// An equal role.
    pub fn copy(&self, alloc: Global) -> Result<Role, NoMemory>
        ensures { IfOk result (λ role. role ≡ self.now) }
    {
        match self {
            Role::Plain => Ok(Role::Plain),
            Role::Named(name) => Ok(Role::Named(name.copy(alloc)?)),
            Role::Looped { name, wait, init } => {
                let init = init.copy(alloc)?;
                let name = name.copy(alloc)?;
                let wait = copy_wait(alloc, wait)?;
                Ok(Role::Looped { name, wait, init })
            }
            Role::Timed { rest, given, line } => Ok(Role::Timed {
                rest: *rest,
                given: given.copy(alloc)?,
                line: *line,
            }),
        }
    }
}

fn copy_wait(alloc: Global, wait: &Option<Pattern>) -> Result<Option<Pattern>, NoMemory>
    ensures { IfOk result (λ copied. copied ≡ wait.now) }
{
    match wait {
        None => Ok(None),
        Some(pattern) => Ok(Some(pattern.copy(alloc)?)),
    }
}
