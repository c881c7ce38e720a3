//! What the calls that start threads are given.

ghost use Rattle.std.specs.Prelude.{◌≡◌, codes, IfOk};
ghost use Rattle.std.specs.Option.{option_copied};
ghost use Rattle.vt_ring.specs.Answers.{MayGive};
ghost use Rattle.vt_ring.specs.Signatures.{option_named};
ghost use Rattle.vt_value.specs.Answers.{Gives};
ghost use Rattle.vt_run.specs.calls.ThreadCalls.{loop_parts, loop_role, thread_role, wait_option};

use std::alloc::Global;
use std::marker::Model;
use vt_frac::NoMemory;
use vt_given::{Given, a_symbol, option_named, pattern_argument, symbol_argument};
use vt_path::Pattern;
use vt_run::Role;
use vt_value::{Symbol, Value, ValueFault};

/// The role of a thread of `in_thread`, by its option `name:`.
pub fn thread_role(alloc: Global, given: &Given) -> Result<Role, ValueFault>
    ensures { Gives (thread_role (option_named (codes "name") given.now.options)) result }
{
    match option_named(b"name", given.options().as_slice()) {
        None => Ok(Role::Plain),
        Some(value) => {
            let name = symbol_argument(value)?;
            Ok(Role::Named(name.copy(alloc)?))
        }
    }
}

/// What a live loop is given. Contracts see it as the record of its parts.
#[derive(Drop)]
pub struct LoopParts {
    name: Symbol,
    wait: Option<Pattern>,
    init: Option<Value>,
}

impl Model for LoopParts {
    ghost use Rattle.std.specs.Coded.{codes};
    ghost use Rattle.vt_value.specs.contracts.value.Value as any_value;
    ghost use Rattle.vt_run.specs.calls.ThreadCalls as calls;

    ghost Value = { calls.LoopParts };

    ghost coded = { Prim.hlevel (codes, any_value.the_row.coded) };

    ghost view = { λ parts. record { name = parts.name; wait = parts.wait; init = parts.init } };
}

impl LoopParts {
    /// The name of the live loop.
    pub fn name(&self) -> &Symbol
        ensures { result.now ≡ self.now.name }
    {
        &self.name
    }

    /// The value for its first turn, if one is given.
    pub fn init(&self) -> Option<&Value>
        ensures { option_copied result ≡ self.now.init }
    {
        self.init.as_ref()
    }

    /// Its role.
    pub fn into_role(self) -> Role
        ensures { result ≡ loop_role self }
    {
        let LoopParts { name, wait, init } = self;
        let init = match init {
            Some(value) => value,
            None => Value::Nil,
        };
        Role::Looped { name, wait, init }
    }
}

/// What a live loop is given: its name, what it waits for, and the value for its first turn. Want of memory may come in place
/// of `BadPath` too.
pub fn loop_parts(alloc: Global, given: &Given) -> Result<LoopParts, ValueFault>
    ensures { MayGive (loop_parts given.now) result }
{
    let options = given.options().as_slice();
    let name = a_symbol(given.all_args())?;
    let wait = wait_option(alloc, option_named(b"sync", options))?;
    Ok(parts_of(alloc, name, wait, option_named(b"init", options))?)
}

fn parts_of(
    alloc: Global,
    name: &Symbol,
    wait: Option<Pattern>,
    init: Option<&Value>,
) -> Result<LoopParts, NoMemory>
    ensures { IfOk result (λ parts. parts ≡ record { name = name.now; wait = wait; init = option_copied init.entry }) }
{
    let name = name.copy(alloc)?;
    let init = copy_of_given(alloc, init)?;
    Ok(LoopParts { name, wait, init })
}

fn copy_of_given(alloc: Global, value: Option<&Value>) -> Result<Option<Value>, NoMemory>
    ensures { IfOk result (λ copied. copied ≡ option_copied value.entry) }
{
    match value {
        None => Ok(None),
        Some(value) => Ok(Some(value.copy(alloc)?)),
    }
}

/// What a live loop waits for at its start.
fn wait_option(alloc: Global, value: Option<&Value>) -> Result<Option<Pattern>, ValueFault>
    ensures { MayGive (wait_option (option_copied value.entry)) result }
{
    match value {
        None => Ok(None),
        Some(value) => Ok(Some(pattern_argument(alloc, value)?)),
    }
}
