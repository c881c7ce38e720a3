//! The pure and random calls.

ghost use Rattle.std.specs.Prelude.{◌≡◌};
ghost use Rattle.vt_ring.specs.CallTable.{IsPureOrRandom};
ghost use Rattle.vt_run.specs.calls.EffectTable.{computed};
ghost use Rattle.vt_table.specs.Calls.{number_of};
ghost use Rattle.vt_effects.specs.Results.{Changes};

use std::alloc::Global;
use vt_given::Given;
use vt_prim::call;
use vt_rand::Stream;
use vt_run::State;
use vt_table::CallName;
use vt_value::{Value, ValueFault};

/// A pure or random call: its value, and the stream stands behind the words that it drew. A fault leaves the stream where it
/// stood.
pub fn computed(
    alloc: Global,
    which: CallName,
    given: &Given,
    state: &mut State,
) -> Result<Value, ValueFault>
    requires { IsPureOrRandom (number_of which) }
    ensures { Changes (computed which given.now state.old) state.old result state.new }
{
    let mut stream = copy_of(&state.stream);
    let value = call(
        alloc,
        which.number(),
        given.all_args(),
        given.options().as_slice(),
        &mut stream,
    )?;
    state.stream = stream;
    Ok(value)
}

/// An equal stream.
fn copy_of(stream: &Stream) -> Stream
    ensures { result ≡ stream.now }
{
    match stream.clone() {
        Ok(copy) => copy,
        Err(_) => unreachable!(),
    }
}
