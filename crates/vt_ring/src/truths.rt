//! The call `bools`.

ghost use Rattle.std.specs.Prelude.{◌≡◌, IsOk, MatchResult, Err, map};
ghost use Rattle.vt_ring.specs.Answers.{MayGive, all_of};
ghost use Rattle.vt_ring.specs.Arguments.{whole_argument};
ghost use Rattle.vt_ring.specs.Building.{bool_of_number, bools_of, bools_without_limit};
ghost use Rattle.vt_value.specs.Answers.{Gives};

use crate::arguments::whole_argument;
use std::alloc::Global;
use vt_value::{FaultKind, Integer, Items, MAX_ITEMS, Value, ValueFault};

/// A truth for each whole number: true where it is not 0. `WrongKind` where a value is no whole number, `TooLarge` where they are more than 4,096.
pub fn bools(alloc: Global, args: &[Value]) -> Result<Items, ValueFault>
    ensures { Gives (bools_of args.now) result }
{
    match first_fault(args) {
        Err(kind) => Err(ValueFault::Fault(kind)),
        Ok(()) => bools_of_wholes(alloc, args),
    }
}

/// The first fault of the kinds.
fn first_fault(args: &[Value]) -> Result<(), FaultKind>
    ensures { MatchResult result (λ _. IsOk (all_of (map whole_argument args.now))) (λ kind. all_of (map whole_argument args.now) ≡ Err kind) }
{
    for arg in args {
        whole_argument(arg)?;
    }
    Ok(())
}

fn bools_of_wholes(alloc: Global, args: &[Value]) -> Result<Items, ValueFault>
    requires { IsOk (all_of (map whole_argument args.now)) }
    ensures { Gives (bools_of args.now) result }
{
    if args.len() > MAX_ITEMS {
        return Err(ValueFault::Fault(FaultKind::TooLarge));
    }
    truths(alloc, args)
}

fn truths(alloc: Global, args: &[Value]) -> Result<Items, ValueFault>
    ensures { MayGive (bools_without_limit args.now) result }
{
    let mut items = Items::new(alloc);
    for arg in args {
        let n = whole_argument(arg)?;
        items.push(truth(n))?;
    }
    Ok(items)
}

fn truth(n: Integer) -> Value
    ensures { result ≡ bool_of_number n }
{
    Value::Bool(n.get() != 0)
}
