//! The call `knit`.

ghost use Rattle.std.specs.Prelude.{◌≡◌, IsOk, Err, IfOk, MatchResult};
ghost use Rattle.vt_ring.specs.Building.{in_pairs, knit_of, runs_of};
ghost use Rattle.vt_ring.specs.private.Knitting.{knitted};
ghost use Rattle.vt_ring.specs.Limits.{within_limits};
ghost use Rattle.vt_value.specs.Answers.{Gives};

use crate::arguments::{count_or_zero, is_below_zero, whole_argument};
use crate::copies::push_times;
use crate::within::is_knit_within;
use std::alloc::Global;
use vt_frac::NoMemory;
use vt_value::{FaultKind, Items, Value, ValueFault};

/// Each value as many times as the count behind it says. `WrongCount` where the number of arguments is odd, `WrongKind` where a count is no whole number, `BadValue` where one is below 0, `TooLarge` above the limits.
pub fn knit(alloc: Global, args: &[Value]) -> Result<Items, ValueFault>
    ensures { Gives (knit_of args.now) result }
{
    if args.len() % 2 != 0 {
        return Err(ValueFault::Fault(FaultKind::WrongCount));
    }
    match first_fault(args) {
        Err(kind) => Err(ValueFault::Fault(kind)),
        Ok(()) => knitted_within(alloc, args),
    }
}

/// The first fault of the counts: the kinds of all of them are looked at before the range of one.
fn first_fault(args: &[Value]) -> Result<(), FaultKind>
    ensures { MatchResult result (λ _. IsOk (runs_of (in_pairs args.now))) (λ kind. runs_of (in_pairs args.now) ≡ Err kind) }
{
    let mut is_bad = false;
    let mut left = args;
    while let [_value, count, rest @ ..] = left {
        let n = whole_argument(count)?;
        is_bad = is_below_zero(n, is_bad);
        left = rest;
    }
    if is_bad {
        Err(FaultKind::BadValue)
    } else {
        Ok(())
    }
}

fn knitted_within(alloc: Global, args: &[Value]) -> Result<Items, ValueFault>
    ensures { Gives (within_limits (knitted args.now)) result }
{
    if !is_knit_within(args) {
        return Err(ValueFault::Fault(FaultKind::TooLarge));
    }
    let items = knitted(alloc, args)?;
    Ok(items)
}

fn knitted(alloc: Global, args: &[Value]) -> Result<Items, NoMemory>
    ensures { IfOk result (λ items. items ≡ knitted args.now) }
{
    let mut items = Items::new(alloc);
    let mut left = args;
    while let [value, count, rest @ ..] = left {
        push_times(alloc, &mut items, value, count_or_zero(count))?;
        left = rest;
    }
    Ok(items)
}
