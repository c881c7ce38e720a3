//! The call `range`.

ghost use Rattle.std.specs.Prelude.{◌≡◌, IsTrue};
ghost use Rattle.vt_ring.specs.Building.{range_by, range_counted, range_of, steps_of};
ghost use Rattle.vt_ring.specs.Exact.{is_positive};
ghost use Rattle.vt_ring.specs.private.Series.{HasSteps, range_series};
ghost use Rattle.vt_value.specs.Answers.{Gives};

use crate::exact::{
    absolute, exact_difference, exact_quotient, is_negative, is_positive, rounded_up,
};
use crate::series::{Series, values};
use std::alloc::Global;
use vt_frac::Frac;
use vt_value::{FaultKind, Items, MAX_ITEMS, ValueFault};

/// The numbers from `start` towards `finish`, without `finish`, by a step: upwards, or downwards where `finish` is below `start`. Whole numbers where `whole` is true, else fractions. `BadValue` where the step is not above 0, `Overflow` where an operation does not fit, `TooLarge` where there are more than 4,096 numbers.
pub fn range(
    alloc: Global,
    start: Frac,
    finish: Frac,
    step: Frac,
    whole: bool,
) -> Result<Items, ValueFault>
    requires { IsTrue whole → (start.denom ≡ 1) × (finish.denom ≡ 1) × (step.denom ≡ 1) }
    ensures { Gives (range_of start finish step whole) result }
{
    if !is_positive(step) {
        return Err(ValueFault::Fault(FaultKind::BadValue));
    }
    match exact_difference(finish, start) {
        Err(kind) => Err(ValueFault::Fault(kind)),
        Ok(way) => range_by(alloc, start, way, step, whole),
    }
}

/// The range over a way, which is below 0 where it goes downwards.
fn range_by(
    alloc: Global,
    start: Frac,
    way: Frac,
    step: Frac,
    whole: bool,
) -> Result<Items, ValueFault>
    requires { IsTrue (is_positive step) }
    ensures { Gives (range_by start way step whole) result }
{
    match steps_of(way, step) {
        Err(kind) => Err(ValueFault::Fault(kind)),
        Ok(count) => range_counted(alloc, start, way, step, count, whole),
    }
}

/// How many steps there are, rounded up.
fn steps_of(way: Frac, step: Frac) -> Result<u64, FaultKind>
    requires { IsTrue (is_positive step) }
    ensures { result ≡ steps_of way step }
{
    match exact_quotient(absolute(way), step) {
        Err(kind) => Err(kind),
        Ok(steps) => Ok(rounded_up(steps)),
    }
}

/// So many numbers of a range.
fn range_counted(
    alloc: Global,
    start: Frac,
    way: Frac,
    step: Frac,
    count: u64,
    whole: bool,
) -> Result<Items, ValueFault>
    ensures { Gives (range_counted start way step whole count) result }
{
    if count > MAX_ITEMS as u64 {
        return Err(ValueFault::Fault(FaultKind::TooLarge));
    }
    let series = series(start, step, is_negative(way));
    values(alloc, &series, count, whole)
}

fn series(start: Frac, step: Frac, is_downwards: bool) -> Series
    ensures value { result ≡ range_series start step is_downwards }
    ensures steps { HasSteps result }
{
    if is_downwards {
        Series::Downwards(start, step)
    } else {
        Series::Upwards(start, step)
    }
}
