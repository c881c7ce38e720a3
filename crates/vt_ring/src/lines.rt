//! The call `line`.

ghost use Rattle.std.specs.Prelude.{◌≡◌, ◌≤◌};
ghost use Rattle.vt_ring.specs.Building.{line_counted, line_of};
ghost use Rattle.vt_value.specs.Answers.{Gives};

use crate::arguments::between;
use crate::exact::exact_difference;
use crate::series::{Series, values};
use std::alloc::Global;
use vt_frac::Frac;
use vt_value::{Items, MAX_ITEMS, ValueFault};

/// The fractions `start + i * (finish - start) / steps` for i from 0 to `steps - 1`. `BadValue` where the steps are not 1 to 4,096, `Overflow` where an operation does not fit.
pub fn line(alloc: Global, start: Frac, finish: Frac, steps: i64) -> Result<Items, ValueFault>
    ensures { Gives (line_of start finish steps) result }
{
    match between(1, MAX_ITEMS as u64, steps) {
        Err(kind) => Err(ValueFault::Fault(kind)),
        Ok(count) => line_counted(alloc, start, finish, count),
    }
}

fn line_counted(alloc: Global, start: Frac, finish: Frac, count: u64) -> Result<Items, ValueFault>
    requires some { 1 ≤ count }
    requires few { count ≤ 4096 }
    ensures { Gives (line_counted start finish count) result }
{
    match exact_difference(finish, start) {
        Err(kind) => Err(ValueFault::Fault(kind)),
        Ok(way) => values(alloc, &Series::Line(start, way, count), count, false),
    }
}
