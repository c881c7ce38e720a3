//! Numbers that are computed from their indices.

ghost use Rattle.std.specs.Prelude.{◌≡◌, ◌≤◌, ◌<◌, pos, true, false, IsOk, Err, MatchResult};
ghost use Rattle.vt_frac.specs.Fraction.{whole};
ghost use Rattle.vt_ring.specs.Answers.{MayGive, and_then};
ghost use Rattle.vt_ring.specs.Building.{line_number, number_value, range_number};
ghost use Rattle.vt_ring.specs.Exact.{exact_quotient, exact_sum};
ghost use Rattle.vt_ring.specs.private.Series.{HasSteps, series_number, series_numbers, series_values};
ghost use Rattle.vt_value.specs.Answers.{Gives};

use crate::exact::{exact_difference, exact_product, exact_quotient, exact_sum, whole};
use std::alloc::Global;
use vt_frac::Frac;
use vt_value::{FaultKind, Integer, Items, Value, ValueFault};

/// Numbers by their indices: a start and a step upwards or downwards, or a start, a way and how many steps it has.
#[derive(Drop)]
pub(crate) enum Series {
    Upwards(Frac, Frac),
    Downwards(Frac, Frac),
    Line(Frac, Frac, u64),
}

/// The first numbers of a series as values, or the first fault.
pub(crate) fn values(
    alloc: Global,
    series: &Series,
    count: u64,
    wholes: bool,
) -> Result<Items, ValueFault>
    requires few { count ≤ 4096 }
    requires steps { HasSteps series.now }
    ensures { Gives (series_values series.now count wholes) result }
{
    match first_fault(series, count) {
        Err(kind) => Err(ValueFault::Fault(kind)),
        Ok(()) => good_values(alloc, series, count, wholes),
    }
}

/// The first fault of the numbers.
fn first_fault(series: &Series, count: u64) -> Result<(), FaultKind>
    requires few { count ≤ 4096 }
    requires steps { HasSteps series.now }
    ensures { MatchResult result (λ _. IsOk (series_numbers series.now count)) (λ kind. series_numbers series.now count ≡ Err kind) }
{
    for i in 0..count {
        number(series, i)?;
    }
    Ok(())
}

fn good_values(
    alloc: Global,
    series: &Series,
    count: u64,
    wholes: bool,
) -> Result<Items, ValueFault>
    requires few { count ≤ 4096 }
    requires steps { HasSteps series.now }
    ensures { MayGive (series_values series.now count wholes) result }
{
    let mut items = Items::new(alloc);
    for i in 0..count {
        let number = number(series, i)?;
        items.push(number_value(wholes, number))?;
    }
    Ok(items)
}

fn number(series: &Series, i: u64) -> Result<Frac, FaultKind>
    requires few { i < 4096 }
    requires steps { HasSteps series.now }
    ensures { result ≡ series_number series.now i }
{
    match series {
        Series::Upwards(start, step) => upwards(*start, *step, i),
        Series::Downwards(start, step) => downwards(*start, *step, i),
        Series::Line(start, way, steps) => on_line(*start, *way, *steps, i),
    }
}

fn upwards(start: Frac, step: Frac, i: u64) -> Result<Frac, FaultKind>
    requires { i < 4096 }
    ensures { result ≡ range_number start step false i }
{
    match exact_product(whole(i), step) {
        Err(kind) => Err(kind),
        Ok(way) => exact_sum(start, way),
    }
}

fn downwards(start: Frac, step: Frac, i: u64) -> Result<Frac, FaultKind>
    requires { i < 4096 }
    ensures { result ≡ range_number start step true i }
{
    match exact_product(whole(i), step) {
        Err(kind) => Err(kind),
        Ok(way) => exact_difference(start, way),
    }
}

fn on_line(start: Frac, way: Frac, steps: u64, i: u64) -> Result<Frac, FaultKind>
    requires few { i < 4096 }
    requires some_steps { 1 ≤ steps }
    requires few_steps { steps ≤ 4096 }
    ensures { result ≡ line_number start way steps i }
{
    match exact_product(whole(i), way) {
        Err(kind) => Err(kind),
        Ok(product) => part_of_line(start, product, steps),
    }
}

fn part_of_line(start: Frac, product: Frac, steps: u64) -> Result<Frac, FaultKind>
    requires some_steps { 1 ≤ steps }
    requires few_steps { steps ≤ 4096 }
    ensures { result ≡ and_then (exact_quotient product (whole (pos steps))) (exact_sum start) }
{
    match exact_quotient(product, whole(steps)) {
        Err(kind) => Err(kind),
        Ok(part) => exact_sum(start, part),
    }
}

/// A number as a value: a whole number, where it is to be one, or else the fraction.
fn number_value(is_whole: bool, f: Frac) -> Value
    ensures { result ≡ number_value is_whole f }
{
    if !is_whole {
        return Value::Part(f);
    }
    match Integer::new(f.numer()) {
        Some(n) => Value::Whole(n),
        None => unreachable!(),
    }
}
