//! The call `spread`.

ghost use Rattle.std.specs.Prelude.{◌≡◌, ◌≤◌, IfOk, map};
ghost use Rattle.vt_ring.specs.Building.{spread_of, spread_value};
ghost use Rattle.vt_ring.specs.Items.{indices};
ghost use Rattle.vt_value.specs.Answers.{Gives};

use crate::arguments::between;
use std::alloc::Global;
use vt_frac::NoMemory;
use vt_value::{Items, MAX_ITEMS, Value, ValueFault};

/// Truths among n places, k of them true and as evenly as they go: item i is true where `(i * k) mod n` is below k. `BadValue` where n is not 1 to 4,096 or k not 0 to n.
pub fn spread(alloc: Global, k: i64, n: i64) -> Result<Items, ValueFault>
    ensures { Gives (spread_of k n) result }
{
    let places = between(1, MAX_ITEMS as u64, n)?;
    let beats = between(0, places, k)?;
    let items = truths(alloc, beats, places)?;
    Ok(items)
}

fn truths(alloc: Global, beats: u64, places: u64) -> Result<Items, NoMemory>
    requires some { 1 ≤ places }
    requires few { places ≤ 4096 }
    requires fewer { beats ≤ places }
    ensures { IfOk result (λ items. items ≡ map (spread_value beats places) (indices places)) }
{
    let mut items = Items::new(alloc);
    for i in 0..places {
        items.push(Value::Bool(i * beats % places < beats))?;
    }
    Ok(items)
}
