//! The item of a ring at an index.

ghost use Rattle.std.specs.Prelude.{◌≡◌, ◌<◌, Ok, Err, MatchResult};
ghost use Rattle.vt_ring.specs.Items.{item_at, wrapped};

use vt_value::{FaultKind, Value};

/// The item at an index, counted round and round: 0 is the first and -1 the last. `EmptyRing` where there is no item.
pub fn ring_at(items: &[Value], i: i64) -> Result<&Value, FaultKind>
    ensures { MatchResult result (λ item. item_at items.now i ≡ Ok item.now) (λ kind. item_at items.now i ≡ Err kind) }
{
    if items.is_empty() {
        return Err(FaultKind::EmptyRing);
    }
    Ok(&items[wrapped(i, items.len())])
}

/// Where an index stands among so many items that are counted round and round.
pub(crate) fn wrapped(index: i64, count: usize) -> usize
    requires { 0 < count }
    ensures place { result ≡ wrapped index count }
    ensures below { result < count }
{
    if index < 0 {
        let behind = (index.unsigned_abs() - 1) as usize % count;
        count - 1 - behind
    } else {
        index as usize % count
    }
}
