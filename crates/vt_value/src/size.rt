//! How large values are.

ghost use Rattle.std.specs.Prelude.{◌≡◌, ◌^◌, ◌-◌, ◌+◌, [], min};
ghost use Rattle.vt_value.specs.Kinds.{items_of};
ghost use Rattle.vt_value.specs.Sizes.{size_of, sizes_of};

use crate::Value;
use crate::heaviest::by_heaviest;

impl Value {
    /// 1, or the bytes of a text, or 1 and the sizes of a ring's items; at most `2^64 - 1`.
    #[cycle(size)]
    pub fn size(&self) -> u64
        ensures { result ≡ min (2 ^ 64 - 1) (size_of self.now) }
    {
        let mut before: u64 = 0;
        let mut value = self;
        while let Some(parts) = by_heaviest(value.items()) {
            let beside = sizes(parts.prefix).saturating_add(sizes(parts.suffix));
            before = before.saturating_add(1).saturating_add(beside);
            value = parts.item;
        }
        before.saturating_add(own_size(value))
    }
}

/// The sizes of the values together, at most `2^64 - 1`.
#[cycle(size)]
pub fn sizes(values: &[Value]) -> u64
    ensures { result ≡ min (2 ^ 64 - 1) (sizes_of values.now) }
{
    let mut total: u64 = 0;
    for value in values {
        total = total.saturating_add(value.size());
    }
    total
}

/// The size of a value without an item.
fn own_size(value: &Value) -> u64
    ensures { items_of value.now ≡ [] → result ≡ size_of value.now }
{
    match value.text() {
        Some(bytes) => bytes.len() as u64,
        None => 1,
    }
}
