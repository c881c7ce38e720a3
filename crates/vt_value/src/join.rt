//! Texts and rings within the limits.

ghost use Rattle.std.specs.Prelude.{◌≡◌, ◌++◌, IfOk, OnOk};
ghost use Rattle.vt_value.specs.Answers.{Gives};
ghost use Rattle.vt_value.specs.Arithmetic.{are_within, ring_within, text_within};

use crate::size::sizes;
use crate::{FaultKind, Items, Value, ValueFault};
use std::alloc::Global;
use vt_frac::{Name, NoMemory};

/// How many bytes a text may have.
const MAX_BYTES: usize = 4_096;

/// How many items a ring may have.
pub const MAX_ITEMS: usize = 4_096;

/// How large a value may be.
pub const MAX_SIZE: u64 = 65_536;

impl Value {
    /// The ring of these items, or `TooLarge` where they are more than 4,096, or its size is above 65,536.
    pub fn of_items(items: Items) -> Result<Value, FaultKind>
        ensures { result ≡ ring_within items }
    {
        if is_within(items.as_slice(), &[]) {
            Ok(Value::Ring(items))
        } else {
            Err(FaultKind::TooLarge)
        }
    }
}

/// The text of both.
pub(crate) fn join_texts(alloc: Global, first: &[u8], second: &[u8]) -> Result<Value, ValueFault>
    ensures { Gives (text_within (first.now ++ second.now)) result }
{
    if first.len() > MAX_BYTES || second.len() > MAX_BYTES - first.len() {
        return Err(ValueFault::Fault(FaultKind::TooLarge));
    }
    let bytes = both_texts(alloc, first, second)?;
    Ok(Value::Text(bytes))
}

fn both_texts(alloc: Global, first: &[u8], second: &[u8]) -> Result<Name, NoMemory>
    ensures { IfOk result (λ name. name ≡ first.now ++ second.now) }
{
    let mut bytes = Vec::from_slice(alloc, first)?;
    bytes.extend_from_slice(second)?;
    Name::of(alloc, bytes.as_slice())
}

/// The ring of the items of both.
pub(crate) fn join_rings(
    alloc: Global,
    first: &[Value],
    second: &[Value],
) -> Result<Value, ValueFault>
    ensures { Gives (ring_within (first.now ++ second.now)) result }
{
    if !is_within(first, second) {
        return Err(ValueFault::Fault(FaultKind::TooLarge));
    }
    let items = both_rings(alloc, first, second)?;
    Ok(Value::Ring(items))
}

/// Whether a ring of the items of both is within the limits.
fn is_within(first: &[Value], second: &[Value]) -> bool
    ensures { result ≡ are_within (first.now ++ second.now) }
{
    if first.len() > MAX_ITEMS || second.len() > MAX_ITEMS - first.len() {
        return false;
    }
    sizes(first).saturating_add(sizes(second)) < MAX_SIZE
}

fn both_rings(alloc: Global, first: &[Value], second: &[Value]) -> Result<Items, NoMemory>
    ensures { IfOk result (λ items. items ≡ first.now ++ second.now) }
{
    let mut items = Vec::new(alloc);
    push_copies(alloc, &mut items, first)?;
    push_copies(alloc, &mut items, second)?;
    Ok(Items::from_vec(items))
}

/// Appends a copy of each value.
pub(crate) fn push_copies(
    alloc: Global,
    items: &mut Vec<Value>,
    values: &[Value],
) -> Result<(), NoMemory>
    ensures { OnOk result (items.new.items ≡ items.old.items ++ values.now) }
{
    for value in values {
        items.push(value.copy(alloc)?)?;
    }
    Ok(())
}
