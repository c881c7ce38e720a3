//! The heaviest item of a list, apart from the others.

ghost use Rattle.std.specs.Prelude.{◌≡◌, ◌++◌, ◌∷◌, [], ◌<◌, ◌≤◌, length, MatchOption};

use crate::Value;
use crate::items::weight;

/// An item of a list, and those before and behind it.
#[derive(Clone, Copy)]
pub(crate) struct Parts<'a> {
    pub prefix: &'a [Value],
    pub item: &'a Value,
    pub suffix: &'a [Value],
}

/// The list by one of its heaviest items. Each other item holds at most half of all values in the list.
pub(crate) fn by_heaviest(items: &[Value]) -> Option<Parts<'_>>
    ensures { MatchOption result (items.now ≡ []) (λ parts. items.now ≡ parts.prefix.now ++ parts.item.now ∷ parts.suffix.now) }
{
    by_item(items, heaviest(items))
}

/// The list by the item at an index.
pub(crate) fn by_item(items: &[Value], at: usize) -> Option<Parts<'_>>
    ensures parts { MatchOption result (length items.now ≤ at) (λ parts. (items.now ≡ parts.prefix.now ++ parts.item.now ∷ parts.suffix.now) × (length parts.prefix.now ≡ at)) }
{
    if items.len() <= at {
        return None;
    }
    let (prefix, rest) = items.split_at(at);
    let (item, suffix) = rest.split_first()?;
    Some(Parts {
        prefix,
        item,
        suffix,
    })
}

/// Where one of the heaviest items stands, and 0 where there is none.
fn heaviest(items: &[Value]) -> usize
    ensures { length items.now ≤ result → items.now ≡ [] }
{
    let mut at = 0;
    let mut most = 0;
    for (i, item) in items.iter().enumerate() {
        let here = weight(item);
        if here > most {
            at = i;
            most = here;
        }
    }
    at
}
