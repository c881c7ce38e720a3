//! What a place leads to in a graph.

ghost use Rattle.std.specs.Prelude.{◌≡◌, ◌∷◌, [], ◌<◌, length, IfOk, OnOk};
ghost use Rattle.vt_reach.specs.private.Bodies.{list_at};
ghost use Rattle.vt_reach.specs.private.Search.{Adds, AreWithin, IsMarked, IsReached, IsWithin};

use sqlite_items::{Items, at};
use std::alloc::Global;
use vt_frac::NoMemory;

/// All places that this one leads to, itself the first.
pub(crate) fn reached(
    alloc: Global,
    graph: &[Items<usize>],
    from: usize,
) -> Result<Vec<usize>, NoMemory>
    requires within { from < length graph.now }
    requires closed { AreWithin graph.now }
    ensures { IfOk result (λ found. IsReached graph.now from found.items) }
{
    let mut found = Vec::new(alloc);
    let mut marks = vec![in alloc; false; graph.len()]?;
    marks[from] = true;
    found.push(from)?;
    let mut next = 0;
    'search: while next < found.len() {
        add_next(graph, found[next], &mut marks, &mut found)?;
        next += 1;
    }
    Ok(found)
}

/// Adds the places that this one leads to in one step and that are not marked yet, and marks them.
fn add_next(
    graph: &[Items<usize>],
    place: usize,
    marks: &mut Vec<bool>,
    found: &mut Vec<usize>,
) -> Result<(), NoMemory>
    requires closed { AreWithin graph.now }
    requires same { length marks.old.items ≡ length graph.now }
    requires marked { IsMarked found.old.items marks.old.items }
    ensures { OnOk result (Adds (list_at graph.now place) marks.old.items marks.new.items found.old.items found.new.items) }
{
    match at(graph, place) {
        None => Ok(()),
        Some(more) => add_all(more.as_slice(), marks, found),
    }
}

/// Adds the places that are not marked yet, and marks them.
fn add_all(more: &[usize], marks: &mut Vec<bool>, found: &mut Vec<usize>) -> Result<(), NoMemory>
    requires within { IsWithin more.now (length marks.old.items) }
    requires marked { IsMarked found.old.items marks.old.items }
    ensures { OnOk result (Adds more.now marks.old.items marks.new.items found.old.items found.new.items) }
{
    for place in more {
        add(*place, marks, found)?;
    }
    Ok(())
}

/// Adds the place, if it is not marked yet, and marks it.
fn add(place: usize, marks: &mut Vec<bool>, found: &mut Vec<usize>) -> Result<(), NoMemory>
    requires within { place < length marks.old.items }
    requires marked { IsMarked found.old.items marks.old.items }
    ensures { OnOk result (Adds (place ∷ []) marks.old.items marks.new.items found.old.items found.new.items) }
{
    if marks[place] {
        return Ok(());
    }
    found.push(place)?;
    marks[place] = true;
    Ok(())
}
