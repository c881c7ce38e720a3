//! Which bodies a block runs: those of the functions and live loops that it names.

ghost use Rattle.std.specs.Prelude.{◌≡◌, ◌↔◌, ◌++◌, ◌∷◌, [], cond, IfOk, IsTrue, OnOk};
ghost use Rattle.std.specs.List.{Contains};
ghost use Rattle.vt_reach.specs.private.Bodies.{AreBodies, AreWritings, IsGraph, IsWriting, IsWritingGraph, RunsBody};

use crate::found::Row;
use crate::mention::{Key, Mention};
use sqlite_items::Items;
use std::alloc::Global;
use vt_frac::NoMemory;

/// For each block the places of the bodies that it runs.
pub(crate) fn graph_of(alloc: Global, rows: &[Row]) -> Result<Items<Items<usize>>, NoMemory>
    ensures { IfOk result (IsGraph rows.now) }
{
    let mut graph = Items::new(alloc);
    for row in rows {
        graph.push(bodies_of(alloc, rows, row.mentions.as_slice())?)?;
    }
    Ok(graph)
}

/// Adds the place, where it was picked.
pub(crate) fn push_if(places: &mut Items<usize>, at: usize, picked: bool) -> Result<(), NoMemory>
    ensures { OnOk result (places.new ≡ cond picked (places.old ++ at ∷ []) places.old) }
{
    if picked {
        places.push(at)?;
    }
    Ok(())
}

/// The places of the bodies that are run by what is mentioned.
fn bodies_of(alloc: Global, rows: &[Row], mentions: &[Mention]) -> Result<Items<usize>, NoMemory>
    ensures { IfOk result (AreBodies rows.now mentions.now) }
{
    let mut bodies = Items::new(alloc);
    for (at, row) in rows.iter().enumerate() {
        push_if(&mut bodies, at, runs_body(mentions, &row.body_of))?;
    }
    Ok(bodies)
}

fn runs_body(mentions: &[Mention], body_of: &Option<Key>) -> bool
    ensures { IsTrue result ↔ RunsBody mentions.now body_of.now }
{
    match body_of {
        None => false,
        Some(key) => runs(mentions, key),
    }
}

fn runs(mentions: &[Mention], key: &Key) -> bool
    ensures { IsTrue result ↔ Contains mentions.now (Mention.Runs key.now) }
{
    for mention in mentions {
        if is_run(mention, key) {
            return true;
        }
    }
    false
}

fn is_run(mention: &Mention, key: &Key) -> bool
    ensures { IsTrue result ↔ (mention.now ≡ Mention.Runs key.now) }
{
    match mention {
        Mention::Runs(own) => own.is(key),
        Mention::Writes(_) => false,
        Mention::WritesAny => false,
    }
}

/// For each block the places at which its mentions write something.
pub(crate) fn writings_of(alloc: Global, rows: &[Row]) -> Result<Items<Items<usize>>, NoMemory>
    ensures { IfOk result (IsWritingGraph rows.now) }
{
    let mut all = Items::new(alloc);
    for row in rows {
        all.push(writings_in(alloc, row.mentions.as_slice())?)?;
    }
    Ok(all)
}

fn writings_in(alloc: Global, mentions: &[Mention]) -> Result<Items<usize>, NoMemory>
    ensures { IfOk result (AreWritings mentions.now) }
{
    let mut writings = Items::new(alloc);
    for (at, mention) in mentions.iter().enumerate() {
        push_if(&mut writings, at, is_writing(mention))?;
    }
    Ok(writings)
}

fn is_writing(mention: &Mention) -> bool
    ensures { IsTrue result ↔ IsWriting mention.now }
{
    match mention {
        Mention::Writes(_) => true,
        Mention::WritesAny => true,
        Mention::Runs(_) => false,
    }
}
