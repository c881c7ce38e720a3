//! How the rows grow, and are cut back.

ghost use Rattle.std.specs.Prelude.{◌≡◌, ◌↔◌, ◌+◌, ◌<◌, ◌≤◌, ℕ, List, length, slice_get, IfOk, IsTrue, MatchOption, OnErr, OnOk};
ghost use Rattle.std.specs.Map.{values_of};
ghost use Rattle.vt_event.specs.Event.{EventView};
ghost use Rattle.vt_state.specs.LookUps.{HaveOwnPlaces};
ghost use Rattle.vt_index.specs.private.Rows.{AreNamed, ArePartlyAdded, AreRows, GoesTo, IsRowAdded, IsRowAt, IsRowNamed, NoneNamed, StandsAt};

use crate::row::{Row, add_to_row, cut_row, standing};
use indexmap::IndexMap;
use std::alloc::Global;
use vt_event::{Event, Kind};
use vt_frac::NoMemory;
use vt_path::Path;

/// Adds the events from this position on to their rows. After want of memory some of them may be added.
pub(crate) fn add_events(
    alloc: Global,
    events: &[Event],
    rows: &mut IndexMap<Vec<u8>, Row>,
    from: usize,
) -> Result<(), NoMemory>
    requires apart { HaveOwnPlaces events.now }
    requires within { from ≤ length events.now }
    requires rows { AreRows events.now from rows.old.entries }
    ensures ok { OnOk result (AreRows events.now (length events.now) rows.new.entries) }
    ensures err { OnErr result (ArePartlyAdded events.now from rows.new.entries) }
{
    for position in from..events.len() {
        add_event(alloc, events, rows, position)?;
    }
    Ok(())
}

/// Adds the event at the position to the row of its path, if it has one and is no Took.
fn add_event(
    alloc: Global,
    events: &[Event],
    rows: &mut IndexMap<Vec<u8>, Row>,
    position: usize,
) -> Result<(), NoMemory>
    requires apart { HaveOwnPlaces events.now }
    requires within { position < length events.now }
    requires rows { AreRows events.now position rows.old.entries }
    ensures ok { OnOk result (AreRows events.now (position + 1) rows.new.entries) }
    ensures err { OnErr result (AreRows events.now position rows.new.entries) }
{
    match path_of(standing(events, position)) {
        None => Ok(()),
        Some(path) => add_at_path(alloc, events, rows, position, path),
    }
}

/// The path under which the event is found: none where it is a Took.
fn path_of(event: &Event) -> Option<&Path>
    ensures { MatchOption result ((path : List (List ℕ)) → GoesTo path event.now → ⊥) (λ path. GoesTo path.now event.now) }
{
    if is_took(event.kind()) {
        return None;
    }
    event.path()
}

fn is_took(kind: Kind) -> bool
    ensures { IsTrue result ↔ (kind ≡ Kind.Took) }
{
    match kind {
        Kind::Took => true,
        _ => false,
    }
}

fn add_at_path(
    alloc: Global,
    events: &[Event],
    rows: &mut IndexMap<Vec<u8>, Row>,
    position: usize,
    path: &Path,
) -> Result<(), NoMemory>
    requires apart { HaveOwnPlaces events.now }
    requires stands { StandsAt events.now path.now position }
    requires rows { AreRows events.now position rows.old.entries }
    ensures ok { OnOk result (AreRows events.now (position + 1) rows.new.entries) }
    ensures err { OnErr result (AreRows events.now position rows.new.entries) }
{
    let index = row_of(alloc, rows, path)?;
    add_to_row(&mut rows[index], events, position)
}

/// The index of the row of the path. It makes an empty one where there is none.
fn row_of(alloc: Global, rows: &mut IndexMap<Vec<u8>, Row>, path: &Path) -> Result<usize, NoMemory>
    ensures keeps { (events : List EventView) (n : ℕ) → AreRows events n rows.old.entries → AreRows events n rows.new.entries }
    ensures row { IfOk result (λ index. AreNamed rows.old.entries → IsRowAt rows.new.entries index path.now) }
{
    let mut text = Vec::new(alloc);
    path.write(alloc, &mut text)?;
    match find_row(rows, text.as_slice()) {
        Some(index) => Ok(index),
        None => add_row(alloc, rows, text, path),
    }
}

/// The index of the row that has this text for its key.
pub(crate) fn find_row(rows: &IndexMap<Vec<u8>, Row>, text: &[u8]) -> Option<usize>
    ensures { MatchOption result (NoneNamed rows.now.entries text.now) (λ index. IsRowNamed rows.now.entries index text.now) }
{
    rows.get_index_of(text)
}

/// The row at the index.
pub(crate) fn row_at(rows: &IndexMap<Vec<u8>, Row>, index: usize) -> &Row
    requires { index < length rows.now.entries }
    ensures { slice_get (values_of rows.now.entries) index ≡ Some result.now }
{
    &rows[index]
}

/// Adds an empty row of the path behind the others.
fn add_row(
    alloc: Global,
    rows: &mut IndexMap<Vec<u8>, Row>,
    text: Vec<u8>,
    path: &Path,
) -> Result<usize, NoMemory>
    requires { NoneNamed rows.old.entries text.items }
    ensures ok { IfOk result (λ index. IsRowAdded rows.old.entries rows.new.entries index text path.now) }
    ensures err { OnErr result (rows.new.entries ≡ rows.old.entries) }
{
    let row = Row {
        path: path.copy(alloc)?,
        at: Vec::new(alloc),
    };
    let index = rows.len();
    rows.insert(text, row)?;
    Ok(index)
}

/// Takes the events from this position on out of all rows.
pub(crate) fn cut_rows(rows: &mut IndexMap<Vec<u8>, Row>, from: usize)
    ensures { (events : List EventView) (n : ℕ) → from ≤ n → AreRows events n rows.old.entries → AreRows events from rows.new.entries }
{
    for index in 0..rows.len() {
        cut_row(&mut rows[index], from);
    }
}
