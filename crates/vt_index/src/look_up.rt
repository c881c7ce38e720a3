//! Look-ups among rows.

ghost use Rattle.std.specs.Prelude.{◌↔◌, ◌++◌, [], ◌∷◌, List, length, IsTrue, MatchOption};
ghost use Rattle.std.specs.List.{Contains};
ghost use Rattle.vt_event.specs.Order.{place_of};
ghost use Rattle.vt_index.specs.declared.row.Row.{Row};
ghost use Rattle.vt_index.specs.private.Nearest.{FitsPattern, FitsRows, FitsText, IsNearer, NearestOf};
ghost use Rattle.vt_index.specs.private.Rows.{AreRows, IsRow};

use crate::grow::{find_row, row_at};
use crate::row::{Row, nearest_in_row};
use crate::side::{Side, is_nearer};
use indexmap::IndexMap;
use vt_event::{Event, PlaceRef};
use vt_path::{Pattern, matches};

/// The most bytes in which a path is written: 16 segments of 64 bytes, each with its slash.
const MOST_TEXT: usize = 1040;

/// The event that the pattern matches and that is nearest to the place on this side of it.
pub(crate) fn nearest<'a>(
    events: &'a [Event],
    rows: &IndexMap<Vec<u8>, Row>,
    pattern: &Pattern,
    place: &PlaceRef<'_>,
    side: Side,
) -> Option<&'a Event>
    requires { AreRows events.now (length events.now) rows.now.entries }
    ensures { NearestOf (FitsPattern events.now pattern.now) side (place_of place.now) result }
{
    let mut buffer = [0; MOST_TEXT];
    match pattern.literal_text(&mut buffer) {
        Some(count) => nearest_at(events, rows, &buffer[..count], place, side),
        None => nearest_among(events, rows.values().as_slice(), pattern, place, side),
    }
}

/// The nearest event of the path that is written so.
fn nearest_at<'a>(
    events: &'a [Event],
    rows: &IndexMap<Vec<u8>, Row>,
    text: &[u8],
    place: &PlaceRef<'_>,
    side: Side,
) -> Option<&'a Event>
    requires { AreRows events.now (length events.now) rows.now.entries }
    ensures { NearestOf (FitsText events.now rows.now.entries text.now) side (place_of place.now) result }
{
    match find_row(rows, text) {
        None => None,
        Some(index) => nearest_in_row(events, row_at(rows, index).at.as_slice(), place, side),
    }
}

/// The nearest event of the rows whose paths the pattern matches.
fn nearest_among<'a>(
    events: &'a [Event],
    rows: &[Row],
    pattern: &Pattern,
    place: &PlaceRef<'_>,
    side: Side,
) -> Option<&'a Event>
    requires { (row : Row) → Contains rows.now row → IsRow events.now (length events.now) row }
    ensures { NearestOf (FitsRows events.now rows.now pattern.now) side (place_of place.now) result }
{
    let mut found: Option<&Event> = None;
    for row in rows {
        found = nearer(found, events, row, pattern, place, side);
    }
    found
}

/// The nearest event, with one row more.
fn nearer<'a>(
    found: Option<&'a Event>,
    events: &'a [Event],
    row: &Row,
    pattern: &Pattern,
    place: &PlaceRef<'_>,
    side: Side,
) -> Option<&'a Event>
    requires { IsRow events.now (length events.now) row.now }
    ensures { (seen : List Row) → NearestOf (FitsRows events.now seen pattern.now) side (place_of place.now) found.entry → NearestOf (FitsRows events.now (seen ++ row.now ∷ []) pattern.now) side (place_of place.now) result }
{
    if !matches(pattern, &row.path) {
        return found;
    }
    let other = nearest_in_row(events, row.at.as_slice(), place, side);
    if is_better(other, found, side) {
        return other;
    }
    found
}

/// Whether there is the one event, and it is nearer than the other, if there is one.
fn is_better(event: Option<&Event>, other: Option<&Event>, side: Side) -> bool
    ensures { IsTrue result ↔ MatchOption event.entry ⊥ (λ e. MatchOption other.entry (Unit {0}) (λ o. IsNearer side e.now o.now)) }
{
    match event {
        None => false,
        Some(event) => is_nearer_than(event, other, side),
    }
}

fn is_nearer_than(event: &Event, other: Option<&Event>, side: Side) -> bool
    ensures { IsTrue result ↔ MatchOption other.entry (Unit {0}) (λ o. IsNearer side event.now o.now) }
{
    match other {
        None => true,
        Some(other) => is_nearer(event, other, side),
    }
}
