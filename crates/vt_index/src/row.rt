//! Rows: the positions of the events of one path, in order of place.

ghost use Rattle.std.specs.Prelude.{◌≡◌, ◌<◌, length, slice_get, OnErr, OnOk};
ghost use Rattle.std.specs.Bool.{OnTrue};
ghost use Rattle.vt_event.specs.Order.{place_of};
ghost use Rattle.vt_index.specs.declared.side.Side.TheVariants.{Below};
ghost use Rattle.vt_state.specs.LookUps.{HaveOwnPlaces};
ghost use Rattle.vt_index.specs.private.Nearest.{AreInFront, IsCut, IsEventAt, NearestOf, StandsIn};
ghost use Rattle.vt_index.specs.private.Rows.{AreWithin, IsAdded, IsCutTo, IsRising, IsRow, IsSameRow, StandsAt};

use crate::side::{Side, is_in_front};
use vt_event::{Event, PlaceRef};
use vt_frac::NoMemory;
use vt_path::Path;

/// The events of one path, by their positions in the list of all events.
#[derive(Drop)]
pub(crate) struct Row {
    pub(crate) path: Path,
    pub(crate) at: Vec<usize>,
}

/// The event of the row that is nearest to the place on this side of it.
pub(crate) fn nearest_in_row<'a>(
    events: &'a [Event],
    at: &[usize],
    place: &PlaceRef<'_>,
    side: Side,
) -> Option<&'a Event>
    requires within { AreWithin (length events.now) at.now }
    requires rising { IsRising events.now at.now }
    ensures { NearestOf (StandsIn events.now at.now) side (place_of place.now) result }
{
    let count = count_in_front(events, at, place, side);
    match side {
        Side::Below => {
            if count == 0 {
                return None;
            }
            Some(event_at(events, at, count - 1))
        }
        Side::Above => {
            if count == at.len() {
                return None;
            }
            Some(event_at(events, at, count))
        }
    }
}

/// The event to which the position with this number leads.
fn event_at<'a>(events: &'a [Event], at: &[usize], k: usize) -> &'a Event
    requires within { AreWithin (length events.now) at.now }
    requires some { k < length at.now }
    ensures { IsEventAt events.now at.now k result.now }
{
    standing(events, at[k])
}

/// The event at the position.
pub(crate) fn standing<'a>(events: &'a [Event], position: usize) -> &'a Event
    requires { position < length events.now }
    ensures { slice_get events.now position ≡ Some result.now }
{
    &events[position]
}

/// How many positions of the row lead to events in front of the place, by halves.
fn count_in_front(events: &[Event], at: &[usize], place: &PlaceRef<'_>, side: Side) -> usize
    requires within { AreWithin (length events.now) at.now }
    requires rising { IsRising events.now at.now }
    ensures { IsCut events.now at.now side (place_of place.now) result }
{
    let mut low = 0;
    let mut high = at.len();
    'halves: while low < high {
        let middle = low + (high - low) / 2;
        if is_in_front(event_at(events, at, middle), place, side) {
            low = middle + 1;
        } else {
            high = middle;
        }
    }
    low
}

/// Where a new event at this place goes in the row. It is at the end at once where the event comes after all others.
fn place_in_row(events: &[Event], at: &[usize], place: &PlaceRef<'_>) -> usize
    requires within { AreWithin (length events.now) at.now }
    requires rising { IsRising events.now at.now }
    ensures { IsCut events.now at.now Below (place_of place.now) result }
{
    if are_in_front(events, at, place) {
        return at.len();
    }
    count_in_front(events, at, place, Side::Below)
}

/// Whether the last event of the row, and so all of them, stand below the place.
fn are_in_front(events: &[Event], at: &[usize], place: &PlaceRef<'_>) -> bool
    requires within { AreWithin (length events.now) at.now }
    requires rising { IsRising events.now at.now }
    ensures { OnTrue result (AreInFront events.now at.now (place_of place.now)) }
{
    let count = at.len();
    if count == 0 {
        return true;
    }
    is_in_front(event_at(events, at, count - 1), place, Side::Below)
}

/// Adds the event at the position to the row of its path.
pub(crate) fn add_to_row(row: &mut Row, events: &[Event], position: usize) -> Result<(), NoMemory>
    requires row { IsRow events.now position row.old }
    requires stands { StandsAt events.now row.old.path position }
    requires apart { HaveOwnPlaces events.now }
    ensures ok { OnOk result (IsAdded events.now position row.old row.new) }
    ensures err { OnErr result (IsSameRow row.old row.new) }
{
    let place = standing(events, position).place().as_ref();
    let index = place_in_row(events, row.at.as_slice(), &place);
    row.at.insert(index, position)?;
    Ok(())
}

/// Takes the positions from this one on out of the row.
pub(crate) fn cut_row(row: &mut Row, from: usize)
    ensures { IsCutTo from row.old row.new }
{
    row.at.retain(|position| *position < from);
}
