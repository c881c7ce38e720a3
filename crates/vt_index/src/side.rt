//! The sides of a place, and where an event stands to it.

ghost use Rattle.std.specs.Prelude.{◌↔◌, IsTrue, MatchBool};
ghost use Rattle.vt_event.specs.Order.{IsBefore, place_of};
ghost use Rattle.vt_index.specs.private.Nearest.{IsBehind, IsInFront, IsNearer};

use vt_event::{Event, PlaceRef};

/// On which side of a place an event is looked for.
#[derive(Clone, Copy, PartialEq, Eq)]
pub(crate) enum Side {
    /// Before the place.
    Below,
    /// After the place.
    Above,
}

/// Whether the event stands in front of where the search from this place begins: what a search below may find, or what one
/// above may not.
pub(crate) fn is_in_front(event: &Event, place: &PlaceRef<'_>, side: Side) -> bool
    ensures { MatchBool result (IsInFront side (place_of place.now) event.now) (IsBehind side (place_of place.now) event.now) }
{
    match side {
        Side::Below => is_before(&event.place().as_ref(), place),
        Side::Above => !is_before(place, &event.place().as_ref()),
    }
}

/// Whether the event is nearer to a place on this side of both than the other.
pub(crate) fn is_nearer(event: &Event, other: &Event, side: Side) -> bool
    ensures { IsTrue result ↔ IsNearer side event.now other.now }
{
    match side {
        Side::Below => is_before(&other.place().as_ref(), &event.place().as_ref()),
        Side::Above => is_before(&event.place().as_ref(), &other.place().as_ref()),
    }
}

fn is_before(place: &PlaceRef<'_>, other: &PlaceRef<'_>) -> bool
    ensures { IsTrue result ↔ IsBefore (place_of place.now) (place_of other.now) }
{
    place.cmp(other).is_lt()
}
