//! Look-ups that go over a list of events.

ghost use Rattle.std.specs.Prelude.{◌≡◌, ◌↔◌, List, [], ◌∷◌, ◌++◌, IsTrue, MatchOption};
ghost use Rattle.vt_event.specs.Event.{EventView};
ghost use Rattle.vt_event.specs.Order.{IsBefore, place_of};
ghost use Rattle.vt_state.specs.LookUps.{HaveOwnPlaces, IsFirstAbove, IsLastBelow, MatchesEvent, NoneAbove, NoneBelow};

use vt_event::{Event, Kind, PlaceRef};
use vt_path::{Pattern, matches};

/// The event with the greatest place below this one that the pattern matches.
pub(crate) fn last_below<'a>(
    events: &'a [Event],
    before: &PlaceRef<'_>,
    pattern: &Pattern,
) -> Option<&'a Event>
    requires { HaveOwnPlaces events.now }
    ensures { MatchOption result (NoneBelow events.now (place_of before.now) pattern.now) (λ event. IsLastBelow events.now (place_of before.now) pattern.now event.now) }
{
    let mut found: Option<&Event> = None;
    for event in events {
        found = later(found, event, before, pattern);
    }
    found
}

/// The event with the least place above this one that the pattern matches.
pub(crate) fn first_above<'a>(
    events: &'a [Event],
    after: &PlaceRef<'_>,
    pattern: &Pattern,
) -> Option<&'a Event>
    requires { HaveOwnPlaces events.now }
    ensures { MatchOption result (NoneAbove events.now (place_of after.now) (pattern.now ∷ [])) (λ event. IsFirstAbove events.now (place_of after.now) (pattern.now ∷ []) event.now) }
{
    let mut found: Option<&Event> = None;
    for event in events {
        found = earlier(found, event, after, pattern);
    }
    found
}

/// What is last below the place, with one event more.
fn later<'a>(
    found: Option<&'a Event>,
    event: &'a Event,
    before: &PlaceRef<'_>,
    pattern: &Pattern,
) -> Option<&'a Event>
    ensures { (seen : List EventView) → HaveOwnPlaces (seen ++ event.now ∷ []) → MatchOption found.entry (NoneBelow seen (place_of before.now) pattern.now) (λ e. IsLastBelow seen (place_of before.now) pattern.now e.now) → MatchOption result (NoneBelow (seen ++ event.now ∷ []) (place_of before.now) pattern.now) (λ e. IsLastBelow (seen ++ event.now ∷ []) (place_of before.now) pattern.now e.now) }
{
    if is_later(found, event, before, pattern) {
        return Some(event);
    }
    found
}

/// What is first above the place, with one event more.
fn earlier<'a>(
    found: Option<&'a Event>,
    event: &'a Event,
    after: &PlaceRef<'_>,
    pattern: &Pattern,
) -> Option<&'a Event>
    ensures { (seen : List EventView) → HaveOwnPlaces (seen ++ event.now ∷ []) → MatchOption found.entry (NoneAbove seen (place_of after.now) (pattern.now ∷ [])) (λ e. IsFirstAbove seen (place_of after.now) (pattern.now ∷ []) e.now) → MatchOption result (NoneAbove (seen ++ event.now ∷ []) (place_of after.now) (pattern.now ∷ [])) (λ e. IsFirstAbove (seen ++ event.now ∷ []) (place_of after.now) (pattern.now ∷ []) e.now) }
{
    if is_earlier(found, event, after, pattern) {
        return Some(event);
    }
    found
}

/// Whether the event stands below the place, the pattern matches it, and it stands behind the one found so far.
fn is_later(found: Option<&Event>, event: &Event, before: &PlaceRef<'_>, pattern: &Pattern) -> bool
    ensures { IsTrue result ↔ (IsBefore event.now.place (place_of before.now) × MatchesEvent pattern.now event.now × MatchOption found.entry (Unit {0}) (λ e. IsBefore e.now.place event.now.place)) }
{
    is_before(&event.place().as_ref(), before)
        && matches_event(pattern, event)
        && is_behind(event, found)
}

/// Whether the event stands above the place, the pattern matches it, and it stands before the one found so far.
fn is_earlier(found: Option<&Event>, event: &Event, after: &PlaceRef<'_>, pattern: &Pattern) -> bool
    ensures { IsTrue result ↔ (IsBefore (place_of after.now) event.now.place × MatchesEvent pattern.now event.now × MatchOption found.entry (Unit {0}) (λ e. IsBefore event.now.place e.now.place)) }
{
    is_before(after, &event.place().as_ref())
        && matches_event(pattern, event)
        && is_in_front(event, found)
}

/// Whether the event stands behind the other one, if there is one.
fn is_behind(event: &Event, other: Option<&Event>) -> bool
    ensures { IsTrue result ↔ MatchOption other.entry (Unit {0}) (λ e. IsBefore e.now.place event.now.place) }
{
    match other {
        None => true,
        Some(other) => is_before(&other.place().as_ref(), &event.place().as_ref()),
    }
}

/// Whether the event stands before the other one, if there is one.
fn is_in_front(event: &Event, other: Option<&Event>) -> bool
    ensures { IsTrue result ↔ MatchOption other.entry (Unit {0}) (λ e. IsBefore event.now.place e.now.place) }
{
    match other {
        None => true,
        Some(other) => is_before(&event.place().as_ref(), &other.place().as_ref()),
    }
}

fn is_before(place: &PlaceRef<'_>, other: &PlaceRef<'_>) -> bool
    ensures { IsTrue result ↔ IsBefore (place_of place.now) (place_of other.now) }
{
    place.cmp(other).is_lt()
}

/// Whether the pattern matches the event: it has a path that matches, and is no Took.
fn matches_event(pattern: &Pattern, event: &Event) -> bool
    ensures { IsTrue result ↔ MatchesEvent pattern.now event.now }
{
    match event.path() {
        None => false,
        Some(path) => !is_took(event.kind()) && matches(pattern, path),
    }
}

fn is_took(kind: Kind) -> bool
    ensures { IsTrue result ↔ (kind ≡ Kind.Took) }
{
    match kind {
        Kind::Took => true,
        _ => false,
    }
}
