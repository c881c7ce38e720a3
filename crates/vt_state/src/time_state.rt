//! What keeps the events of a session and finds them again.

ghost use Rattle.std.specs.Prelude.{◌≡◌, List, [], ◌∷◌, ◌++◌, IfOk, MatchOption, OnErr, OnOk};
ghost use Rattle.std.specs.List.Sorted.{IsPermutation};
ghost use Rattle.vt_event.specs.Event.{EventView};
ghost use Rattle.vt_event.specs.Order.{place_of};
ghost use Rattle.vt_state.specs.LookUps.{HaveOwnPlaces, IsFirstAbove, IsLastBelow, NoneAbove, NoneBelow, ShareNoPlace};

use std::alloc::Global;
use vt_event::{Event, Events, PlaceRef};
use vt_frac::NoMemory;
use vt_path::Pattern;

/// The events of a session, each at a place of its own, and what a read and a wait find among them.
///
/// A pattern matches an event that has a path, which the pattern matches, and is no Took: that a wait went on is no news.
pub trait TimeState: Sized + Drop + Send {
    /// Its events, in some order.
    ghost events_of: { Self → List EventView };

    /// No events.
    fn empty(alloc: Global) -> Result<Self, NoMemory>
        ensures { IfOk result (λ state. events_of state ≡ []) };

    /// Adds these events, which may come in any order. After want of memory none of them is added.
    fn put(&mut self, alloc: Global, events: Events) -> Result<(), NoMemory>
        requires apart { HaveOwnPlaces events }
        requires new { ShareNoPlace (events_of self.old) events }
        ensures ok { OnOk result (IsPermutation (events_of self.old ++ events) (events_of self.new)) }
        ensures err { OnErr result (events_of self.new ≡ events_of self.old) };

    /// The event with the greatest place below this one that the pattern matches. It takes no memory.
    fn last(&self, before: PlaceRef<'_>, pattern: &Pattern) -> Option<&Event>
        ensures { MatchOption result (NoneBelow (events_of self.now) (place_of before.entry) pattern.now) (λ event. IsLastBelow (events_of self.now) (place_of before.entry) pattern.now event.now) };

    /// The event with the least place above this one that the pattern matches. It takes no memory.
    fn next(&self, after: PlaceRef<'_>, pattern: &Pattern) -> Option<&Event>
        ensures { MatchOption result (NoneAbove (events_of self.now) (place_of after.entry) (pattern.now ∷ [])) (λ event. IsFirstAbove (events_of self.now) (place_of after.entry) (pattern.now ∷ []) event.now) };

    /// All events in some order, each once. It takes no memory.
    fn events(&self) -> &[Event]
        ensures all { result.now ≡ events_of self.now }
        ensures apart { HaveOwnPlaces result.now };
}
