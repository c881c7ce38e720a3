//! A time state that is a list.

use crate::TimeState;
use crate::scan::{first_above, last_below};
use std::alloc::Global;
use std::marker::Model;
use vt_event::{Event, Events, PlaceRef};
use vt_frac::NoMemory;
use vt_path::Pattern;

/// A time state that keeps its events in a list, in the order in which they came, and goes over all of it for each look-up.
///
/// `last` and `next` make the place anew of its parts: one that is taken by value cannot be lent on.
#[derive(Drop)]
pub struct Plain {
    events: Vec<Event>,
}

impl Model for Plain {
    ghost use Rattle.std.specs.Prelude.{List};
    ghost use Rattle.std.specs.Coded.{codes};
    ghost use Rattle.vt_value.specs.contracts.value.Value as any_value;
    ghost use Rattle.vt_event.specs.Event.{EventView};
    ghost use Rattle.vt_state.specs.LookUps.{HaveOwnPlaces};

    ghost Value = { List EventView };

    ghost coded = { Prim.hlevel (codes, any_value.the_row.coded) };

    ghost view = { λ plain. plain.events.items };

    ghost invariant = { λ plain. HaveOwnPlaces plain.events.items };
}

impl TimeState for Plain {
    ghost events_of = { λ state. state };

    fn empty(alloc: Global) -> Result<Plain, NoMemory> {
        Ok(Plain {
            events: Vec::new(alloc),
        })
    }

    fn put(&mut self, _alloc: Global, events: Events) -> Result<(), NoMemory> {
        let mut added = events.into_vec();
        self.events.append(&mut added)?;
        Ok(())
    }

    fn last(&self, before: PlaceRef<'_>, pattern: &Pattern) -> Option<&Event> {
        let place = PlaceRef {
            time: before.time,
            micro: before.micro,
            thread: before.thread,
            step: before.step,
        };
        last_below(self.events.as_slice(), &place, pattern)
    }

    fn next(&self, after: PlaceRef<'_>, pattern: &Pattern) -> Option<&Event> {
        let place = PlaceRef {
            time: after.time,
            micro: after.micro,
            thread: after.thread,
            step: after.step,
        };
        first_above(self.events.as_slice(), &place, pattern)
    }

    fn events(&self) -> &[Event] {
        self.events.as_slice()
    }
}
