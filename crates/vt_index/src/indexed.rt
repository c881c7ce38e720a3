//! A time state with an index.

use crate::grow::{add_events, cut_rows};
use crate::look_up::nearest;
use crate::row::Row;
use crate::side::Side;
use indexmap::IndexMap;
use std::alloc::Global;
use std::marker::Model;
use vt_event::{Event, Events, PlaceRef};
use vt_frac::NoMemory;
use vt_path::Pattern;
use vt_state::TimeState;

/// A time state that keeps a row for each path: the positions of its events, in order of place. Each row is searched by halves.
///
/// A look-up by a pattern that is written as one path goes straight to its row; any other goes over the rows whose paths it
/// matches. An event that comes after all others of its path is added at the end of its row at once.
#[derive(Drop)]
pub struct Indexed {
    events: Vec<Event>,
    rows: IndexMap<Vec<u8>, Row>,
}

impl Model for Indexed {
    ghost use Rattle.std.specs.Prelude.{List};
    ghost use Rattle.std.specs.Coded.{codes};
    ghost use Rattle.vt_value.specs.contracts.value.Value as any_value;
    ghost use Rattle.vt_event.specs.Event.{EventView};
    ghost use Rattle.vt_index.specs.private.Rows.{IsIndexed};

    ghost Value = { List EventView };

    ghost coded = { Prim.hlevel (codes, any_value.the_row.coded) };

    ghost view = { λ indexed. indexed.events.items };

    ghost invariant = { λ indexed. IsIndexed indexed.events.items indexed.rows.entries };
}

impl TimeState for Indexed {
    ghost events_of = { λ state. state };

    fn empty(alloc: Global) -> Result<Indexed, NoMemory> {
        Ok(Indexed {
            events: Vec::new(alloc),
            rows: IndexMap::new(alloc),
        })
    }

    fn put(&mut self, alloc: Global, events: Events) -> Result<(), NoMemory> {
        let from = self.events.as_slice().len();
        let mut added = events.into_vec();
        self.events.append(&mut added)?;
        match add_events(alloc, self.events.as_slice(), &mut self.rows, from) {
            Ok(()) => Ok(()),
            Err(fault) => {
                cut_rows(&mut self.rows, from);
                self.events.truncate(from);
                Err(fault)
            }
        }
    }

    fn last(&self, before: PlaceRef<'_>, pattern: &Pattern) -> Option<&Event> {
        let place = PlaceRef {
            time: before.time,
            micro: before.micro,
            thread: before.thread,
            step: before.step,
        };
        nearest(
            self.events.as_slice(),
            &self.rows,
            pattern,
            &place,
            Side::Below,
        )
    }

    fn next(&self, after: PlaceRef<'_>, pattern: &Pattern) -> Option<&Event> {
        let place = PlaceRef {
            time: after.time,
            micro: after.micro,
            thread: after.thread,
            step: after.step,
        };
        nearest(
            self.events.as_slice(),
            &self.rows,
            pattern,
            &place,
            Side::Above,
        )
    }

    fn events(&self) -> &[Event] {
        self.events.as_slice()
    }
}
