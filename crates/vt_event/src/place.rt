//! Places, and their order.

ghost use Rattle.std.specs.Prelude.{◌≡◌, IfOk, Some};
ghost use Rattle.std.specs.Ordering.{is_eq};
ghost use Rattle.std.specs.Cmp.{eq_by_cmp_equiv, partial_equiv_from_equiv, partial_order_from_total};
ghost use Rattle.std.proofs.Common.{refl};
ghost use Rattle.vt_event.specs.Order.{place_order, place_of};
ghost use Rattle.vt_event.specs.OrderLaws.{place_total, place_ref_total};

use crate::ThreadId;
use std::alloc::Global;
use std::cmp::Ordering;
use vt_frac::{Frac, NoMemory};

/// Where an action stands. Places are ordered by time, then by micro step, then by thread, then by step.
#[derive(Drop)]
pub struct Place {
    /// The time, in seconds.
    pub time: Frac,
    /// The micro step in that time.
    pub micro: u32,
    /// The thread.
    pub thread: ThreadId,
    /// The number of the action in its thread, from 1, and 0 for the fault of a text that is refused.
    pub step: u32,
}

/// A place whose thread is lent. It has the same order.
#[derive(Clone, Copy)]
pub struct PlaceRef<'a> {
    /// The time, in seconds.
    pub time: Frac,
    /// The micro step in that time.
    pub micro: u32,
    /// The thread.
    pub thread: &'a ThreadId,
    /// The number of the action in its thread.
    pub step: u32,
}

impl Place {
    /// The same place, with its thread lent.
    pub fn as_ref(&self) -> PlaceRef<'_>
        ensures { place_of result ≡ self.now }
    {
        PlaceRef {
            time: self.time,
            micro: self.micro,
            thread: &self.thread,
            step: self.step,
        }
    }

    /// An equal place.
    pub fn copy(&self, alloc: Global) -> Result<Place, NoMemory>
        ensures { IfOk result (λ place. place ≡ self.now) }
    {
        self.as_ref().to_place(alloc)
    }
}

impl<'a> PlaceRef<'a> {
    /// The same place, with a thread of its own.
    pub fn to_place(&self, alloc: Global) -> Result<Place, NoMemory>
        ensures { IfOk result (λ place. place ≡ place_of self.now) }
    {
        Ok(Place {
            time: self.time,
            micro: self.micro,
            thread: self.thread.copy(alloc)?,
            step: self.step,
        })
    }
}

impl PartialEq for Place {
    ghost eq = { λ p q. is_eq (place_order p q) };

    ghost laws = { partial_equiv_from_equiv (eq_by_cmp_equiv place_total) };

    fn eq(&self, other: &Place) -> bool {
        self.cmp(other).is_eq()
    }
}

impl Eq for Place {
    ghost laws = { eq_by_cmp_equiv place_total };
}

impl PartialOrd for Place {
    ghost partial_cmp = { λ p q. Some (place_order p q) };

    ghost laws = { partial_order_from_total place_total };

    fn partial_cmp(&self, other: &Place) -> Option<Ordering> {
        Some(self.cmp(other))
    }
}

impl Ord for Place {
    ghost cmp = { place_order };

    ghost total = { place_total };

    ghost matches_partial_cmp = { λ p q. refl };

    ghost matches_eq = { λ p q. refl };

    fn cmp(&self, other: &Place) -> Ordering {
        self.as_ref().cmp(&other.as_ref())
    }
}

impl<'a> PartialEq for PlaceRef<'a> {
    ghost eq = { λ p q. is_eq (place_order (place_of p) (place_of q)) };

    ghost laws = { partial_equiv_from_equiv (eq_by_cmp_equiv place_ref_total) };

    fn eq(&self, other: &PlaceRef<'a>) -> bool {
        self.cmp(other).is_eq()
    }
}

impl<'a> Eq for PlaceRef<'a> {
    ghost laws = { eq_by_cmp_equiv place_ref_total };
}

impl<'a> PartialOrd for PlaceRef<'a> {
    ghost partial_cmp = { λ p q. Some (place_order (place_of p) (place_of q)) };

    ghost laws = { partial_order_from_total place_ref_total };

    fn partial_cmp(&self, other: &PlaceRef<'a>) -> Option<Ordering> {
        Some(self.cmp(other))
    }
}

impl<'a> Ord for PlaceRef<'a> {
    ghost cmp = { λ p q. place_order (place_of p) (place_of q) };

    ghost total = { place_ref_total };

    ghost matches_partial_cmp = { λ p q. refl };

    ghost matches_eq = { λ p q. refl };

    fn cmp(&self, other: &PlaceRef<'a>) -> Ordering {
        self.time
            .cmp(&other.time)
            .then(self.micro.cmp(&other.micro))
            .then(self.thread.cmp(other.thread))
            .then(self.step.cmp(&other.step))
    }
}
