//! What definitions say in other words. The functions do nothing: each is there for its clause.

ghost use Rattle.vt_ring.specs.CallTable.{CallsGiveWithin};
ghost use Rattle.vt_ring.specs.CountCalls.{SortIsInOrder};
ghost use Rattle.vt_ring.specs.Exact.{RoundedUpIsLeast};
ghost use Rattle.vt_ring.specs.NumberCalls.{CeilingIsLeast};
ghost use Rattle.vt_ring.specs.Turning.{RotatesByIndex};

/// Item i of a rotated list is item i + n of the list, counted round and round.
pub fn rotates_by_index()
    ensures { RotatesByIndex }
{}

/// A sorted ring is in order, has the items of the ring, and keeps the order of equal numbers.
pub fn sort_is_in_order()
    ensures { SortIsInOrder }
{}

/// `ceil` gives the least whole number not below the value.
pub fn ceiling_is_least()
    ensures { CeilingIsLeast }
{}

/// A range's or a line's number of steps is the least whole number not below the quotient.
pub fn rounded_up_is_least()
    ensures { RoundedUpIsLeast }
{}

/// Every value that a pure or random call gives is within the limits of the language, where its arguments are.
pub fn calls_give_within()
    ensures { CallsGiveWithin }
{}
