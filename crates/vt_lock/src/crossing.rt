//! What may go from one thread to another.
use crate::kept::Kept;
use crate::seat::Seat;
use crate::turns::Turns;

/// A lock may be shared by threads and may go to another thread, and so may a seat, whatever is kept. The function
/// does nothing: it is there for its bounds.
pub fn lock_and_seat_may_cross<T: Kept>() {
    is_shared::<Turns<T>>();
    is_sent::<Turns<T>>();
    is_sent::<Seat<T>>();
}

fn is_shared<X: Sync>() {}

fn is_sent<X: Send>() {}
