//! The table under the lock: its words, its slot, its rule, and what each step tells.
ghost use Rattle.vt_lock.specs.Numbers.{all_numbers};
ghost use Rattle.vt_lock.specs.TurnRule.{KeepsTurns};
ghost use Rattle.vt_lock.specs.Views.{first_view, lower_half, spent_view, united, upper_half};
ghost use Rattle.vt_lock.specs.private.StepsTell.{draw_tells, look_tells, open_tells, raise_tells, settle_tells};

use crate::kept::Kept;
use crate::view::View;
use atomic_table::{Join, Play, Shared, Split, Table, TableRule};
use std::alloc::Global;
use std::marker::PhantomData;

/// The word with the next ticket.
pub const TICKET: usize = 0;

/// The word with the ticket whose turn it is.
pub const SERVING: usize = 1;

/// The slot in which the value lies.
pub const VALUE: usize = 0;

pub type TurnView<T> = View<<T as Kept>::Key, <T as Kept>::Entry>;

/// A table with the two words and the slot. What it is told once is the value that the lock was made with.
pub type TurnTable<T> = Table<Option<T>, TurnView<T>, T, TurnRule<T>, Global>;

/// The same, as threads share it.
pub type Board<T> = Shared<Option<T>, TurnView<T>, T, TurnRule<T>>;

/// What a thread steps with.
pub type Pass<T> = atomic_table::Seat<Option<T>, TurnView<T>>;

/// The rule that holds between any two steps.
pub struct TurnRule<T> {
    kept: PhantomData<T>,
}

impl<T: Kept> TableRule<Option<T>, View<T::Key, T::Entry>, T> for TurnRule<T> {
    ghost holds = { KeepsTurns T.key T.log T.worker };

    ghost first = { λ x. first_view (T.key x) (T.log x) all_numbers };
}

/// The first load: the first seat takes the empty slot.
pub struct Opens;

impl<T: Kept> Play<Option<T>, View<T::Key, T::Entry>> for Opens {
    ghost then = { open_tells T.key T.log T.worker };
}

/// A ticket is drawn.
pub struct Draws;

impl<T: Kept> Play<Option<T>, View<T::Key, T::Entry>> for Draws {
    ghost then = { draw_tells T.key T.log T.worker };
}

/// A load that looks whether the turn has come.
pub struct Looks;

impl<T: Kept> Play<Option<T>, View<T::Key, T::Entry>> for Looks {
    ghost then = { look_tells T.key T.log T.worker };
}

/// The turn is given up.
pub struct Raises;

impl<T: Kept> Play<Option<T>, View<T::Key, T::Entry>> for Raises {
    ghost then = { raise_tells T.key T.log T.worker };
}

/// The load after a join.
pub struct Settles;

impl<T: Kept> Play<Option<T>, View<T::Key, T::Entry>> for Settles {
    ghost then = { settle_tells T.key T.log T.worker };
}

/// How the numbers of a seat are shared between two.
pub struct IntoHalves;

impl<X, E> Split<View<X, E>> for IntoHalves {
    ghost left = { lower_half };

    ghost right = { upper_half };
}

/// How two seats are made one.
pub struct IntoOne;

impl<X, E> Join<View<X, E>> for IntoOne {
    ghost both = { united };

    ghost spent = { spent_view };
}
